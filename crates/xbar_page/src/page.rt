//! The whole page.

ghost use Rattle.std.specs.Prelude.{◌≡◌, ◌++◌, [], IfOk, None, OnOk, flat_map, string_bytes};
ghost use Rattle.xbar_page.specs.Page.{office_page as the_page, start_text, turn_item, turns_text};
ghost use Rattle.xbar_page.specs.Section.{section_text};
ghost use Rattle.xbar_page.specs.Sections.{sections, sections_from, turn_at as turn_at_of};
ghost use Rattle.xbar_page.specs.Stays.{sets_of};

use crate::head::add_head;
use crate::links::{Links, add_start_nav};
use crate::picture::add_picture;
use crate::script::add_foot;
use crate::section::{add_section, add_section_end};
use crate::stays::{PathSet, stays};
use crate::words::Requested;
use std::alloc::{AllocError, Global};
use xbar_office::{Office, Record};
use xbar_plan::Plan;

/// An office with this plan turn by turn, as one page in HTML that loads nothing from outside: the
/// empty office, for each record its turn, and one picture of the office with each path that any
/// turn sets up.
pub fn office_page(alloc: Global, plan: &Plan, records: &[Record]) -> Result<String, AllocError>
    ensures { IfOk result (λ page. string_bytes page ≡ the_page plan.now records.now) }
{
    let mut text = String::new(alloc);
    add_page(alloc, &mut text, plan, records)?;
    Ok(text)
}

#[tactic(auto, unfolding(crate::specs::Page::office_page))]
fn add_page(
    alloc: Global,
    text: &mut String,
    plan: &Plan,
    records: &[Record],
) -> Result<(), AllocError>
    ensures { OnOk result (string_bytes text.new ≡ string_bytes text.old ++
        the_page plan.now records.now) }
{
    let sets = sets_after(alloc, plan, records)?;
    let stays = stays(alloc, &sets)?;
    add_head(text)?;
    add_start(text, records)?;
    add_sections(alloc, text, plan, records)?;
    add_turns(text, records)?;
    add_picture(alloc, text, plan, &stays)?;
    add_foot(text)?;
    Ok(())
}

/// The turn of the record at an index, if there is one.
fn turn_at(records: &[Record], place: usize) -> Option<u64>
    ensures { result ≡ turn_at_of records.now place }
{
    records.get(place).map(|record| record.turn)
}

/// Adds the section of the empty office, before all turns.
#[tactic(auto, unfolding(crate::specs::Page::start_text))]
fn add_start(text: &mut String, records: &[Record]) -> Result<(), AllocError>
    ensures { OnOk result (string_bytes text.new ≡ string_bytes text.old ++
        start_text records.now) }
{
    let count = records.len();
    text.push_str("<section id=\"start\">\n<h2>The office before all turns</h2>\n")?;
    add_start_nav(text, turn_at(records, 0))?;
    text.push_str("<ul>\n<li>No path stands: all crosspoints are open.</li>\n")?;
    writeln!(text, "<li>Jobs that take their turn: {count}.</li>\n</ul>")?;
    add_section_end(text)?;
    Ok(())
}

/// The set of paths after each turn.
fn sets_after(alloc: Global, plan: &Plan, records: &[Record]) -> Result<Vec<PathSet>, AllocError>
    ensures { IfOk result (λ sets. sets.items ≡ sets_of (sections plan.now records.now)) }
{
    let mut office = Office::open(alloc, plan);
    let mut sets = Vec::new(alloc);
    for owner in records {
        office.whole(owner.job)?;
        sets.push(PathSet::of(alloc, office.paths())?)?;
    }
    Ok(sets)
}

/// Adds a section for each turn.
fn add_sections(
    alloc: Global,
    text: &mut String,
    plan: &Plan,
    records: &[Record],
) -> Result<(), AllocError>
    ensures { OnOk result (string_bytes text.new ≡ string_bytes text.old ++
        flat_map (section_text plan.now) (sections plan.now records.now)) }
{
    let mut before = None;
    for (place, owner) in records.iter().enumerate() {
        let after = turn_at(records, place + 1);
        add_section(alloc, text, plan, owner, Links { before, after })?;
        before = Some(owner.turn);
    }
    Ok(())
}

/// Adds a turn in the list of all turns.
#[tactic(auto, unfolding(crate::specs::Page::turn_item))]
fn add_turn_item(text: &mut String, owner: &Record) -> Result<(), AllocError>
    ensures { OnOk result (string_bytes text.new ≡ string_bytes text.old ++ turn_item owner.now) }
{
    let turn = owner.turn;
    let asked = Requested(&owner.job);
    writeln!(text, "<li><a href=\"#turn{turn}\">{turn}: {asked}</a></li>")?;
    Ok(())
}

fn add_turn_items(text: &mut String, records: &[Record]) -> Result<(), AllocError>
    ensures { OnOk result (string_bytes text.new ≡ string_bytes text.old ++
        flat_map turn_item records.now) }
{
    for owner in records {
        add_turn_item(text, owner)?;
    }
    Ok(())
}

/// Adds the list of all turns.
#[tactic(auto, unfolding(crate::specs::Page::turns_text))]
fn add_turns(text: &mut String, records: &[Record]) -> Result<(), AllocError>
    ensures { OnOk result (string_bytes text.new ≡ string_bytes text.old ++
        turns_text records.now) }
{
    text.push_str("<details id=\"list\">\n<summary>All turns</summary>\n<ol id=\"turns\">\n")?;
    text.push_str("<li><a href=\"#start\">before all turns</a></li>\n")?;
    add_turn_items(text, records)?;
    text.push_str("</ol>\n</details>\n</div>\n")?;
    Ok(())
}
