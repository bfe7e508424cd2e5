//! A section of the page, which shows a turn.

ghost use Rattle.std.specs.Prelude.{◌≡◌, ◌++◌, List, OnOk, flat_map, string_bytes};
ghost use Rattle.xbar_equip.specs.declared.path.Path.{Path as ThePath};
ghost use Rattle.xbar_page.specs.Section.{card_inset, inset_start, lines_text, path_inset, section_end, section_text, title_text};

use crate::links::{Links, SectionName, add_nav};
use crate::sentences::{add_words, set_up};
use crate::words::Requested;
use std::alloc::{AllocError, Global};
use xbar_equip::Path;
use xbar_office::Record;
use xbar_office_drawing::{OwnedCard, add_card, add_path_card, cards_of};
use xbar_plan::Plan;
use xbar_report::record_text;

/// Adds the beginning of a turn's section: its name and its heading.
#[tactic(auto, unfolding(crate::specs::Section::title_text))]
fn add_title(text: &mut String, owner: &Record) -> Result<(), AllocError>
    ensures { OnOk result (string_bytes text.new ≡ string_bytes text.old ++
        title_text owner.now) }
{
    let turn = owner.turn;
    let name = SectionName(Some(turn));
    let asked = Requested(&owner.job);
    write!(
        text,
        "<section id=\"{name}\">\n<h2>Turn {turn}: {asked}</h2>\n"
    )?;
    Ok(())
}

/// Adds the lines of a record and of its cards, as a replay writes them.
#[tactic(auto, unfolding(crate::specs::Section::lines_text))]
fn add_lines(alloc: Global, text: &mut String, owner: &Record) -> Result<(), AllocError>
    ensures { OnOk result (string_bytes text.new ≡ string_bytes text.old ++
        lines_text owner.now) }
{
    let lines = record_text(alloc, owner)?;
    text.push_str("<pre><code>")?;
    text.push_str(lines.as_str())?;
    text.push_str("</code></pre>\n")?;
    Ok(())
}

/// Adds the beginning of figures of a class, 480 units wide.
#[tactic(auto, unfolding(crate::specs::Section::inset_start))]
fn add_inset_start(text: &mut String, height: u16, class: &str) -> Result<(), AllocError>
    ensures { OnOk result (string_bytes text.new ≡ string_bytes text.old ++
        inset_start height class.now) }
{
    text.push_str("<svg xmlns=\"http://www.w3.org/2000/svg\" viewBox=\"0 0 480 ")?;
    writeln!(text, "{height}\" class=\"{class}\">")?;
    Ok(())
}

/// Adds a trouble card of a turn.
#[tactic(auto, unfolding(crate::specs::Section::card_inset, crate::specs::Section::inset_text))]
fn add_card_inset(alloc: Global, text: &mut String, card: &OwnedCard) -> Result<(), AllocError>
    ensures { OnOk result (string_bytes text.new ≡ string_bytes text.old ++ card_inset card.now) }
{
    add_inset_start(text, 228, "card-face")?;
    add_card(alloc, text, card)?;
    text.push_str("</svg>\n")?;
    Ok(())
}

/// Adds the card of a path that a turn set up.
#[tactic(auto, unfolding(crate::specs::Section::path_inset, crate::specs::Section::inset_text))]
fn add_path_inset(
    alloc: Global,
    text: &mut String,
    plan: &Plan,
    path: &Path,
) -> Result<(), AllocError>
    ensures { OnOk result (string_bytes text.new ≡ string_bytes text.old ++
        path_inset plan.now path.now) }
{
    add_inset_start(text, 164, "switches")?;
    add_path_card(alloc, text, plan, path)?;
    text.push_str("</svg>\n")?;
    Ok(())
}

fn add_cards(alloc: Global, text: &mut String, cards: &[OwnedCard]) -> Result<(), AllocError>
    ensures { OnOk result (string_bytes text.new ≡ string_bytes text.old ++
        flat_map card_inset cards.now) }
{
    for card in cards {
        add_card_inset(alloc, text, card)?;
    }
    Ok(())
}

fn add_paths(
    alloc: Global,
    text: &mut String,
    plan: &Plan,
    paths: &[Path],
) -> Result<(), AllocError>
    ensures { OnOk result (string_bytes text.new ≡ string_bytes text.old ++
        flat_map (path_inset plan.now) paths.now) }
{
    for path in paths {
        add_path_inset(alloc, text, plan, path)?;
    }
    Ok(())
}

/// Adds the section of a record's turn, whatever the paths after it.
#[tactic(auto, unfolding(crate::specs::Section::section_text))]
pub fn add_section(
    alloc: Global,
    text: &mut String,
    plan: &Plan,
    owner: &Record,
    links: Links,
) -> Result<(), AllocError>
    ensures { (paths : List ThePath) → OnOk result (string_bytes text.new ≡ string_bytes text.old ++
        section_text plan.now (record { owner = owner.now; paths = paths; links = links })) }
{
    let set_up = set_up(alloc, &owner.reply.end)?;
    let cards = cards_of(alloc, owner)?;
    add_title(text, owner)?;
    add_nav(text, links)?;
    add_words(alloc, text, plan, owner)?;
    add_cards(alloc, text, &cards)?;
    add_paths(alloc, text, plan, &set_up)?;
    add_lines(alloc, text, owner)?;
    add_section_end(text)?;
    Ok(())
}

/// Adds the end of a section.
pub fn add_section_end(text: &mut String) -> Result<(), AllocError>
    ensures { OnOk result (string_bytes text.new ≡ string_bytes text.old ++ section_end) }
{
    text.push_str("</section>\n")?;
    Ok(())
}
