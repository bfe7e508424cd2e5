//! The whole drawing.

ghost use Rattle.std.specs.Prelude.{◌≡◌, ◌++◌, ◌≤◌, IfOk, OnOk, flat_map, map, string_bytes};
ghost use Rattle.xbar_office_drawing.specs.CardFace.{card_face};
ghost use Rattle.xbar_office_drawing.specs.Drawing.{count_text, drawing_of, drawing_parts, office_drawing as the_drawing, office_with, path_alone, style as the_style};
ghost use Rattle.xbar_office_drawing.specs.Figures.{figures_text, laid_out, part_text};
ghost use Rattle.xbar_office_drawing.specs.Index.{entry};
ghost use Rattle.xbar_office_drawing.specs.PathInOffice.{path_dots as path_dots_of, path_trails};
ghost use Rattle.xbar_office_drawing.specs.declared.placing.TheConstants.{CARDS as THE_CARDS, INDEX as THE_INDEX, PATH_CARDS as THE_PATH_CARDS};
ghost use Rattle.xbar_office_drawing.specs.Switches.{path_card};

use crate::card_face::add_card;
use crate::index::add_entry;
use crate::names::{add_line_name, add_names, add_trunk_name};
use crate::office::add_office;
use crate::owned_card::{OwnedCard, all_cards};
use crate::path_in_office::{add_trails, path_dots};
use crate::placing::{CARDS, INDEX, PATH_CARDS, add_place, cards_top, drawing_height, paths_top};
use crate::shapes::add_shapes;
use crate::switches::add_path_card;
use std::alloc::{AllocError, Global};
use svg::{Point, Shape, add_foot, add_group, add_group_end, add_head, add_shape};
use xbar_equip::Path;
use xbar_office::Record;
use xbar_plan::Plan;

/// The style sheet, which says how each class looks.
const STYLE: &str = "\
text{font:14px Georgia,'DejaVu Serif',serif;fill:#2b2620}.sheet{fill:#f6f0e2}\
.frame{fill:#fbf8ef;stroke:#8c7d63}.switch{fill:#efe6d2;stroke:#8c7d63;stroke-width:.7}\
.lines{stroke:#a8997d;stroke-width:4;stroke-dasharray:1 3}\
.trunks{stroke:#a8997d;stroke-width:4;stroke-dasharray:1 7}\
.idle{stroke:#c9bda3;stroke-width:.35}.bundle{fill:none;stroke:#d8cdb5;stroke-width:.6}\
.mesh{fill:url(#mesh)}.bar{stroke:#c0b396;stroke-width:.8}path{fill:none}\
.call{stroke:#a3201b;stroke-width:2.4}.call.edge{stroke:#f6f0e2;stroke-width:5}\
.register{stroke:#f6f0e2;stroke-width:1.6}.register.edge{stroke:#1f4e79;stroke-width:4.4}\
circle.call{fill:#2b2620;stroke:#f6f0e2;stroke-width:1}\
circle.register{fill:#f6f0e2;stroke:#1f4e79;stroke-width:1.6}\
.fault{stroke:#b35309;stroke-width:2.4;stroke-dasharray:6 4}\
.closed{stroke:#2b2620;stroke-width:1.4}.point{fill:#a3201b}\
.card{fill:#f3e3bf;stroke:#8c7d63}.place{fill:#fbf3dc;stroke:#cdb88a}.hole{fill:#2b2620}\
.middle{text-anchor:middle}.end,.told,.line{text-anchor:end}\
.number{text-anchor:middle;font-size:24px;fill:#6f624b}.head,.small,.field{fill:#5d523f}\
.head{font-style:italic}.unlisted{font-style:italic;fill:#5d523f}\
.big{font-size:18px;font-weight:bold}";

/// The drawing in SVG of an office under this plan, with these paths after these records: the
/// office at a glance, the index of the paths, the card of each path, and each trouble card, 1,600
/// units wide.
pub fn office_drawing(
    alloc: Global,
    plan: &Plan,
    paths: &[Path],
    records: &[Record],
) -> Result<String, AllocError>
    ensures { IfOk result (λ text. string_bytes text ≡ the_drawing plan.now paths.now records.now) }
{
    let cards = all_cards(alloc, records)?;
    let mut text = String::new(alloc);
    add_drawing(alloc, &mut text, plan, paths, &cards)?;
    Ok(text)
}

#[tactic(auto, unfolding(crate::specs::Drawing::drawing_of))]
fn add_drawing(
    alloc: Global,
    text: &mut String,
    plan: &Plan,
    paths: &[Path],
    cards: &[OwnedCard],
) -> Result<(), AllocError>
    ensures { OnOk result (string_bytes text.new ≡ string_bytes text.old ++
        drawing_of plan.now paths.now cards.now) }
{
    let height = drawing_height(paths.len(), cards.len());
    add_head(text, 1600, height, STYLE)?;
    text.push_str("<rect width=\"100%\" height=\"100%\" class=\"sheet\"/>\n")?;
    add_shapes(text)?;
    add_parts(alloc, text, plan, paths, cards)?;
    add_foot(text)?;
    Ok(())
}

/// The style sheet of drawings and of what a page takes from them.
pub fn style() -> &'static str
    ensures { result.now ≡ the_style }
{
    STYLE
}

// ---- the picture of the office

/// Adds the number of paths, and the number of crosspoints that they close.
#[tactic(auto, unfolding(crate::specs::Drawing::count_text))]
pub fn add_count(text: &mut String, count: usize) -> Result<(), AllocError>
    ensures { OnOk result (string_bytes text.new ≡ string_bytes text.old ++ count_text count) }
{
    let closed = 4 * count as u128;
    write!(text, "paths: {count}, crosspoints closed: {closed}")?;
    Ok(())
}

/// Adds the office with its paths: their trails, over them their dots, and their names.
#[tactic(auto, unfolding(crate::specs::Drawing::office_with))]
fn add_office_with(
    alloc: Global,
    text: &mut String,
    plan: &Plan,
    paths: &[Path],
) -> Result<(), AllocError>
    ensures { OnOk result (string_bytes text.new ≡ string_bytes text.old ++
        figures_text (office_with plan.now paths.now)) }
{
    let mut told = String::new(alloc);
    add_count(&mut told, paths.len())?;
    add_shape(text, &Shape::Text(Point(16, 30), "big", told.as_str()))?;
    add_office(alloc, text, plan)?;
    add_all_trails(text, plan, paths)?;
    add_all_dots(text, plan, paths)?;
    add_names(alloc, text, plan, paths)
}

fn add_all_trails(text: &mut String, plan: &Plan, paths: &[Path]) -> Result<(), AllocError>
    ensures { OnOk result (string_bytes text.new ≡ string_bytes text.old ++
        figures_text (flat_map (path_trails plan.now) paths.now)) }
{
    for path in paths {
        add_trails(text, plan, path)?;
    }
    Ok(())
}

fn add_all_dots(text: &mut String, plan: &Plan, paths: &[Path]) -> Result<(), AllocError>
    ensures { OnOk result (string_bytes text.new ≡ string_bytes text.old ++
        figures_text (flat_map (path_dots_of plan.now) paths.now)) }
{
    for path in paths {
        svg::add_shapes(text, &path_dots(plan, path))?;
    }
    Ok(())
}

/// Adds a path alone, with its names in the first columns.
#[tactic(auto, unfolding(crate::specs::Drawing::path_alone))]
pub fn add_path_alone(
    alloc: Global,
    text: &mut String,
    plan: &Plan,
    path: &Path,
) -> Result<(), AllocError>
    ensures { OnOk result (string_bytes text.new ≡ string_bytes text.old ++
        figures_text (path_alone plan.now path.now)) }
{
    add_trails(text, plan, path)?;
    svg::add_shapes(text, &path_dots(plan, path))?;
    add_line_name(alloc, text, plan, 0, path)?;
    add_trunk_name(alloc, text, plan, 0, path)
}

// ---- the parts of a drawing

/// Adds the parts of a drawing: the office, the index of the paths, the card of each path, and the
/// trouble cards.
#[tactic(auto, unfolding(crate::specs::Drawing::drawing_parts, crate::specs::Figures::part_text))]
fn add_parts(
    alloc: Global,
    text: &mut String,
    plan: &Plan,
    paths: &[Path],
    cards: &[OwnedCard],
) -> Result<(), AllocError>
    ensures { OnOk result (string_bytes text.new ≡ string_bytes text.old ++
        flat_map part_text (drawing_parts plan.now paths.now cards.now)) }
{
    let first_top = paths_top(paths.len());
    let second_top = cards_top(paths.len());
    add_group(text, 0, 0)?;
    add_office_with(alloc, text, plan, paths)?;
    add_group_end(text)?;
    add_index(alloc, text, plan, paths)?;
    add_path_cards(alloc, text, plan, first_top, paths)?;
    add_trouble_cards(alloc, text, second_top, cards)
}

fn add_index(
    alloc: Global,
    text: &mut String,
    plan: &Plan,
    paths: &[Path],
) -> Result<(), AllocError>
    ensures { OnOk result (string_bytes text.new ≡ string_bytes text.old ++
        flat_map part_text (laid_out THE_INDEX 920 0 (map (entry plan.now) paths.now))) }
{
    for (k, path) in paths.iter().enumerate() {
        add_place(text, INDEX, 920, k)?;
        add_entry(alloc, text, plan, path)?;
        add_group_end(text)?;
    }
    Ok(())
}

fn add_path_cards(
    alloc: Global,
    text: &mut String,
    plan: &Plan,
    top: u128,
    paths: &[Path],
) -> Result<(), AllocError>
    requires { top ≤ 20000000000000000000000 }
    ensures { OnOk result (string_bytes text.new ≡ string_bytes text.old ++ flat_map part_text
        (laid_out THE_PATH_CARDS top 0 (map (path_card plan.now) paths.now))) }
{
    for (k, path) in paths.iter().enumerate() {
        add_place(text, PATH_CARDS, top, k)?;
        add_path_card(alloc, text, plan, path)?;
        add_group_end(text)?;
    }
    Ok(())
}

fn add_trouble_cards(
    alloc: Global,
    text: &mut String,
    top: u128,
    cards: &[OwnedCard],
) -> Result<(), AllocError>
    requires { top ≤ 20000000000000000000000 }
    ensures { OnOk result (string_bytes text.new ≡ string_bytes text.old ++
        flat_map part_text (laid_out THE_CARDS top 0 (map card_face cards.now))) }
{
    for (k, card) in cards.iter().enumerate() {
        add_place(text, CARDS, top, k)?;
        add_card(alloc, text, card)?;
        add_group_end(text)?;
    }
    Ok(())
}
