//! The rows of a trouble card, and the link that is punched in it.

ghost use Rattle.std.specs.Prelude.{◌≡◌, ◌++◌, OnOk, replicate, string_bytes};
ghost use Rattle.xbar_office_text.specs.CardRows.{digit_row, filled, first_name, kind_row, link_rows, mark as mark_of, row, second_name, ten_places};

use std::alloc::{AllocError, Global};
use xbar_equip::{Link, LinkKind};

/// The left edge of a row below the cut corner.
pub const SIDE: &str = "|    ";

/// The digits above the places.
const DIGITS: &str = "                   0 1 2 3 4 5 6 7 8 9";

fn add_blanks(text: &mut String, count: usize) -> Result<(), AllocError>
    ensures { OnOk result (string_bytes text.new ≡ string_bytes text.old ++ replicate count 32) }
{
    for _ in 0..count {
        text.push_str(" ")?;
    }
    Ok(())
}

/// Adds a text, filled up with blanks to this many places.
#[tactic(auto, unfolding(crate::specs::CardRows::filled))]
fn add_filled(text: &mut String, places: usize, content: &str) -> Result<(), AllocError>
    ensures { OnOk result (string_bytes text.new ≡ string_bytes text.old ++
        filled places content.now) }
{
    text.push_str(content)?;
    add_blanks(text, places.saturating_sub(content.len()))?;
    Ok(())
}

/// Adds a row of a card: its left edge, a text with blanks after it, and the right edge.
#[tactic(auto, unfolding(crate::specs::CardRows::row))]
pub fn add_row(text: &mut String, edge: &str, content: &str) -> Result<(), AllocError>
    ensures { OnOk result (string_bytes text.new ≡ string_bytes text.old ++
        row edge.now content.now) }
{
    text.push_str(edge)?;
    add_filled(text, 44, content)?;
    text.push_str("|\n")?;
    Ok(())
}

/// How a place of a card is written, punched or not.
fn mark(punched: bool) -> &'static str
    ensures { result.now ≡ mark_of punched }
{
    if punched { "#" } else { "." }
}

/// Adds ten places, of which that of the digit is punched.
#[tactic(auto, unfolding(crate::specs::CardRows::ten_places))]
fn add_ten_places(text: &mut String, digit: u8) -> Result<(), AllocError>
    ensures { OnOk result (string_bytes text.new ≡ string_bytes text.old ++ ten_places digit) }
{
    for place in 0..10 {
        text.push_str(" ")?;
        text.push_str(mark(place == digit))?;
    }
    Ok(())
}

#[tactic(auto, unfolding(crate::specs::CardRows::digit_row))]
fn add_digit_row(alloc: Global, text: &mut String, name: &str, digit: u8) -> Result<(), AllocError>
    ensures { OnOk result (string_bytes text.new ≡ string_bytes text.old ++
        digit_row name.now digit) }
{
    let mut content = String::new(alloc);
    add_filled(&mut content, 18, name)?;
    add_ten_places(&mut content, digit)?;
    add_row(text, SIDE, content.as_str())?;
    Ok(())
}

/// Adds the row of the three kinds of link, of which one is punched.
#[tactic(auto, unfolding(crate::specs::CardRows::kind_row))]
fn add_kind_row(alloc: Global, text: &mut String, kind: LinkKind) -> Result<(), AllocError>
    ensures { OnOk result (string_bytes text.new ≡ string_bytes text.old ++ kind_row kind) }
{
    let line_link = mark(kind == LinkKind::LineLink);
    let junctor = mark(kind == LinkKind::Junctor);
    let trunk_link = mark(kind == LinkKind::TrunkLink);
    let content = format!(in alloc;
        "{line_link} line link   {junctor} junctor   {trunk_link} trunk link"
    )?;
    add_row(text, SIDE, content.as_str())?;
    Ok(())
}

/// The names of the first two digits of a link of this kind.
pub fn digit_names(kind: LinkKind) -> (&'static str, &'static str)
    ensures first { result.0.now ≡ first_name kind }
    ensures second { result.1.now ≡ second_name kind }
{
    match kind {
        LinkKind::LineLink => ("line link frame", "line switch"),
        LinkKind::Junctor => ("line link frame", "trunk link frame"),
        LinkKind::TrunkLink => ("trunk link frame", "trunk switch"),
    }
}

/// Adds a link as it is punched in a card: its kind, and a row for each of its digits.
#[tactic(auto, unfolding(crate::specs::CardRows::link_rows))]
pub fn add_link_rows(alloc: Global, text: &mut String, link: Link) -> Result<(), AllocError>
    ensures { OnOk result (string_bytes text.new ≡ string_bytes text.old ++ link_rows link) }
{
    let kind = link.kind();
    let (first, second) = digit_names(kind);
    add_kind_row(alloc, text, kind)?;
    add_row(text, SIDE, DIGITS)?;
    add_digit_row(alloc, text, first, link.frame())?;
    add_digit_row(alloc, text, second, link.at())?;
    add_digit_row(alloc, text, "channel", link.channel())?;
    Ok(())
}
