//! The lines that describe what markers do.

ghost use Rattle.std.specs.Prelude.{◌≡◌, ◌++◌, OnOk, Some, flat_map, string_bytes};
ghost use Rattle.xbar_step_text.specs.Lines.{card_line, card_lines, in_four, step_lines};

use crate::observation::Observation;
use crate::words::add_words;
use std::alloc::AllocError;
use std::fmt;
use xbar_office::{Card, Record};

/// A number, right-aligned in four columns; wider if it needs more.
#[derive(Clone, Copy)]
pub struct InFour(pub u64);

impl fmt::Display for InFour {
    ghost output = { λ number. Some (in_four number.0) };

    #[tactic(auto, unfolding(crate::specs::Lines::in_four))]
    fn fmt<W: fmt::Write>(&self, f: &mut fmt::Formatter<W>) -> fmt::Result {
        let number = self.0;
        if number < 10 {
            write!(f, "   {number}")
        } else if number < 100 {
            write!(f, "  {number}")
        } else if number < 1000 {
            write!(f, " {number}")
        } else {
            write!(f, "{number}")
        }
    }
}

#[tactic(auto, unfolding(crate::specs::Lines::card_line))]
fn add_card(text: &mut String, card: &Card) -> Result<(), AllocError>
    ensures { OnOk result (string_bytes text.new ≡ string_bytes text.old ++ card_line card.now) }
{
    let Card { trial, link } = card;
    writeln!(
        text,
        "                  trouble card: trial {trial}, {link} is faulty"
    )
}

fn add_cards_of(text: &mut String, owner: &Record) -> Result<(), AllocError>
    ensures { OnOk result (string_bytes text.new ≡ string_bytes text.old ++
        flat_map card_line owner.now.reply.cards) }
{
    for card in owner.reply.cards.as_slice() {
        add_card(text, card)?;
    }
    Ok(())
}

fn add_cards(text: &mut String, records: &[Record]) -> Result<(), AllocError>
    ensures { OnOk result (string_bytes text.new ≡ string_bytes text.old ++
        card_lines records.now) }
{
    for record in records {
        add_cards_of(text, record)?;
    }
    Ok(())
}

/// Adds the line of a marker's step and, if it is a turn, the lines of its trouble cards.
/// `records` are those that the step added: one if it is a turn, else none.
#[tactic(auto, unfolding(crate::specs::Lines::step_lines, crate::specs::Lines::marker_line))]
pub fn add_step(
    text: &mut String,
    number: u64,
    marker: u32,
    observed: &Observation,
    records: &[Record],
) -> Result<(), AllocError>
    ensures { OnOk result (string_bytes text.new ≡ string_bytes text.old ++
        step_lines number marker observed.now records.now) }
{
    write!(text, "{}  marker {marker}  ", InFour(number))?;
    add_words(text, observed, records)?;
    text.push_str("\n")?;
    add_cards(text, records)
}
