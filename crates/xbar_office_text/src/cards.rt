//! The trouble cards of jobs, drawn as punched cards with one corner cut.

ghost use Rattle.std.specs.Prelude.{◌≡◌, ◌++◌, OnOk, flat_map, string_bytes};
ghost use Rattle.xbar_office_text.specs.Cards.{card_text, cards_of, job_row, title_row, trial_row};

use crate::card_rows::{SIDE, add_link_rows, add_row};
use std::alloc::{AllocError, Global};
use xbar_office::{Card, Record};

/// The upper edge of a card, below an empty line.
const UPPER_EDGE: &str = "\n   .---------------------------------------------.\n";

const LOWER_EDGE: &str = "'------------------------------------------------'\n";

/// Adds the cards of all jobs, in the order of the records.
pub fn add_cards(alloc: Global, text: &mut String, records: &[Record]) -> Result<(), AllocError>
    ensures { OnOk result (string_bytes text.new ≡ string_bytes text.old ++
        flat_map cards_of records.now) }
{
    for record in records {
        add_cards_of(alloc, text, record)?;
    }
    Ok(())
}

#[tactic(auto, unfolding(crate::specs::Cards::cards_of))]
fn add_cards_of(alloc: Global, text: &mut String, owner: &Record) -> Result<(), AllocError>
    ensures { OnOk result (string_bytes text.new ≡ string_bytes text.old ++ cards_of owner.now) }
{
    for card in owner.reply.cards.as_slice() {
        add_card(alloc, text, owner, card)?;
    }
    Ok(())
}

#[tactic(auto, unfolding(crate::specs::Cards::card_text))]
fn add_card(alloc: Global, text: &mut String, owner: &Record, card: &Card) -> Result<(), AllocError>
    ensures { OnOk result (string_bytes text.new ≡ string_bytes text.old ++
        card_text owner.now card.now) }
{
    text.push_str(UPPER_EDGE)?;
    add_title_row(alloc, text, card)?;
    add_job_row(alloc, text, owner)?;
    add_trial_row(alloc, text, owner, card)?;
    add_link_rows(alloc, text, card.link)?;
    text.push_str(LOWER_EDGE)?;
    Ok(())
}

#[tactic(auto, unfolding(crate::specs::Cards::title_row))]
fn add_title_row(alloc: Global, text: &mut String, card: &Card) -> Result<(), AllocError>
    ensures { OnOk result (string_bytes text.new ≡ string_bytes text.old ++ title_row card.now) }
{
    let content = format!(in alloc; "TROUBLE CARD: {} is faulty", card.link)?;
    add_row(text, "  /  ", content.as_str())?;
    Ok(())
}

#[tactic(auto, unfolding(crate::specs::Cards::job_row))]
fn add_job_row(alloc: Global, text: &mut String, owner: &Record) -> Result<(), AllocError>
    ensures { OnOk result (string_bytes text.new ≡ string_bytes text.old ++ job_row owner.now) }
{
    let content = format!(in alloc; "turn {}, job {}", owner.turn, owner.job_no)?;
    add_row(text, " /   ", content.as_str())?;
    Ok(())
}

#[tactic(auto, unfolding(crate::specs::Cards::trial_row))]
fn add_trial_row(
    alloc: Global,
    text: &mut String,
    owner: &Record,
    card: &Card,
) -> Result<(), AllocError>
    ensures { OnOk result (string_bytes text.new ≡ string_bytes text.old ++
        trial_row owner.now card.now) }
{
    let content = format!(in alloc; "marker {}, trial {}", owner.marker, card.trial)?;
    add_row(text, SIDE, content.as_str())?;
    Ok(())
}
