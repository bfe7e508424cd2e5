ghost use Rattle.std.specs.Prelude.{◌≡◌, ◌++◌, IfOk, OnOk, flat_map};
ghost use Rattle.xbar_office_drawing.specs.Drawing.{all_cards as all_cards_of, cards_in};

use std::alloc::{AllocError, Global};
use xbar_office::{Card, Record};

/// A trouble card, with the turn, job and marker of its record.
#[derive(Clone, Copy, Debug, PartialEq, Eq)]
pub struct OwnedCard {
    pub turn: u64,
    pub job_no: u32,
    pub marker: u32,
    pub card: Card,
}

/// The cards of all jobs, in the order of the records and of their trials.
pub fn all_cards(alloc: Global, records: &[Record]) -> Result<Vec<OwnedCard>, AllocError>
    ensures { IfOk result (λ cards. cards.items ≡ all_cards_of records.now) }
{
    let mut cards = Vec::new(alloc);
    for record in records {
        add_cards_in(&mut cards, record)?;
    }
    Ok(cards)
}

/// The cards of a job, in the order of its trials.
pub fn cards_of(alloc: Global, owner: &Record) -> Result<Vec<OwnedCard>, AllocError>
    ensures { IfOk result (λ cards. cards.items ≡ cards_in owner.now) }
{
    let mut cards = Vec::new(alloc);
    add_cards_in(&mut cards, owner)?;
    Ok(cards)
}

fn add_cards_in(cards: &mut Vec<OwnedCard>, owner: &Record) -> Result<(), AllocError>
    ensures { OnOk result (cards.new.items ≡ cards.old.items ++ cards_in owner.now) }
{
    for card in owner.reply.cards.as_slice() {
        cards.push(OwnedCard {
            turn: owner.turn,
            job_no: owner.job_no,
            marker: owner.marker,
            card: *card,
        })?;
    }
    Ok(())
}
