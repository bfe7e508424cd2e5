//! Gives cards to the records that they belong to.

ghost use Rattle.std.specs.Prelude.{◌≡◌, ◌≤◌, length, map};
ghost use Rattle.xbar_report.specs.Dealt.{belongs as belongs_to, dealt_records, left_of, own_count_of};

use crate::line::TroubleLine;
use xbar_office::{Cards, Record};

/// Gives each record its cards, which are in the order of the records. Returns the number of cards
/// that are left: all from the first that no record takes.
pub fn deal(records: &mut [Record], cards: &[TroubleLine]) -> usize
    ensures records { records.new ≡ dealt_records records.old cards.now }
    ensures left { result ≡ length (left_of records.old cards.now) }
{
    let mut rest = cards;
    for record in records.iter_mut() {
        let (own, others) = rest.split_at(own_count(record, rest));
        record.reply.cards = cards_of(own);
        rest = others;
    }
    rest.len()
}

/// The number of the first cards that belong to the record, at most two.
fn own_count(owner: &Record, cards: &[TroubleLine]) -> usize
    ensures value { result ≡ own_count_of owner.now cards.now }
    ensures most { result ≤ 2 }
    ensures within { result ≤ length cards.now }
{
    match cards {
        [first, second, ..] if belongs(owner, first) && belongs(owner, second) => 2,
        [first, ..] if belongs(owner, first) => 1,
        _ => 0,
    }
}

fn belongs(owner: &Record, card: &TroubleLine) -> bool
    ensures { result ≡ belongs_to owner.now card.now }
{
    card.turn == owner.turn && card.job_no == owner.job_no
}

fn cards_of(own: &[TroubleLine]) -> Cards
    requires { length own.now ≤ 2 }
    ensures { result ≡ map (λ t. t.card) own.now }
{
    let mut cards = Cards::new();
    for trouble in own {
        cards.push(trouble.card);
    }
    cards
}
