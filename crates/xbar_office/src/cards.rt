ghost use Rattle.std.specs.Prelude.{◌≡◌, ◌<◌, ◌↔◌, IsTrue, List, [], ◌∷◌, ◌++◌, length};

use crate::reply::Card;
use arrayvec::ArrayVec;
use std::marker::Model;

/// The trouble cards of one job, at most two. They are stored in place.
#[derive(Debug, Drop)]
pub struct Cards {
    cards: ArrayVec<Card, 2>,
}

impl Model for Cards {
    ghost use Rattle.std.specs.Prelude.{List};
    ghost use Rattle.xbar_office.specs.declared.reply.Card.{Card};

    ghost Value = { List Card };

    ghost view = { λ a. a.cards.items };
}

impl PartialEq for Cards {
    ghost use Rattle.xbar_office.specs.Cards.{cards_eq, cards-partial_equivalence};

    ghost eq = { cards_eq };

    ghost laws = { cards-partial_equivalence };

    fn eq(&self, other: &Self) -> bool {
        self.cards == other.cards
    }
}

impl Eq for Cards {
    ghost use Rattle.xbar_office.specs.Cards.{cards-equivalence};

    ghost laws = { cards-equivalence };
}

impl Cards {
    pub fn new() -> Self
        ensures { result ≡ [] }
    {
        Cards {
            cards: ArrayVec::new(),
        }
    }

    /// A list of one card.
    pub fn one(card: Card) -> Self
        ensures { result ≡ card ∷ [] }
    {
        let mut cards = Cards::new();
        cards.push(card);
        cards
    }

    pub fn push(&mut self, card: Card)
        requires { length self.old < 2 }
        ensures { self.new ≡ self.old ++ card ∷ [] }
    {
        self.cards.push(card);
    }

    /// A copy, which allocates nothing.
    pub fn copy(&self) -> Self
        ensures { result ≡ self.now }
    {
        let all = self.cards.as_slice();
        let mut cards = Cards::new();
        for card in all {
            cards.push(*card);
        }
        cards
    }

    /// The same as `==`, with a contract.
    #[tactic(auto, using(crate::specs::Cards::cards_exact))]
    pub fn is_same(&self, other: &Self) -> bool
        ensures { IsTrue result ↔ (self.now ≡ other.now) }
    {
        self == other
    }

    pub fn is_empty(&self) -> bool
        ensures { IsTrue result ↔ (self.now ≡ []) }
    {
        self.cards.is_empty()
    }

    /// The cards, in the order of their trials.
    pub fn as_slice(&self) -> &[Card]
        ensures { result.now ≡ self.now }
    {
        self.cards.as_slice()
    }
}
