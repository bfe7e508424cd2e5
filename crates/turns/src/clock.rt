ghost use Rattle.std.specs.Prelude.{◌≡◌};
ghost use Rattle.turns.specs.Clock.{turning as turning_of};

use crate::operation::Operation;

/// What tells a system's turns apart.
#[derive(Clone, Copy, Debug, PartialEq, Eq)]
pub enum Clock {
    /// The turn word counts the turns: each record has the number of its turn.
    Counted,
    /// Proofs alone know the order of the turns: the turn word stays 0, and so is each record's
    /// number.
    Ghost,
}

impl Clock {
    /// The operation on the turn word by which an actor takes its turn.
    pub fn turning(self) -> Operation
        ensures { result ≡ turning_of self }
    {
        match self {
            Clock::Counted => Operation::Add(1),
            Clock::Ghost => Operation::Load,
        }
    }
}
