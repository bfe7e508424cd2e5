ghost use Rattle.std.specs.Prelude.{◌≡◌};

use std::marker::Model;
use xbar_equip::{DirNo, Len};

/// A directory number and its lines, in the order in which they are hunted.
#[derive(Debug, Drop)]
pub struct Station {
    number: DirNo,
    lines: Vec<Len>,
}

impl Model for Station {
    ghost use Rattle.xbar_plan.specs.Tables.{Station as TheStation};

    ghost Value = { TheStation };

    ghost view = { λ a. record { number = a.number; lines = a.lines.items } };
}

impl Station {
    /// A directory number with these lines, in the order in which they are hunted.
    pub fn new(number: DirNo, lines: Vec<Len>) -> Self
        ensures { result ≡ record { number = number; lines = lines.items } }
    {
        Station { number, lines }
    }

    /// The directory number: the four digits that callers dial after the code.
    pub fn number(&self) -> DirNo
        ensures { result ≡ self.now.number }
    {
        self.number
    }

    /// The lines, 1 to 10 in a lawful plan, in the order in which they are hunted.
    pub fn lines(&self) -> &[Len]
        ensures { result.now ≡ self.now.lines }
    {
        self.lines.as_slice()
    }
}
