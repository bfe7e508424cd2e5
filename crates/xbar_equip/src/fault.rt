use std::error::Error;
use std::fmt;

/// Why a text could not be parsed. If several variants apply, the first of them in this order is
/// returned.
#[derive(Clone, Copy, Debug, PartialEq, Eq)]
pub enum EquipFault {
    /// The text has the wrong number of bytes.
    Length,
    /// A byte is not a digit, or a link's text doesn't begin with `LL`, `JU` or `TL`.
    NotDigit,
    /// The third digit of a line is above 5, or its fourth above 4.
    Range,
}

impl fmt::Display for EquipFault {
    ghost use Rattle.std.specs.Prelude.{Some};
    ghost use Rattle.xbar_equip.specs.Fault.{fault_text};

    ghost output = { λ fault. Some (fault_text fault) };

    fn fmt<W: fmt::Write>(&self, f: &mut fmt::Formatter<W>) -> fmt::Result {
        f.write_str(match self {
            EquipFault::Length => "wrong number of characters",
            EquipFault::NotDigit => "a character that may not stand there",
            EquipFault::Range => "a digit out of its range",
        })
    }
}

impl Error for EquipFault {}
