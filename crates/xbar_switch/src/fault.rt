ghost use Rattle.std.specs.Prelude.{Some};
ghost use Rattle.xbar_switch.specs.Fault.{text_of};

use std::error::Error;
use std::fmt;

/// Why a magnet of a switch was refused. The switch is then unchanged.
#[derive(Clone, Copy, Debug, PartialEq, Eq, Hash)]
pub enum SwitchFault {
    /// A hold magnet was operated with no place selected.
    NothingSelected,
    /// A hold magnet was operated on a closed field.
    AlreadyHeld,
    /// A hold magnet was released on an open field.
    NotHeld,
}

impl fmt::Display for SwitchFault {
    ghost output = { λ fault. Some (text_of fault) };

    fn fmt<W: fmt::Write>(&self, f: &mut fmt::Formatter<W>) -> fmt::Result {
        f.write_str(match self {
            SwitchFault::NothingSelected => "no place of the switch is selected",
            SwitchFault::AlreadyHeld => "the field is held already",
            SwitchFault::NotHeld => "the field is not held",
        })
    }
}

impl Error for SwitchFault {}
