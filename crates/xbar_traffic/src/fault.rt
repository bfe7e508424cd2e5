//! What is wrong with traffic, and in which row and field.

ghost use Rattle.std.specs.Prelude.{◌≡◌, IfOk, string_bytes};
ghost use Rattle.xbar_traffic.specs.Fault.{fault_line};

use std::alloc::{AllocError, Global};
use std::fmt;

/// Why a marker can't do what a row asks of it.
#[derive(Clone, Copy, Debug, PartialEq, Eq)]
pub enum MarkerFault {
    /// The office has no marker with this number.
    NoMarker,
    /// The marker isn't idle when the row is reached.
    NotIdle,
    /// The marker does no jobs of this kind.
    WrongKind,
}

impl fmt::Display for MarkerFault {
    ghost use Rattle.std.specs.Prelude.{Some};
    ghost use Rattle.xbar_traffic.specs.Fault.{marker_code};

    ghost output = { λ fault. Some (marker_code fault) };

    fn fmt<W: fmt::Write>(&self, f: &mut fmt::Formatter<W>) -> fmt::Result {
        f.write_str(match self {
            MarkerFault::NoMarker => "C1",
            MarkerFault::NotIdle => "C2",
            MarkerFault::WrongKind => "C3",
        })
    }
}

/// What is wrong with a row. If a row has several faults, the first in the order of the traffic
/// format is reported, which isn't the order of the variants.
#[derive(Clone, Copy, Debug, PartialEq, Eq)]
pub enum RowFault {
    /// The row doesn't have exactly five fields.
    Unreadable,
    /// The first field isn't J, S or C, or the kind of job isn't D, C or R.
    UnknownKind,
    /// Another field doesn't have its form, or its number is out of range.
    Malformed,
    /// An earlier row has the number of the job or the call too.
    NumberTwice,
    /// The marker can't do what the row asks.
    Marker(MarkerFault),
    /// The row belongs to the other mode.
    OtherMode,
}

impl fmt::Display for RowFault {
    ghost use Rattle.std.specs.Prelude.{Some};
    ghost use Rattle.xbar_traffic.specs.Fault.{fault_code};

    ghost output = { λ fault. Some (fault_code fault) };

    fn fmt<W: fmt::Write>(&self, f: &mut fmt::Formatter<W>) -> fmt::Result {
        f.write_str(match self {
            RowFault::Unreadable => "T1",
            RowFault::UnknownKind => "T2",
            RowFault::Malformed => "T3",
            RowFault::NumberTwice => "T4",
            RowFault::Marker(_) => "T5",
            RowFault::OtherMode => "T6",
        })
    }
}

/// Why traffic is refused: the first row with a fault, and its fault.
#[derive(Clone, Copy, Debug, PartialEq, Eq)]
pub struct TrafficFault {
    /// The number of the row, counted from 1.
    pub row: u64,
    pub fault: RowFault,
}

impl TrafficFault {
    /// The fault line, with its line feed.
    pub fn text(self, alloc: Global) -> Result<String, AllocError>
        ensures { IfOk result (λ text. string_bytes text ≡ fault_line self) }
    {
        let TrafficFault { row, fault } = self;
        match fault {
            RowFault::Marker(why) => format!(in alloc; "FAULT,{fault},{row},{why}\n"),
            _ => format!(in alloc; "FAULT,{fault},{row}\n"),
        }
    }
}

/// What is expected of a field, or of the fields of a row.
#[derive(Clone, Copy, Debug, PartialEq, Eq)]
pub enum Expected {
    /// It is said in these words.
    Words(&'static str),
    /// A number from 0 to this one.
    NumberTo(u32),
    /// Five fields rather than this many.
    FiveFields(usize),
}

/// Why a record is no row: its fault, and the field that is wrong.
#[derive(Clone, Copy, Debug, PartialEq, Eq)]
pub struct WrongField {
    pub fault: RowFault,
    /// The index of the first field with this fault, counted from 0. It is past the last field if
    /// the row is wrong as a whole.
    pub field: usize,
    pub expected: Expected,
}

impl WrongField {
    /// The field with this index has this fault. What is expected is said in words.
    pub(crate) fn new(fault: RowFault, field: usize, words: &'static str) -> Self
        ensures { result.fault ≡ fault }
    {
        let expected = Expected::Words(words);
        WrongField {
            fault,
            field,
            expected,
        }
    }
}
