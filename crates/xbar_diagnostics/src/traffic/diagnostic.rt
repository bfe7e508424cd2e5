ghost use Rattle.std.specs.Prelude.{◌≡◌};

use crate::quoted::Quoted;
use std::fmt;
use xbar_traffic::{Expected, RowFault, TrafficFault};

/// Why a row is wrong.
#[derive(Clone, Copy, Debug)]
pub enum TrafficReason {
    /// This is expected, or refused in these words.
    Expected(Expected),
    /// The fault wasn't found again in the row.
    Unknown,
    /// An earlier row has the number of the job or call too. Row and line are counted from 1.
    NumberTwice { row: u64, line: u64 },
}

impl fmt::Display for TrafficReason {
    fn fmt<W: fmt::Write>(&self, f: &mut fmt::Formatter<W>) -> fmt::Result {
        match self {
            TrafficReason::Expected(Expected::Words(words)) => f.write_str(words),
            TrafficReason::Expected(Expected::NumberTo(most)) => {
                write!(
                    f,
                    "expected a number from 0 to {most} without leading zeros"
                )
            }
            TrafficReason::Expected(Expected::FiveFields(count)) => {
                write!(f, "expected 5 fields, found {count}")
            }
            TrafficReason::Unknown => f.write_str("this fault was not found again"),
            TrafficReason::NumberTwice { row, line } => {
                write!(f, "duplicate number, first used on line {line} (row {row})")
            }
        }
    }
}

/// What is wrong with refused traffic. Its sentence begins with the row.
#[derive(Debug, Drop)]
pub struct TrafficDiagnostic {
    pub fault: TrafficFault,
    /// The line on which the row begins, counted from 1. None if the row wasn't found again.
    pub line: Option<u64>,
    /// The number of the wrong field, counted from 1, and its text. None if the row is wrong as a
    /// whole.
    pub field: Option<(usize, Vec<u8>)>,
    pub reason: TrafficReason,
}

impl TrafficDiagnostic {
    /// The diagnostic of traffic that was refused for this fault, without a place in the row.
    pub fn without_place(fault: TrafficFault) -> Self
        ensures fault { result.fault ≡ fault }
    {
        TrafficDiagnostic {
            fault,
            line: None,
            field: None,
            reason: TrafficReason::Unknown,
        }
    }
}

impl fmt::Display for TrafficDiagnostic {
    fn fmt<W: fmt::Write>(&self, f: &mut fmt::Formatter<W>) -> fmt::Result {
        let TrafficFault { row, fault } = self.fault;
        let reason = self.reason;
        match self.line {
            Some(line) => write!(f, "traffic line {line} (row {row})")?,
            None => write!(f, "traffic row {row}")?,
        }
        if let Some((number, text)) = &self.field {
            let text = Quoted(text);
            write!(f, ", field {number} {text}")?;
        }
        write!(f, ": {reason} ({fault}")?;
        if let RowFault::Marker(why) = fault {
            write!(f, ", {why}")?;
        }
        f.write_str(")")
    }
}
