ghost use Rattle.std.specs.Prelude.{◌≡◌};
ghost use Rattle.xbar_report.specs.declared.report_fault.ReportFault.TheVariants.{Memory};

use std::alloc::{AllocError, AllocFailed};
use thiserror::Error;

/// Why a text wasn't read as a report.
#[derive(Clone, Copy, Debug, PartialEq, Eq, Error)]
pub enum ReportFault {
    /// The first line, counted from 1, that can't follow the lines before it. If the text ends too
    /// early, it is the line after the last.
    #[error("line {number} isn't as a report has it")]
    Line { number: usize },
    /// The index, from 0, of the first record whose turn isn't its index.
    #[error("the record at place {place} hasn't turn {place}")]
    Turns { place: usize },
    /// Memory was refused.
    #[error("memory was refused")]
    Memory,
}

impl From<AllocError> for ReportFault {
    ghost from_gives = { λ _ fault. fault ≡ Memory };

    fn from(_error: AllocError) -> Self {
        ReportFault::Memory
    }
}

impl<T: Drop> From<AllocFailed<T>> for ReportFault {
    ghost from_gives = { λ _ fault. fault ≡ Memory };

    fn from(_error: AllocFailed<T>) -> Self {
        ReportFault::Memory
    }
}
