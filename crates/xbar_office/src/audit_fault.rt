ghost use Rattle.std.specs.Prelude.{◌≡◌};
ghost use Rattle.xbar_office.specs.declared.audit_fault.AuditFault.TheVariants.{Memory};

use std::alloc::AllocError;
use thiserror::Error;

/// Why an audit did not accept a list of records.
#[derive(Clone, Copy, Debug, PartialEq, Eq, Error)]
pub enum AuditFault {
    /// `place` is the first index, counted from 0, whose record does not have the turn of its
    /// index.
    #[error("the record at place {place} hasn't turn {place}")]
    Turns { place: usize },
    /// `turn` is the first turn whose record does not have the reply of the one-marker office.
    #[error("the reply of turn {turn} is another")]
    Reply { turn: u64 },
    /// Memory ran out.
    #[error("memory was refused")]
    Memory,
}

impl From<AllocError> for AuditFault {
    ghost from_gives = { λ _ fault. fault ≡ Memory };

    fn from(_error: AllocError) -> Self {
        AuditFault::Memory
    }
}
