ghost use Rattle.std.specs.Prelude.{◌≡◌};
ghost use Rattle.counted_io.specs.declared.read_fault.ReadFault.TheVariants.{Memory};

use std::alloc::AllocError;
use thiserror::Error;

/// Why a source wasn't read to its end.
#[derive(Clone, Copy, Debug, PartialEq, Eq, Error)]
pub enum ReadFault {
    #[error("memory ran out")]
    Memory,
    /// A read failed, and the failure was counted.
    #[error("a read failed")]
    Device,
    /// Too many reads returned bytes.
    #[error("the input is too long")]
    Long,
}

impl From<AllocError> for ReadFault {
    ghost from_gives = { λ _ fault. fault ≡ Memory };

    fn from(_error: AllocError) -> Self {
        ReadFault::Memory
    }
}
