ghost use Rattle.std.specs.Prelude.{◌≡◌};
ghost use Rattle.crossbar5.specs.Faults.{of_read, of_write};
ghost use Rattle.crossbar5.specs.declared.engine_fault.EngineFault.TheVariants.{Memory};

use counted_io::{ReadFault, WriteFault};
use std::alloc::{AllocError, AllocFailed};
use thiserror::Error;

/// Why a run didn't write its whole text. `Display` writes the name of the variant.
#[derive(Clone, Copy, Debug, PartialEq, Eq, Error)]
pub enum EngineFault {
    #[error("Memory")]
    Memory,
    /// A read, a write or a flush failed, and the failure was counted.
    #[error("Device")]
    Device,
    /// The input is too long: too many reads returned bytes.
    #[error("Long")]
    Long,
}

impl From<AllocError> for EngineFault {
    ghost from_gives = { λ _ fault. fault ≡ Memory };

    fn from(_error: AllocError) -> Self {
        EngineFault::Memory
    }
}

impl<T: Drop> From<AllocFailed<T>> for EngineFault {
    ghost from_gives = { λ _ fault. fault ≡ Memory };

    fn from(_failed: AllocFailed<T>) -> Self {
        EngineFault::Memory
    }
}

impl From<ReadFault> for EngineFault {
    ghost from_gives = { λ why fault. fault ≡ of_read why };

    fn from(why: ReadFault) -> Self {
        match why {
            ReadFault::Memory => EngineFault::Memory,
            ReadFault::Device => EngineFault::Device,
            ReadFault::Long => EngineFault::Long,
        }
    }
}

impl From<WriteFault> for EngineFault {
    ghost from_gives = { λ why fault. fault ≡ of_write why };

    fn from(why: WriteFault) -> Self {
        match why {
            WriteFault::Device => EngineFault::Device,
        }
    }
}
