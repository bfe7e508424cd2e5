ghost use Rattle.std.specs.Prelude.{◌≡◌};
ghost use Rattle.crossbar5_command.specs.Fault.{fault_for};
ghost use Rattle.crossbar5_command.specs.declared.command_fault.CommandFault.TheVariants.{Memory};

use clap::error::ErrorKind;
use std::alloc::AllocError;
use thiserror::Error;

/// Why a command line asks for nothing to be done.
#[derive(Debug, Drop, Error)]
pub enum CommandFault {
    /// The words are refused, or ask for help or the version. The error's `print` writes the text
    /// to its stream, and its `exit_code` is the exit status.
    #[error("{0}")]
    Refused(clap::Error),
    /// Memory ran out.
    #[error("memory ran out")]
    Memory,
}

// Both conversions are written by hand, so that they have contracts.
impl From<clap::Error> for CommandFault {
    ghost from_gives = { λ error fault. fault ≡ fault_for error };

    fn from(error: clap::Error) -> Self {
        match error.kind() {
            ErrorKind::OutOfMemory => CommandFault::Memory,
            _ => CommandFault::Refused(error),
        }
    }
}

impl From<AllocError> for CommandFault {
    ghost from_gives = { λ _ fault. fault ≡ Memory };

    fn from(_error: AllocError) -> Self {
        CommandFault::Memory
    }
}
