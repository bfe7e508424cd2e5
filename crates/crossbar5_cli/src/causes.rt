//! The endings and faults for errors of the system.

ghost use Rattle.std.specs.Prelude.{◌≡◌};
ghost use Rattle.std.specs.IoError.{error_kind};
ghost use Rattle.crossbar5_cli.specs.Causes.{opening_fault, words_ending};

use crate::ended::Ending;
use crossbar5::EngineFault;
use std::io;
use std::io::ErrorKind;

/// How a run ends if the words of the command line can't be read.
pub fn ending_without_words(error: &io::Error) -> Ending
    ensures { result ≡ words_ending (error_kind error.now) }
{
    match error.kind() {
        ErrorKind::OutOfMemory => Ending::Failed(EngineFault::Memory),
        _ => Ending::NotText,
    }
}

/// The fault if the plan's file can't be opened.
pub fn fault_of_opening(error: &io::Error) -> EngineFault
    ensures { result ≡ opening_fault (error_kind error.now) }
{
    match error.kind() {
        ErrorKind::OutOfMemory => EngineFault::Memory,
        _ => EngineFault::Device,
    }
}
