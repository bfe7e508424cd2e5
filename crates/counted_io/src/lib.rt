//! Readers and writers that count their failures, and functions that read or write everything.
#![tactic(auto)]

pub use counted::Counted;
pub use device::{Sink, Source};
pub use read_fault::ReadFault;
pub use whole::{read_all, write_all};
pub use write_fault::WriteFault;

mod counted;
mod device;
mod read_fault;
mod whole;
mod write_fault;
