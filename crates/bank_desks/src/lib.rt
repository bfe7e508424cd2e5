//! The bank of `bank` as jobs that desks do, on words that threads share.
#![tactic(auto)]

pub use jobs::{BankJobs, BankRoom, BankScripts};

mod jobs;
pub mod shutting;
mod walks;
