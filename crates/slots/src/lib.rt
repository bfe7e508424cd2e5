//! An allocator of sixty-four slots that many actors share, as an example of a system of jobs.
//!
//! The slots are in two banks of 32, and each bank has a word of busy bits under a lock of its
//! own. A job takes the lowest free slot, takes one of each bank, or frees a slot.
#![tactic(auto)]

pub use decision::Decision;
pub use effect::Effect;
pub use job::Job;
pub use taken::Taken;
pub use up_to_two::UpToTwo;

pub mod bank;
mod decision;
mod effect;
mod job;
pub mod laws;
mod taken;
mod up_to_two;
