//! A bank that many actors share, as an example of a system of jobs with a setting: accounts,
//! which all open with one balance. They stand in shards of four, and each shard has a lock of its
//! own.
#![tactic(auto)]

pub use decision::Decision;
pub use effect::Effect;
pub use job::{Job, Reply};
pub use opening::{Opening, SHARD_SIZE};

mod decision;
mod effect;
mod job;
pub mod laws;
mod opening;
