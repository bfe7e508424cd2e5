// change: what these jobs are
//! A template for jobs of one's own: a ticket machine that many actors share. It has one word, the
//! number of the next ticket, under one lock. `bin/new_jobs` copies it under another name.
#![tactic(auto)]

pub use jobs::{Decision, Effect, Job};

mod jobs;
pub mod laws;
