//! A job as single steps of a marker on the office's words. A `Program` makes them on plain words
//! (`step`, `run`); or its caller makes each step that it shows, and passes it the answer (`take`).
#![tactic(auto)]

pub use effect::{Effect, OfficeEffect};
pub use offices::{HELD, OfficeAttempt, Offices, READINGS};
pub use program::{Program, Step};
pub use turns::{Answer, Judgement, Operation};

mod completing;
mod decision;
mod dialling;
mod effect;
pub mod laws;
mod offices;
mod party;
mod program;
mod releasing;
mod seen;
mod sides;
mod tracing;
mod trials;
mod trunks;
mod walk;
