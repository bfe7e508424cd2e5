//! The text of a plan: a TOML document with an array of strings for each of its lists.
#![tactic(auto)]

pub use found::Found;
pub use plan_text::PlanText;
pub use refusal::{MalformedItem, PlanRefusal};

mod found;
pub mod laws;
mod plan_text;
mod read;
mod refusal;
mod write;
