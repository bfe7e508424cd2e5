//! An office of many markers and the moves of its markers, as definitions, with the laws of every
//! office that moves lead to. The code is that of the laws, and of the types that moves name.
#![tactic(auto)]

pub use event::{Event, Given};
pub use kinds::{AssignFault, Kind, Kinds, MOST_MARKERS};

mod event;
mod kinds;
pub mod laws;
