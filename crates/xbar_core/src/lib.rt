//! An office of many markers as plain data: it makes the moves of `xbar_moves`, one at a time, in
//! the order that its caller chooses.
#![tactic(auto)]

pub use exchange::Exchange;
pub use marker::Marker;
pub use work::Work;
pub use xbar_moves::{AssignFault, Event, Given, Kind, Kinds, MOST_MARKERS};

mod exchange;
pub mod laws;
mod marker;
mod work;
