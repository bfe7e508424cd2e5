//! Reads the rows of traffic: jobs and steps of markers in a replay, calls in a live office.
//! Reports what is wrong with a row, as far as the row and those before it show it.
#![tactic(auto)]

pub use fault::{Expected, MarkerFault, RowFault, TrafficFault, WrongField};
pub use row::{Mode, Row};
pub use traffic::Traffic;

mod fault;
pub mod laws;
mod numbers;
mod row;
mod traffic;
