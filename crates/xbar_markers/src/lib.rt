//! Calls that markers do on threads, and one legal history of them.
#![tactic(auto)]

pub use call::Call;
pub use call_markers::CallMarkers;
pub use call_records::CallRecords;
pub use calling::{Outcome, run_calls};
pub use gate::{Gate, OpenGate};
pub use handing::{HandFault, Handed, Then, hand_over};
pub use opening::open_desks;
pub use running::run_desks;

mod call;
mod call_markers;
mod call_records;
mod calling;
mod completing;
mod counted_gate;
mod dialled_call;
mod dialling;
mod gate;
mod gathering;
mod handing;
mod lists;
mod opening;
mod queues;
mod running;
mod share;
mod stages;
mod task;
mod thread_state;
mod words;
mod worker;
