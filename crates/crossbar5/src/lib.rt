//! The engine of the program `crossbar5`. From a plan and traffic it makes the records of a
//! replay, a description of each step, or a look at the office. From a plan and a text of records
//! it makes an audit, or a drawing of the office.
//!
//! Runs answer with a text and a status, and with a diagnostic if something is refused.
#![tactic(auto)]

pub use counted_io::{Counted, Sink, Source};
pub use crossbar5_task::{DrawForm, LookForm, Task, WalkForm};
pub use engine::do_task;
pub use engine_fault::EngineFault;
pub use input::{Input, PlanSource, read_input};
pub use kinds::{kinds_for, kinds_of};
pub use run::run_replay;
pub use traffic_refusal::refused;
pub use written::{Diagnostic, Status, Written};
pub use xbar_report::report;

mod audit;
mod draw;
mod engine;
mod engine_fault;
mod finding;
mod input;
mod kinds;
pub mod laws;
mod looks;
mod rows;
mod run;
mod traffic_refusal;
mod walk;
mod written;
