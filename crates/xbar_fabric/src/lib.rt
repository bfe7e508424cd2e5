//! The office on words that threads share. Each marker has a desk, which one thread owns.
#![tactic(auto)]

pub use desk::Desk;
pub use desks::Watch;
pub use fabric::Fabric;
pub use meeting::meet;
pub use note::Note;
pub use shutting::{ShutAllFault, ShutFault, shut, shut_all};
pub use xbar_jobs::Answer;
pub use xbar_moves::{AssignFault, Event, Given, Kind, Kinds};

mod advancing;
mod desk;
mod fabric;
pub mod laws;
mod meeting;
mod note;
mod office;
mod shutting;
