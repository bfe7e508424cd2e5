//! An attempt at a job as a state machine, for any jobs of `turns` that are given as code
//! (`Scripts`). After `begin`, `next` returns the attempt's next step; the caller makes that step,
//! and `apply` takes the answer, which says what the step found. So it goes on until `is_done`;
//! `outcome` returns the reply. Of jobs on words (`OnWords`), each step is an operation on its word
//! (`step_word`, `step_operation`, `step_answer`). `step` and `run` make steps by themselves, on
//! words that nobody else changes meanwhile.
#![tactic(auto)]

pub use answering::{apply, apply_past_turn, to_acquire, walk_by_steps, walk_on};
pub use attempt::{Attempt, AttemptOf};
pub use next_step::{is_done, next, next_effect, next_past_turn, next_without_lock, outcome};
pub use on_words::{OnWords, step_answer, step_operation, step_word};
pub use running::{run, step};
pub use scripts::Scripts;
pub use seen::Seen;
pub use starting::{begin, begin_next, restart};

mod answering;
mod attempt;
pub mod laws;
mod next_step;
mod on_words;
mod readings;
mod running;
mod scripts;
mod seen;
mod starting;
