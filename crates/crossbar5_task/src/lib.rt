//! What can be asked of the program `crossbar5` and its library: the tasks of the engine, with
//! their numbers.
#![tactic(auto)]

pub use task::{DrawForm, LookForm, TASKS, Task, WalkForm};

mod task;
