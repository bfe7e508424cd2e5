//! The law of jobs over shared words: jobs that many actors do at once act one at a time.
//!
//! A job reads and changes words that locks protect. Its actor requests a lock, seizes it, tests
//! words, decides, takes its turn, makes its effects and frees its locks, and each of these steps
//! is one atomic operation on one word. The law: in whatever order the actors make their steps,
//! each job acts as if it were done whole at its turn. So the jobs are linearizable, and the turn
//! is the linearization point.
//!
//! `specs/System.antt` says what a system of jobs has to be, and [`laws`] what holds of it then.
#![tactic(auto)]

pub use act::Act;
pub use answer::Answer;
pub use clock::Clock;
pub use judgement::Judgement;
pub use lock_sharing::LockSharing;
pub use operation::Operation;
pub use phase::Phase;
pub use reading::Reading;
pub use wanted::Wanted;

mod act;
mod answer;
mod clock;
mod judgement;
pub mod laws;
mod lock_sharing;
pub mod lock_word;
mod operation;
mod phase;
mod reading;
mod wanted;
