//! The program `crossbar5` except for its `main`: it does what the words of its command line ask
//! for, from standard input to standard output. Runs end with an exit status; errors go to
//! standard error, as a line and a sentence.
#![tactic(auto)]

mod asked;
mod causes;
mod ended;
mod help;
mod host;
mod one_line;
mod printing;
mod progress;
mod sentence;
mod work;

pub use asked::{do_as_asked, plan_text, run_words};
pub use ended::{Ended, Ending, Exit};
pub use help::Stream;
pub use host::{System, run};
pub use printing::{finish, print_fault, print_sentence, print_text};
pub use sentence::Sentence;
pub use work::{CheckedWork, Response};
