//! Live calls on threads: from a plan and traffic to the text of one legal history of these calls.
#![tactic(auto)]

pub use gates::open_gates;
pub use live::{do_live, run_live};

mod calls_text;
mod gates;
mod live;
