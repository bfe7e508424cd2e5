//! Workers: desks that do jobs to their ends, alone or on threads at once, each with a log of all
//! records that it has reported. For jobs of any kind.
#![tactic(auto)]

pub use back_off::{BackOff, Pausing};
pub use doing_all::do_all;
pub use driving::{do_after, finish, persist};
pub use on_threads::{Routine, at_once};
pub use shift::{Shift, last_desk, put_desk};
pub use shutting::{NotShut, are_idle, idle_desks, shut_if_idle};

mod back_off;
mod doing_all;
mod driving;
mod lends;
mod on_threads;
mod shift;
mod shutting;
