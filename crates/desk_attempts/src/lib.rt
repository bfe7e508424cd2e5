//! How a desk runs an attempt of `attempts` on shared words. Once it has seized a lock, the
//! attempt goes on at once by a snapshot of the words under it. What it reads there are
//! predictions, each of which an atomic step validates or refutes.
#![tactic(auto)]

pub use in_room::InRoom;
pub use jobs::Attempts;
pub use now::{asked, turn};
pub use on_groups::{Groups, InGroups, OnGroups};
pub use speculation::{Speculation, SpeculationOf};

mod answering;
mod in_room;
mod jobs;
mod now;
mod on_groups;
mod predicting;
mod speculation;
