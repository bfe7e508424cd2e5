//! Desks of the office, each on its own thread.

mod driving;
mod ending;
mod many_desks;
mod two_desks;
