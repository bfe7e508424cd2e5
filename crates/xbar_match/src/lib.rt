//! What a marker computes from words that it has read: the channel test, traces and counts.
//!
//! Nothing here allocates or fails. On words that show a set of paths, the results are those of
//! the set. Each contract also states the result for any other words.
#![tactic(auto)]

pub use channels::{idle_links, idle_trunk_links, match_channel};
pub use counts::{count_closed, count_paths};
pub use fields::{find_line, find_number, line_place_of, place_of};
pub use traces::{trace, trace_back};
pub use words::{effects_of, shape_at};

mod channels;
mod counts;
mod fields;
pub mod laws;
mod traces;
mod words;
