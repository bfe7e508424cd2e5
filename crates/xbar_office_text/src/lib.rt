//! The text of a No. 5 Crossbar office for a terminal: its paths, the links that are out of order,
//! and the trouble cards.
#![tactic(auto)]

pub use card_rows::digit_names;
pub use ends::{PathMember, ends_at_register, path_end};
pub use path::add_path_lines;
pub use text::office_text;

mod card_rows;
mod cards;
mod ends;
mod faults;
mod glance;
pub mod laws;
mod path;
mod picture;
mod text;
