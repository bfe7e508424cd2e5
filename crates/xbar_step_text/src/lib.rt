//! Tells what a marker's step is: in words, and as a JSON object.
#![tactic(auto)]

pub use assignment::{AssignmentLine, AssignmentObject};
pub use lines::{InFour, add_step};
pub use names::ConnName;
pub use next::{add_next_object, add_next_words};
pub use object::add_object;
pub use observation::{Observation, found_by};
pub use place::{Place, PlaceNumbers};
pub use settling::{settling_line, settling_object};
pub use shown::add_items;
pub use shown_object::add_shown_object;
pub use turn_words::JobWords;
pub use words::add_test;

mod acts;
mod assignment;
pub mod laws;
mod lines;
mod names;
mod next;
mod object;
mod observation;
mod place;
mod place_object;
mod settling;
mod shown;
mod shown_object;
mod turn_words;
mod values;
mod words;
