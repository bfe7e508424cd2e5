//! A No. 5 Crossbar office as a drawing in SVG: its paths, their switches, and the trouble cards.
#![tactic(auto)]

pub use card_face::add_card;
pub use drawing::{add_count, add_path_alone, office_drawing, style};
pub use office::add_office;
pub use owned_card::{OwnedCard, cards_of};
pub use shapes::add_shapes;
pub use switches::add_path_card;

mod card_face;
mod drawing;
mod index;
pub mod laws;
mod names;
mod office;
mod owned_card;
mod path_in_office;
mod placing;
mod shapes;
mod switches;
