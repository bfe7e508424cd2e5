//! A crossbar switch, as one word of ten fields.
//!
//! A select magnet prepares a place, then a hold magnet closes the crosspoint of its field at that
//! place. The crosspoint stays closed while the hold magnet is held, even after the select magnet
//! is released.
#![tactic(auto)]

pub use fault::SwitchFault;
pub use shape::Shape;
pub use switch::Switch;
pub use word::{close_bits, field, open_mask};

mod fault;
pub mod laws;
mod shape;
mod switch;
mod word;
