//! A No. 5 Crossbar office turn by turn, as one page in HTML.
#![tactic(auto)]

pub use page::office_page;

mod head;
pub mod laws;
mod links;
mod page;
mod picture;
mod script;
mod section;
mod sentences;
mod stays;
mod words;
