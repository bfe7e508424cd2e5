//! Has the markers of an office make steps, and describes what they do, step by step: in words, or
//! as JSON objects.
#![tactic(auto)]

pub use detail::Detail;
pub use observer::{Observer, Unobserved};
pub use settling::settle;
pub use story::Story;

mod detail;
pub mod laws;
mod observer;
mod rows;
mod settling;
mod story;
mod walk;
