//! An office of many markers as it stands between two steps: as one JSON object, and in words.
#![tactic(auto)]

pub use look::{look_json, look_words};

mod connectors;
mod job_lines;
mod job_members;
mod job_paths;
pub mod laws;
mod look;
mod markers;
mod shown;
mod under_way;
mod values;
