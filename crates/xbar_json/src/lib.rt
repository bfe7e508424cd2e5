//! The office's things as JSON (RFC 8259): connectors, jobs, records, a plan's tables.
#![tactic(auto)]

pub use array::{add_array, add_listed};
pub use job_object::JobObject;
pub use json::Json;

mod array;
mod end_members;
mod group;
mod job_object;
mod json;
mod member;
mod path_value;
mod plan;
mod record;
mod route;
mod station;
mod values;
