//! The plan of a No. 5 Crossbar office: trunk groups, directory numbers, routes, and links that
//! are out of order.
#![tactic(auto)]

pub use fault::PlanFault;
pub use group::{Group, GroupKind, Member, MemberPlace};
pub use lawful::is_name;
pub use plan::Plan;
pub use route::Route;
pub use station::Station;
pub use table_fault::{PlanList, Repeat, TableFault};
pub use table_slices::TableSlices;

mod directory;
mod example;
mod fault;
mod group;
mod lawful;
pub mod laws;
mod numbers;
mod plan;
mod route;
mod station;
mod table_fault;
mod table_slices;
