//! The office with one marker, which does jobs whole: a set of paths, and what each job does to
//! it. It is deliberately simple and slow, since it is the reference for all other offices.
#![tactic(auto)]

pub use aim::Aim;
pub use audit_fault::AuditFault;
pub use auditor::{audit, first_wrong_turn};
pub use cards::Cards;
pub use job::Job;
pub use office::Office;
pub use reply::{Card, End, Record, Reply};
pub use route::leads_inside;
pub use trial::{CallPaths, Choice, TrialEnd, Trials};

mod aim;
mod audit_fault;
mod auditor;
mod cards;
mod complete;
mod dial;
mod job;
pub mod laws;
mod members;
mod office;
mod reply;
mod route;
mod sets;
mod standing;
mod trial;
mod whole;
