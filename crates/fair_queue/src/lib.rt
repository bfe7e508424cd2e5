//! A bounded queue between threads that loses no item and gives none twice.
#![tactic(auto)]

pub use inlet::Inlet;
pub use item::Item;
pub use opening::bounded;
pub use outlet::Outlet;
pub use ticket::Ticket;

mod inlet;
mod item;
pub mod laws;
mod opening;
mod outlet;
mod rule;
mod ticket;
