//! The checks that every plan's tables pass, in the order in which faults are looked for.

mod distinct;
mod forms;
mod groups;
mod limits;
mod places;
mod routes;

ghost use Rattle.std.specs.Prelude.{◌≡◌};
ghost use Rattle.xbar_plan.specs.TableFault.{IsChecked};
ghost use Rattle.xbar_plan.specs.TableSlices.{tables_of};

use crate::table_fault::TableFault;
use crate::table_slices::TableSlices;
pub use forms::{is_between, is_name};
use std::alloc::Global;

/// Checks the tables, and returns their first fault, if they have one.
#[tactic(auto, unfolding(crate::specs::Lawful::fault_in))]
pub fn check(alloc: Global, tables: &TableSlices) -> Result<(), TableFault>
    ensures { IsChecked (tables_of tables.now) result }
{
    forms::check_forms(alloc, tables)?;
    limits::check_limits(tables)?;
    groups::check_names(tables)?;
    groups::check_registers(tables)?;
    places::check_places(alloc, tables)?;
    places::check_pairs(tables)?;
    distinct::check_numbers(alloc, tables)?;
    distinct::check_codes(alloc, tables)?;
    routes::check_groups(tables)?;
    routes::check_kinds(tables)
}
