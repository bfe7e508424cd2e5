ghost use Rattle.std.specs.Prelude.{◌≡◌, ◌++◌, OnOk, map, string_bytes};
ghost use Rattle.xbar_json.specs.Json.{array};
ghost use Rattle.xbar_json.specs.Plan.{plan_object};
ghost use Rattle.xbar_plan.specs.TableSlices.{tables_of};

use crate::array::add_array;
use crate::json::Json;
use std::alloc::AllocError;
use xbar_plan::{Plan, TableSlices};

impl Json for Plan {
    ghost use Rattle.xbar_json.specs.Plan.{plan_object};

    ghost json = { plan_object };

    fn add_json(&self, text: &mut String) -> Result<(), AllocError> {
        add_tables(text, &self.tables())
    }
}

/// Appends the object of these tables.
#[tactic(auto, unfolding(crate::specs::Plan::plan_object))]
fn add_tables(text: &mut String, tables: &TableSlices) -> Result<(), AllocError>
    ensures { OnOk result (string_bytes text.new ≡ string_bytes text.old ++
        plan_object (tables_of tables.now)) }
{
    add_table(text, r#"{"groups":"#, tables.groups)?;
    add_table(text, r#","numbers":"#, tables.stations)?;
    add_table(text, r#","codes":"#, tables.routes)?;
    add_table(text, r#","faults":"#, tables.faults)?;
    text.push_str("}")?;
    Ok(())
}

/// Appends an array of the items after this text.
fn add_table<T: Json>(text: &mut String, start: &str, items: &[T]) -> Result<(), AllocError>
    ensures { OnOk result (string_bytes text.new ≡ string_bytes text.old ++ start.now ++
        array (map T.json items.now)) }
{
    text.push_str(start)?;
    add_array(text, items)
}
