//! Checks of the names and kinds of groups.

ghost use Rattle.std.specs.Prelude.{◌≡◌, bytes_eq, position};
ghost use Rattle.xbar_plan.specs.declared.fault.PlanFault.TheVariants as PlanFault;
ghost use Rattle.xbar_plan.specs.Lawful.{are_names_distinct as are_names_apart, has_one_register_group as has_one_group_of_registers};
ghost use Rattle.xbar_plan.specs.TableFault.{IsCheck};
ghost use Rattle.xbar_plan.specs.TableSlices.{tables_of};

use crate::group::Group;
use crate::table_fault::{Repeat, TableFault};
use crate::table_slices::TableSlices;

/// The index of the first group with this name.
fn first_with_name(groups: &[Group], name: &str) -> Option<usize>
    ensures { result ≡ position (λ group. bytes_eq group.name name.now) groups.now }
{
    groups.iter().position(|group| group.name() == name)
}

/// Checks that no two groups have the same name.
pub fn check_names(tables: &TableSlices) -> Result<(), TableFault>
    ensures { IsCheck (tables_of tables.now) (are_names_apart tables.now.groups.now)
        PlanFault.GroupTwice result }
{
    let groups = tables.groups;
    for item in 0..groups.len() {
        if let Some(earlier) = first_with_name(&groups[..item], groups[item].name()) {
            return Err(TableFault::GroupTwice(Repeat { item, earlier }));
        }
    }
    Ok(())
}

fn has_one_register_group(groups: &[Group]) -> bool
    ensures { result ≡ has_one_group_of_registers groups.now }
{
    groups.iter().filter(|group| group.is_register()).count() == 1
}

/// The first two register groups, if there are two.
fn first_two_register_groups(groups: &[Group]) -> Option<Repeat> {
    let earlier = groups.iter().position(|group| group.is_register())?;
    let mut others = groups.iter().skip(earlier + 1);
    let between = others.position(|group| group.is_register())?;
    let item = earlier + 1 + between;
    Some(Repeat { item, earlier })
}

/// Checks that there is exactly one register group.
pub fn check_registers(tables: &TableSlices) -> Result<(), TableFault>
    ensures { IsCheck (tables_of tables.now) (has_one_group_of_registers tables.now.groups.now)
        PlanFault.RegisterGroups result }
{
    if has_one_register_group(tables.groups) {
        return Ok(());
    }
    Err(match first_two_register_groups(tables.groups) {
        Some(groups) => TableFault::RegisterGroupTwice(groups),
        None => TableFault::NoRegisterGroup,
    })
}
