//! Checks of the groups that codes lead to.

ghost use Rattle.std.specs.Prelude.{◌≡◌, ◌||◌, is_none, nat_lt, not, position};
ghost use Rattle.std.specs.List.{list_all};
ghost use Rattle.xbar_plan.specs.Group.{is_intra, is_outgoing};
ghost use Rattle.xbar_plan.specs.declared.fault.PlanFault.TheVariants as PlanFault;
ghost use Rattle.xbar_plan.specs.Lawful.{is_group, are_groups_known as are_known_groups, do_routes_lead_to_trunks as do_codes_lead_to_trunks};
ghost use Rattle.xbar_plan.specs.TableFault.{IsCheck};
ghost use Rattle.xbar_plan.specs.TableSlices.{tables_of};

use crate::group::Group;
use crate::route::Route;
use crate::table_fault::TableFault;
use crate::table_slices::TableSlices;

/// The index of the first group of the route that doesn't exist, if there are `count` groups.
fn first_unknown(count: usize, route: &Route) -> Option<usize>
    ensures { result ≡ position (λ group. not (nat_lt group count)) route.now.groups }
{
    route
        .groups()
        .iter()
        .position(|group| *group as usize >= count)
}

/// Checks that each group of each route exists.
#[tactic(auto, using(crate::proofs::Failing::none_fails, crate::proofs::Failing::one_fails))]
pub fn check_groups(tables: &TableSlices) -> Result<(), TableFault>
    ensures { IsCheck (tables_of tables.now)
        (are_known_groups tables.now.groups.now tables.now.routes.now)
        PlanFault.UnknownGroup result }
{
    for (item, route) in tables.routes.iter().enumerate() {
        if let Some(group) = first_unknown(tables.groups.len(), route) {
            return Err(TableFault::UnknownGroup { item, group });
        }
    }
    Ok(())
}

/// Whether the group with this number exists and is intra.
fn is_intra_group(groups: &[Group], number: u8) -> bool
    ensures { result ≡ is_group is_intra groups.now number }
{
    groups
        .get(number as usize)
        .is_some_and(|group| group.is_intra())
}

/// Whether the group with this number exists and is outgoing.
fn is_outgoing_group(groups: &[Group], number: u8) -> bool
    ensures { result ≡ is_group is_outgoing groups.now number }
{
    groups
        .get(number as usize)
        .is_some_and(|group| group.is_outgoing())
}

/// The index of the first group that isn't intra.
fn first_not_intra(groups: &[Group], numbers: &[u8]) -> Option<usize>
    ensures { result ≡
        position (λ number. not (is_group is_intra groups.now number)) numbers.now }
{
    numbers
        .iter()
        .position(|number| !is_intra_group(groups, *number))
}

/// The index of the first group that isn't outgoing.
fn first_not_outgoing(groups: &[Group], numbers: &[u8]) -> Option<usize>
    ensures { result ≡
        position (λ number. not (is_group is_outgoing groups.now number)) numbers.now }
{
    numbers
        .iter()
        .position(|number| !is_outgoing_group(groups, *number))
}

/// The index of the first group with registers.
fn first_with_registers(groups: &[Group], numbers: &[u8]) -> Option<usize> {
    numbers.iter().position(|number| {
        groups
            .get(*number as usize)
            .is_some_and(|group| group.is_register())
    })
}

/// The first group that isn't intra and the first that isn't outgoing, by their indexes, if the
/// groups of the route are neither all intra nor all outgoing.
#[tactic(auto, using(crate::proofs::Failing::none_fails, crate::proofs::Failing::one_fails))]
fn first_mixed(groups: &[Group], numbers: &[u8]) -> Option<(usize, usize)>
    ensures { is_none result ≡ (list_all (is_group is_intra groups.now) numbers.now
        || list_all (is_group is_outgoing groups.now) numbers.now) }
{
    let not_intra = first_not_intra(groups, numbers)?;
    let not_outgoing = first_not_outgoing(groups, numbers)?;
    Some((not_intra, not_outgoing))
}

/// Checks that the groups of each route are all intra or all outgoing.
pub fn check_kinds(tables: &TableSlices) -> Result<(), TableFault>
    ensures { IsCheck (tables_of tables.now)
        (do_codes_lead_to_trunks tables.now.groups.now tables.now.routes.now)
        PlanFault.MixedRoute result }
{
    let groups = tables.groups;
    for (item, route) in tables.routes.iter().enumerate() {
        let numbers = route.groups();
        if let Some((not_intra, not_outgoing)) = first_mixed(groups, numbers) {
            return Err(match first_with_registers(groups, numbers) {
                Some(group) => TableFault::RouteToRegisters { item, group },
                None => TableFault::MixedRoute {
                    item,
                    intra: not_outgoing,
                    outgoing: not_intra,
                },
            });
        }
    }
    Ok(())
}
