//! Checks of the numbers of groups, directory numbers, codes and faults.

ghost use Rattle.std.specs.Prelude.{◌≡◌, length, not, position};
ghost use Rattle.xbar_plan.specs.declared.fault.PlanFault.TheVariants as PlanFault;
ghost use Rattle.xbar_plan.specs.Lawful.{is_between as lies_between, are_groups_within_limits as are_within_limits_of_groups, are_stations_within_limits as are_within_limits_of_stations, are_routes_within_limits as are_within_limits_of_routes, are_within_limits as are_tables_within_limits};
ghost use Rattle.xbar_plan.specs.TableFault.{IsCheck};
ghost use Rattle.xbar_plan.specs.TableSlices.{tables_of};

use super::forms::is_between;
use crate::group::Group;
use crate::route::Route;
use crate::station::Station;
use crate::table_fault::{PlanList, TableFault};
use crate::table_slices::TableSlices;

/// The index of the first group that does not have 1 to 40 members.
fn first_miscounted_group(groups: &[Group]) -> Option<usize>
    ensures { result ≡
        position (λ group. not (lies_between 1 40 (length group.members))) groups.now }
{
    groups
        .iter()
        .position(|group| !is_between(1, 40, group.members().len()))
}

#[tactic(auto, using(crate::proofs::Failing::none_fails, crate::proofs::Failing::one_fails))]
fn check_groups(tables: &TableSlices) -> Result<(), TableFault>
    ensures { IsCheck (tables_of tables.now) (are_within_limits_of_groups tables.now.groups.now)
        PlanFault.Limit result }
{
    let (list, groups) = (PlanList::Groups, tables.groups);
    let count = groups.len();
    if count > 16 {
        return Err(TableFault::TooManyItems { list, count });
    }
    match first_miscounted_group(groups) {
        None => Ok(()),
        Some(item) => {
            let count = groups[item].members().len();
            Err(TableFault::PartCount { list, item, count })
        }
    }
}

/// The index of the first directory number that does not have 1 to 10 lines.
fn first_miscounted_station(stations: &[Station]) -> Option<usize>
    ensures { result ≡
        position (λ station. not (lies_between 1 10 (length station.lines))) stations.now }
{
    stations
        .iter()
        .position(|station| !is_between(1, 10, station.lines().len()))
}

#[tactic(auto, using(crate::proofs::Failing::none_fails, crate::proofs::Failing::one_fails))]
fn check_stations(tables: &TableSlices) -> Result<(), TableFault>
    ensures { IsCheck (tables_of tables.now)
        (are_within_limits_of_stations tables.now.stations.now) PlanFault.Limit result }
{
    let (list, stations) = (PlanList::Numbers, tables.stations);
    let count = stations.len();
    if count > 3000 {
        return Err(TableFault::TooManyItems { list, count });
    }
    match first_miscounted_station(stations) {
        None => Ok(()),
        Some(item) => {
            let count = stations[item].lines().len();
            Err(TableFault::PartCount { list, item, count })
        }
    }
}

/// The index of the first code that does not have 1 to 4 groups.
fn first_miscounted_route(routes: &[Route]) -> Option<usize>
    ensures { result ≡
        position (λ route. not (lies_between 1 4 (length route.groups))) routes.now }
{
    routes
        .iter()
        .position(|route| !is_between(1, 4, route.groups().len()))
}

#[tactic(auto, using(crate::proofs::Failing::none_fails, crate::proofs::Failing::one_fails))]
fn check_routes(tables: &TableSlices) -> Result<(), TableFault>
    ensures { IsCheck (tables_of tables.now) (are_within_limits_of_routes tables.now.routes.now)
        PlanFault.Limit result }
{
    let (list, routes) = (PlanList::Codes, tables.routes);
    let count = routes.len();
    if count > 64 {
        return Err(TableFault::TooManyItems { list, count });
    }
    match first_miscounted_route(routes) {
        None => Ok(()),
        Some(item) => {
            let count = routes[item].groups().len();
            Err(TableFault::PartCount { list, item, count })
        }
    }
}

/// Checks the limits of the four lists.
pub fn check_limits(tables: &TableSlices) -> Result<(), TableFault>
    ensures { IsCheck (tables_of tables.now) (are_tables_within_limits (tables_of tables.now))
        PlanFault.Limit result }
{
    check_groups(tables)?;
    check_stations(tables)?;
    check_routes(tables)?;
    let (list, count) = (PlanList::Faults, tables.faults.len());
    if count > 100 {
        return Err(TableFault::TooManyItems { list, count });
    }
    Ok(())
}
