//! Checks that tables contain nothing that a plan's text could not express.

ghost use Rattle.std.specs.Prelude.{◌≡◌, IsTrue, nat_lt, not, position};
ghost use Rattle.std.specs.List.{list_all};
ghost use Rattle.xbar_equip.specs.Len.{is_line};
ghost use Rattle.xbar_plan.specs.declared.fault.PlanFault.TheVariants as PlanFault;
ghost use Rattle.xbar_plan.specs.Lawful.{is_between as lies_between, is_name_character as is_letter_or_digit, is_name as is_group_name, has_its_places as has_own_places, is_well_formed_group as is_formed_group, are_well_formed as are_tables_well_formed};
ghost use Rattle.xbar_plan.specs.TableFault.{IsCheck};
ghost use Rattle.xbar_plan.specs.TableSlices.{tables_of};

use super::places::places_of;
use crate::group::Group;
use crate::route::Route;
use crate::station::Station;
use crate::table_fault::{PlanList, TableFault};
use crate::table_slices::TableSlices;
use std::alloc::Global;

/// Whether `n` is from `least` to `most`, both included.
pub fn is_between(least: usize, most: usize, n: usize) -> bool
    ensures { result ≡ lies_between least most n }
{
    least <= n && n <= most
}

/// Whether a byte is a letter `A` to `Z` or a digit.
fn is_name_character(byte: u8) -> bool
    ensures { result ≡ is_letter_or_digit byte }
{
    byte.is_ascii_uppercase() || byte.is_ascii_digit()
}

fn are_name_characters(text: &[u8]) -> bool
    ensures { result ≡ list_all is_letter_or_digit text.now }
{
    text.iter().all(|byte| is_name_character(*byte))
}

/// Whether a text is a group's name: 1 to 8 characters of `A` to `Z` and `0` to `9`.
pub fn is_name(name: &[u8]) -> bool
    ensures { result ≡ is_group_name name.now }
{
    is_between(1, 8, name.len()) && are_name_characters(name)
}

/// Whether each member has the places of its kind: two if intra, else one.
fn has_its_places(group: &Group) -> bool
    ensures { result ≡ has_own_places group.now }
{
    let paired = group.is_intra();
    group
        .members()
        .iter()
        .all(|member| member.second.is_some() == paired)
}

/// Whether the group has a valid name, and its members have the places of their kind.
fn is_well_formed_group(group: &Group) -> bool
    ensures { result ≡ is_formed_group group.now }
{
    is_name(group.name().as_bytes()) && has_its_places(group)
}

/// The index of the first group that is not well formed.
fn first_ill_formed(groups: &[Group]) -> Option<usize>
    ensures { result ≡ position (λ group. not (is_formed_group group)) groups.now }
{
    groups.iter().position(|group| !is_well_formed_group(group))
}

/// The index of the first code that isn't below 1000.
fn first_long_code(routes: &[Route]) -> Option<usize>
    ensures { result ≡ position (λ route. not (nat_lt route.code 1000)) routes.now }
{
    routes.iter().position(|route| route.code() >= 1000)
}

/// States that the directory numbers and the lines are in range. It does nothing else.
fn state_station_ranges(stations: &[Station])
    ensures numbers { IsTrue (list_all (λ station. nat_lt station.number 10000) stations.now) }
    ensures lines { IsTrue (list_all (λ station. list_all is_line station.lines) stations.now) }
{
    for station in stations {
        // Called only for their contracts.
        let _number = station.number().number();
        xbar_equip::laws::lines_are_in_range(station.lines());
    }
}

/// Checks that each group is well formed and all numbers are in range. Places, directory numbers,
/// lines and links are by their types, so of the numbers only the codes are checked.
#[tactic(auto, using(crate::proofs::Failing::none_fails, crate::proofs::Failing::one_fails))]
pub fn check_forms(alloc: Global, tables: &TableSlices) -> Result<(), TableFault>
    ensures { IsCheck (tables_of tables.now) (are_tables_well_formed (tables_of tables.now))
        PlanFault.Malformed result }
{
    let places = places_of(alloc, tables.groups)?;
    // Called only for its contract.
    xbar_equip::laws::places_are_in_range(&places);
    state_station_ranges(tables.stations);
    // Called only for its contract.
    xbar_equip::laws::links_are_in_range(tables.faults);
    if let Some(item) = first_ill_formed(tables.groups) {
        let list = PlanList::Groups;
        return Err(TableFault::Malformed { list, item });
    }
    if let Some(item) = first_long_code(tables.routes) {
        let list = PlanList::Codes;
        return Err(TableFault::Malformed { list, item });
    }
    Ok(())
}
