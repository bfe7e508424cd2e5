//! Checks of the members' trunk places.

ghost use Rattle.std.specs.Prelude.{◌≡◌, ◌++◌, IfOk, OnOk, is_none, map};
ghost use Rattle.std.specs.List.{list_all};
ghost use Rattle.xbar_plan.specs.declared.fault.PlanFault.TheVariants as PlanFault;
ghost use Rattle.xbar_plan.specs.Lawful.{is_on_one_frame as stands_on_one_frame, group_places, all_places, are_places_distinct as are_places_apart, are_pairs_on_one_frame as are_pairs_on_frames};
ghost use Rattle.xbar_plan.specs.Numbered.{place_number as number_of_place};
ghost use Rattle.xbar_plan.specs.TableFault.{IsCheck};
ghost use Rattle.xbar_plan.specs.TableSlices.{tables_of};

use super::distinct::first_repeat;
use crate::group::{Group, Member};
use crate::numbers::place_number;
use crate::table_fault::{Repeat, TableFault};
use crate::table_slices::TableSlices;
use std::alloc::{AllocError, Global};
use xbar_equip::Ten;

/// Appends the places of a group's members.
fn push_places(places: &mut Vec<Ten>, group: &Group) -> Result<(), AllocError>
    ensures { OnOk result (places.new.items ≡ places.old.items ++ group_places group.now) }
{
    for member in group.members() {
        places.push(member.first)?;
        if let Some(second) = member.second {
            places.push(second)?;
        }
    }
    Ok(())
}

/// The places of all members of all groups.
pub fn places_of(alloc: Global, groups: &[Group]) -> Result<Vec<Ten>, AllocError>
    ensures { IfOk result (λ places. places.items ≡ all_places groups.now) }
{
    let mut places = Vec::new(alloc);
    for group in groups {
        push_places(&mut places, group)?;
    }
    Ok(places)
}

fn numbers_of(alloc: Global, places: &[Ten]) -> Result<Vec<u16>, AllocError>
    ensures { IfOk result (λ numbers. numbers.items ≡ map number_of_place places.now) }
{
    places
        .iter()
        .map(|place| place_number(*place))
        .collect(alloc)
}

/// The index of the group whose place has this index among the places of all groups.
fn group_of_place(groups: &[Group], place: usize) -> usize {
    let mut left = place;
    for (item, group) in groups.iter().enumerate() {
        for member in group.members() {
            let count = if member.second.is_some() { 2 } else { 1 };
            if left < count {
                return item;
            }
            left -= count;
        }
    }
    groups.len()
}

/// Checks that no trunk place occurs twice.
pub fn check_places(alloc: Global, tables: &TableSlices) -> Result<(), TableFault>
    ensures { IsCheck (tables_of tables.now) (are_places_apart tables.now.groups.now)
        PlanFault.PlaceTwice result }
{
    let places = places_of(alloc, tables.groups)?;
    // Called only for its contract.
    xbar_equip::laws::places_are_in_range(&places);
    let numbers = numbers_of(alloc, &places)?;
    match first_repeat(alloc, &numbers)? {
        Some(repeat) => {
            let item = group_of_place(tables.groups, repeat.item);
            let earlier = group_of_place(tables.groups, repeat.earlier);
            Err(TableFault::PlaceTwice(Repeat { item, earlier }, places[repeat.item]))
        }
        None => Ok(()),
    }
}

/// The two places of a member, if they are on different trunk link frames.
fn places_apart(member: Member) -> Option<(Ten, Ten)>
    ensures { is_none result ≡ stands_on_one_frame member }
{
    let (first, second) = (member.first, member.second?);
    if second.frame() == first.frame() {
        None
    } else {
        Some((first, second))
    }
}

/// The places of the first member whose places are on different trunk link frames.
fn first_apart(members: &[Member]) -> Option<(Ten, Ten)>
    ensures { is_none result ≡ list_all stands_on_one_frame members.now }
{
    for member in members {
        let apart = places_apart(*member);
        if apart.is_some() {
            return apart;
        }
    }
    None
}

/// Checks that the places of each pair are on one trunk link frame.
pub fn check_pairs(tables: &TableSlices) -> Result<(), TableFault>
    ensures { IsCheck (tables_of tables.now) (are_pairs_on_frames tables.now.groups.now)
        PlanFault.PairApart result }
{
    for (item, group) in tables.groups.iter().enumerate() {
        if let Some((first, second)) = first_apart(group.members()) {
            return Err(TableFault::PairApart {
                item,
                first,
                second,
            });
        }
    }
    Ok(())
}
