//! The member at each trunk place.

ghost use Rattle.std.specs.Prelude.{◌≡◌, ◌≤◌, if◌then◌else◌, ℕ, [], Some, None, IfOk, length, slice_get};
ghost use Rattle.xbar_equip.specs.Ten.{TrunkPlace, IsTrunkPlace, place_eq};
ghost use Rattle.xbar_plan.specs.Group.{TrunkGroup};
ghost use Rattle.xbar_plan.specs.Tables.{member_place};
ghost use Rattle.xbar_plan.specs.Numbered.{place_number as number_of_place};
ghost use Rattle.xbar_plan.specs.Directory.{member_here, first_member, ArePlaced};

use crate::group::{Group, Member, MemberPlace};
use crate::numbers::place_number;
use std::alloc::{AllocError, Global};
use xbar_equip::Ten;

/// Enters a member at a place, unless one is entered there already.
fn with_place(
    mut members: Vec<Option<MemberPlace>>,
    place: Ten,
    found: MemberPlace,
) -> Vec<Option<MemberPlace>>
    requires { length members.items ≡ 1000 }
    ensures { ArePlaced members.items
        (λ other. if place_eq place other then Some found else None) result.items }
{
    let number = usize::from(place_number(place));
    if members[number].is_some() {
        return members;
    }
    members[number] = Some(found);
    members
}

/// Enters a member at each of its places, unless one is entered there already.
fn with_member(
    members: Vec<Option<MemberPlace>>,
    group: u8,
    index: u8,
    member: Member,
) -> Vec<Option<MemberPlace>>
    requires { length members.items ≡ 1000 }
    ensures { ArePlaced members.items (member_here group index member) result.items }
{
    let calling = MemberPlace {
        group,
        index,
        other: member.second,
    };
    let members = with_place(members, member.first, calling);
    let Some(second) = member.second else {
        return members;
    };
    let called = MemberPlace {
        group,
        index,
        other: Some(member.first),
    };
    with_place(members, second, called)
}

/// Enters the members of a group in order.
fn with_members(
    mut members: Vec<Option<MemberPlace>>,
    group: u8,
    own: &[Member],
) -> Vec<Option<MemberPlace>>
    requires size { length members.items ≡ 1000 }
    requires few { length own.now ≤ 40 }
    ensures { ArePlaced members.items (first_member group own.now) result.items }
{
    for index in 0..own.len() {
        members = with_member(members, group, index as u8, own[index]);
    }
    members
}

/// For each place, by its number, the first member there.
pub fn placed_members(
    alloc: Global,
    groups: &[Group],
) -> Result<Vec<Option<MemberPlace>>, AllocError>
    requires few { length groups.now ≤ 16 }
    requires members { (number : ℕ) (group : TrunkGroup)
        → slice_get groups.now number ≡ Some group →
        length group.members ≤ 40 }
    ensures { IfOk result (λ members. (place : TrunkPlace) → IsTrunkPlace place →
        slice_get members.items (number_of_place place) ≡ Some (member_place
        (record {
          groups = groups.now;
          stations = [];
          routes = [];
          faults = [];
        }) place)) }
{
    let mut members = vec![in alloc; None; 1000]?;
    for number in 0..groups.len() {
        let own = groups[number].members();
        members = with_members(members, number as u8, own);
    }
    Ok(members)
}
