//! Reads the items of `groups`.

ghost use Rattle.std.specs.Prelude.{◌≡◌, ◌∷◌, map, string_bytes};
ghost use Rattle.xbar_plan.specs.declared.group.GroupKind.TheVariants as GroupKind;
ghost use Rattle.xbar_plan.specs.declared.table_fault.PlanList.TheVariants as PlanList;
ghost use Rattle.xbar_plan_text.specs.Texts.{read_all, pair_of, member_of as member_of_text, kind_of, name_of, group_of_parts, group_of};
ghost use Rattle.xbar_plan_text.specs.Refusal.{IsListRead, IsReadAs};

use super::item_error::ItemError;
use super::text::{read_place, split_parts};
use crate::refusal::PlanRefusal;
use std::alloc::Global;
use std::str;
use xbar_plan::{Group, GroupKind, Member, PlanList, is_name};

/// What is expected of a group.
const EXPECTED_GROUP: &str = "expected a name, a kind and members";

/// Parses the two places of an intra member, with a hyphen between them.
fn read_pair(text: &[u8]) -> Option<Member>
    ensures { result ≡ pair_of text.now }
{
    if text.len() != 7 || text[3] != b'-' {
        return None;
    }
    let first = read_place(&text[..3])?;
    let second = read_place(&text[4..])?;
    Some(Member {
        first,
        second: Some(second),
    })
}

/// Parses the only place of a register or an outgoing trunk.
fn read_single(text: &[u8]) -> Option<Member>
    ensures { result ≡ member_of_text GroupKind.Register text.now }
{
    let first = read_place(text)?;
    Some(Member {
        first,
        second: None,
    })
}

/// Parses a member of a group of this kind.
fn read_member(kind: GroupKind, text: &[u8]) -> Option<Member>
    ensures { result ≡ member_of_text kind text.now }
{
    match kind {
        GroupKind::Intra => read_pair(text),
        GroupKind::Register | GroupKind::Outgoing => read_single(text),
    }
}

/// What is expected of a member of a group of this kind.
fn expected_member(kind: GroupKind) -> &'static str {
    match kind {
        GroupKind::Intra => "expected a pair of places, such as 600-601",
        GroupKind::Register | GroupKind::Outgoing => "expected three digits",
    }
}

/// Parses each part as a member of a group of this kind.
fn read_members(alloc: Global, kind: GroupKind, parts: &[&[u8]]) -> Result<Vec<Member>, ItemError>
    ensures { IsReadAs (λ members. members.items)
        (read_all (λ part. member_of_text kind part.now) parts.now) result }
{
    let mut members = Vec::with_capacity(alloc, parts.len())?;
    for part in parts {
        let Some(member) = read_member(kind, part) else {
            // The name and the kind come before the members.
            return Err(ItemError::Part(members.len().saturating_add(2), expected_member(kind)));
        };
        members.extend_from_slice(&[member])?;
    }
    Ok(members)
}

/// Parses the kind of a group: `register`, `intra` or `outgoing`.
fn read_kind(text: &[u8]) -> Option<GroupKind>
    ensures { result ≡ kind_of text.now }
{
    if text == b"register".as_slice() {
        Some(GroupKind::Register)
    } else if text == b"intra".as_slice() {
        Some(GroupKind::Intra)
    } else if text == b"outgoing".as_slice() {
        Some(GroupKind::Outgoing)
    } else {
        None
    }
}

/// Copies a group's name into a string. The name is the part with this index.
pub fn read_name(alloc: Global, text: &[u8], part: usize) -> Result<String, ItemError>
    ensures { IsReadAs string_bytes (name_of text.now) result }
{
    if !is_name(text) {
        return Err(ItemError::Part(
            part,
            "expected a name of 1 to 8 characters from A to Z and 0 to 9",
        ));
    }
    let Ok(name) = str::from_utf8(text) else {
        unreachable!();
    };
    Ok(String::from_str(alloc, name)?)
}

/// Reads a group from its name, its kind and its members.
fn read_named(
    alloc: Global,
    name: &[u8],
    kind: &[u8],
    members: &[&[u8]],
) -> Result<Group, ItemError>
    ensures { IsReadAs (λ group. group) (group_of_parts
        (name.now ∷ kind.now ∷ map (λ part. part.now) members.now)) result }
{
    let name = read_name(alloc, name, 0)?;
    let Some(kind) = read_kind(kind) else {
        return Err(ItemError::Part(1, "expected register, intra or outgoing"));
    };
    let members = read_members(alloc, kind, members)?;
    Ok(Group::new(name, kind, members))
}

/// Reads a group from the parts of its text.
fn read_group_parts(alloc: Global, parts: &[&[u8]]) -> Result<Group, ItemError>
    ensures { IsReadAs (λ group. group) (group_of_parts (map (λ part. part.now) parts.now)) result }
{
    let Some((name, others)) = parts.split_first() else {
        return Err(ItemError::Whole(EXPECTED_GROUP));
    };
    match others.split_first() {
        Some((kind, members)) => read_named(alloc, name, kind, members),
        None => Err(ItemError::Whole(EXPECTED_GROUP)),
    }
}

/// Reads an item of `groups`.
fn read_group(alloc: Global, text: &[u8]) -> Result<Group, ItemError>
    ensures { IsReadAs (λ group. group) (group_of text.now) result }
{
    let parts = split_parts(alloc, text)?;
    read_group_parts(alloc, &parts)
}

pub fn read_groups(alloc: Global, texts: &[&[u8]]) -> Result<Vec<Group>, PlanRefusal>
    ensures { IsListRead PlanList.Groups group_of (λ groups. groups.items)
        (map (λ text. text.now) texts.now) result }
{
    let mut groups = Vec::with_capacity(alloc, texts.len())?;
    for (item, text) in texts.iter().enumerate() {
        match read_group(alloc, text) {
            Ok(group) => groups.push(group)?,
            Err(error) => {
                let list = PlanList::Groups;
                return Err(error.refusal(alloc, list, item, text, EXPECTED_GROUP));
            }
        }
    }
    Ok(groups)
}
