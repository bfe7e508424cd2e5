//! The texts of a plan's items.

ghost use Rattle.std.specs.Prelude.{◌≡◌, ◌%◌, ◌+◌, ◌++◌, ◌∷◌, IfOk, OnOk, flat_map, string_bytes};
ghost use Rattle.xbar_equip.specs.Digits.{digits};
ghost use Rattle.xbar_equip.specs.Len.{line_text};
ghost use Rattle.xbar_equip.specs.Link.{link_text as text_of_link};
ghost use Rattle.xbar_plan_text.specs.Written.{kind_text, member_text, name_at, group_text as text_of_group, station_text as text_of_station, route_text as text_of_route};

use std::alloc::{AllocError, Global};
use xbar_equip::{Len, Link};
use xbar_plan::{Group, GroupKind, Member, Route, Station};

fn kind_name(kind: GroupKind) -> &'static str
    ensures { result.now ≡ kind_text kind }
{
    match kind {
        GroupKind::Register => "register",
        GroupKind::Intra => "intra",
        GroupKind::Outgoing => "outgoing",
    }
}

/// Appends a space and the text of a member.
fn add_member(text: &mut String, member: Member) -> Result<(), AllocError>
    ensures { OnOk result (string_bytes text.new ≡ string_bytes text.old ++
        32 ∷ member_text member) }
{
    let first = member.first;
    write!(text, " {first}")?;
    if let Some(second) = member.second {
        write!(text, "-{second}")?;
    }
    Ok(())
}

/// Appends each member, after a space.
fn add_members(text: &mut String, members: &[Member]) -> Result<(), AllocError>
    ensures { OnOk result (string_bytes text.new ≡ string_bytes text.old ++
        flat_map (λ member. 32 ∷ member_text member) members.now) }
{
    for member in members {
        add_member(text, *member)?;
    }
    Ok(())
}

/// The text of a group: `NAME KIND MEMBER MEMBER ..`.
#[tactic(auto, using(crate::proofs::Joined::joined))]
pub fn group_text(alloc: Global, group: &Group) -> Result<String, AllocError>
    ensures { IfOk result (λ text. string_bytes text ≡ text_of_group group.now) }
{
    let name = group.name();
    let kind = kind_name(group.kind());
    let mut text = format!(in alloc; "{name} {kind}")?;
    add_members(&mut text, group.members())?;
    Ok(text)
}

/// Appends each line, after a space.
fn add_lines(text: &mut String, lines: &[Len]) -> Result<(), AllocError>
    ensures { OnOk result (string_bytes text.new ≡ string_bytes text.old ++
        flat_map (λ line. 32 ∷ line_text line) lines.now) }
{
    for line in lines {
        write!(text, " {line}")?;
    }
    Ok(())
}

/// The text of a directory number: `DDDD LEN LEN ..`.
#[tactic(auto, using(crate::proofs::Joined::joined))]
pub fn station_text(alloc: Global, station: &Station) -> Result<String, AllocError>
    ensures { IfOk result (λ text. string_bytes text ≡ text_of_station station.now) }
{
    let number = station.number();
    let mut text = format!(in alloc; "{number}")?;
    add_lines(&mut text, station.lines())?;
    Ok(text)
}

/// The last decimal digit of a number.
fn last_digit(number: u16) -> char
    ensures { result ≡ 48 + number % 10 }
{
    char::from(b'0' + (number % 10) as u8)
}

/// The three digits of a code.
fn code_text(alloc: Global, code: u16) -> Result<String, AllocError>
    ensures { IfOk result (λ text. string_bytes text ≡ digits 3 code) }
{
    let mut text = String::new(alloc);
    text.push(last_digit(code / 100))?;
    text.push(last_digit(code / 10))?;
    text.push(last_digit(code))?;
    Ok(text)
}

/// The name of the group with this number, or no text if there is no group.
fn name_of(groups: &[Group], number: u8) -> &str
    ensures { result.now ≡ name_at groups.now number }
{
    match groups.get(number as usize) {
        Some(group) => group.name(),
        None => "",
    }
}

/// Appends the name of each group, after a space.
fn add_names(text: &mut String, groups: &[Group], numbers: &[u8]) -> Result<(), AllocError>
    ensures { OnOk result (string_bytes text.new ≡ string_bytes text.old ++
        flat_map (λ number. 32 ∷ name_at groups.now number) numbers.now) }
{
    for number in numbers {
        let name = name_of(groups, *number);
        write!(text, " {name}")?;
    }
    Ok(())
}

/// The text of a code: `CCC NAME NAME ..`.
#[tactic(auto, using(crate::proofs::Joined::joined))]
pub fn route_text(alloc: Global, groups: &[Group], route: &Route) -> Result<String, AllocError>
    ensures { IfOk result (λ text. string_bytes text ≡ text_of_route groups.now route.now) }
{
    let mut text = code_text(alloc, route.code())?;
    add_names(&mut text, groups, route.groups())?;
    Ok(text)
}

pub fn link_text(alloc: Global, link: Link) -> Result<String, AllocError>
    ensures { IfOk result (λ text. string_bytes text ≡ text_of_link link) }
{
    format!(in alloc; "{link}")
}
