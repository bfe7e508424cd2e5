//! Diagnostics of plans.

use crate::quoted::{Bare, Quoted};
use std::fmt;
use xbar_plan::{PlanList, Repeat, TableFault};
use xbar_plan_text::{MalformedItem, PlanRefusal};

/// What is wrong with a plan that was refused. Its sentence begins with the place.
#[derive(Debug, Drop)]
pub struct PlanDiagnostic {
    pub refusal: PlanRefusal,
}

impl fmt::Display for PlanDiagnostic {
    fn fmt<W: fmt::Write>(&self, f: &mut fmt::Formatter<W>) -> fmt::Result {
        match &self.refusal {
            PlanRefusal::NotToml {
                line,
                column,
                error,
            } => {
                let message = error.message();
                write!(f, "line {line}, column {column}: {message}")?;
            }
            PlanRefusal::Version(found) => write!(f, "version: expected 1 or 2, found {found}")?,
            PlanRefusal::KeyMissing(list) => {
                let list = list.key();
                write!(f, "{list}: expected an array of strings, found nothing")?;
            }
            PlanRefusal::NotTexts { list, item, found } => {
                write_place(f, *list, *item)?;
                let expected = match item {
                    None => "an array of strings",
                    Some(_) => "a string",
                };
                write!(f, ": expected {expected}, found {found}")?;
            }
            PlanRefusal::Malformed(item) => write_malformed(f, item)?,
            PlanRefusal::Tables { fault, text } => {
                let (list, item) = fault.place();
                write_place(f, list, item)?;
                write_fault(f, fault, text.as_deref().unwrap_or(b""))?;
            }
            PlanRefusal::Memory => f.write_str("memory ran out")?,
        }
        let fault = self.refusal.fault();
        write!(f, " ({fault})")
    }
}

/// Writes the key of a list, and then the number of an item if one is given, by its index.
fn write_place<W: fmt::Write>(
    f: &mut fmt::Formatter<W>,
    list: PlanList,
    item: Option<usize>,
) -> fmt::Result {
    f.write_str(list.key())?;
    match item {
        Some(item) => {
            let number = item.saturating_add(1);
            write!(f, ", item {number}")
        }
        None => Ok(()),
    }
}

/// Writes which part of an item is malformed, and what is expected there.
fn write_malformed<W: fmt::Write>(
    f: &mut fmt::Formatter<W>,
    malformed: &MalformedItem,
) -> fmt::Result {
    write_place(f, malformed.list, Some(malformed.item))?;
    let text = Quoted(&malformed.text);
    write!(f, " {text}")?;
    if let Some(part) = malformed.part {
        let (number, text) = (
            part.saturating_add(1),
            Quoted(part_of(&malformed.text, part)),
        );
        write!(f, ", part {number} {text}")?;
    }
    let expected = malformed.expected;
    write!(f, ": {expected}")
}

/// The part of an item's text with this index.
fn part_of(text: &[u8], part: usize) -> &[u8] {
    text.split(|byte| *byte == b' ').nth(part).unwrap_or(b"")
}

/// Writes which fault the tables of a plan have. `text` is the text of the item at fault.
fn write_fault<W: fmt::Write>(
    f: &mut fmt::Formatter<W>,
    fault: &TableFault,
    text: &[u8],
) -> fmt::Result {
    let first = Bare(part_of(text, 0));
    match fault {
        TableFault::Malformed { .. } => f.write_str(": expected an item of its list's form"),
        TableFault::TooManyItems { list, count } => write_too_many(f, *list, *count),
        TableFault::PartCount { list, count, .. } => write_part_count(f, *list, *count, text),
        TableFault::GroupTwice(repeat) => write_repeat(f, "name", &first, *repeat),
        TableFault::NumberTwice(repeat) => write_repeat(f, "number", &first, *repeat),
        TableFault::CodeTwice(repeat) => write_repeat(f, "code", &first, *repeat),
        TableFault::PlaceTwice(repeat, place) => write_repeat(f, "place", place, *repeat),
        TableFault::NoRegisterGroup => f.write_str(": expected one register group, found none"),
        TableFault::RegisterGroupTwice(repeat) => write_repeat(f, "register", &"group", *repeat),
        TableFault::PairApart { first, second, .. } => {
            write!(
                f,
                ": {first} and {second} are on two trunk link frames; expected one frame"
            )
        }
        TableFault::UnknownGroup { group, .. } => {
            write!(f, ": no group has the name {}", name_of(text, *group))
        }
        TableFault::RouteToRegisters { group, .. } => {
            write_register_route(f, &name_of(text, *group))
        }
        TableFault::MixedRoute {
            intra,
            outgoing,
            ..
        } => { write_mixed_route(f, &name_of(text, *intra), &name_of(text, *outgoing)) }
        TableFault::Memory => f.write_str(": memory ran out"),
    }
}

/// Writes that a route leads to a group of registers.
fn write_register_route<W: fmt::Write>(f: &mut fmt::Formatter<W>, group: &Bare<'_>) -> fmt::Result {
    write!(
        f,
        ": {group} has registers; expected intra groups or outgoing groups"
    )
}

/// Writes that a route leads to intra groups and to outgoing groups.
fn write_mixed_route<W: fmt::Write>(
    f: &mut fmt::Formatter<W>,
    intra: &Bare<'_>,
    outgoing: &Bare<'_>,
) -> fmt::Result {
    write!(
        f,
        ": {intra} is intra and {outgoing} is outgoing; expected groups of one kind"
    )
}

/// The name of the group with this index in the text of a code.
fn name_of(text: &[u8], group: usize) -> Bare<'_> {
    Bare(part_of(text, group.saturating_add(1)))
}

/// Writes how many items a list has, and how many it may have.
fn write_too_many<W: fmt::Write>(
    f: &mut fmt::Formatter<W>,
    list: PlanList,
    count: usize,
) -> fmt::Result {
    let most = match list {
        PlanList::Groups => 16,
        PlanList::Numbers => 3000,
        PlanList::Codes => 64,
        PlanList::Faults => 100,
    };
    write!(f, ": expected at most {most} items, found {count}")
}

/// Writes how many members, lines or groups an item has, and how many it may have.
fn write_part_count<W: fmt::Write>(
    f: &mut fmt::Formatter<W>,
    list: PlanList,
    count: usize,
    text: &[u8],
) -> fmt::Result {
    let (most, noun) = match list {
        PlanList::Groups => (40, "members"),
        PlanList::Numbers => (10, "lines"),
        PlanList::Codes => (4, "groups"),
        // The items of `faults` have only one part.
        PlanList::Faults => (1, "parts"),
    };
    let text = Quoted(text);
    write!(f, " {text}: expected 1 to {most} {noun}, found {count}")
}

/// Writes what occurs twice, and where it occurs first.
fn write_repeat<W: fmt::Write, T: fmt::Display>(
    f: &mut fmt::Formatter<W>,
    noun: &str,
    value: &T,
    repeat: Repeat,
) -> fmt::Result {
    write!(f, ": duplicate {noun} {value}")?;
    if repeat.earlier == repeat.item {
        f.write_str(" within this item")
    } else {
        let number = repeat.earlier.saturating_add(1);
        write!(f, ", first used in item {number}")
    }
}
