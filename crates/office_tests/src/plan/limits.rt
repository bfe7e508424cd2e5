//! Plans of the largest size, and plans with one item more.

use crate::fixtures::read_plan;
use std::alloc::{AllocError, Global};
use std::process::Abort;
use test_tools::{check, check_eq};
use xbar_equip::{DirNo, Len};
use xbar_plan::{Plan, PlanFault};
use xbar_plan_text::PlanText;

/// The numbers of groups, of members of group G1, of numbers, of codes and of faults in a plan.
type Sizes = [u32; 5];

const LARGEST: Sizes = [16, 40, 3000, 64, 100];

const LIMIT: Option<PlanFault> = Some(PlanFault::Limit);

const SIZES: &[(&str, Sizes, Option<PlanFault>)] = &[
    ("the largest", LARGEST, None),
    ("a group more", [17, 40, 3000, 64, 100], LIMIT),
    ("a member more", [16, 41, 3000, 64, 100], LIMIT),
    ("a number more", [16, 40, 3001, 64, 100], LIMIT),
    ("a code more", [16, 40, 3000, 65, 100], LIMIT),
    ("a fault more", [16, 40, 3000, 64, 101], LIMIT),
];

/// Adds a list of `count` items, each its number in `digits` digits and then `behind`.
fn add_list(
    text: &mut String,
    key: &str,
    count: u32,
    digits: usize,
    behind: &str,
) -> Result<(), AllocError> {
    write!(text, "{key} = [")?;
    for number in 0..count {
        write!(text, "\"{number:0digits$} {behind}\",")?;
    }
    writeln!(text, "]")?;
    Ok(())
}

/// Adds a register group at 999, group G1 at 901 and from 001 on, and groups of one member.
fn add_groups(text: &mut String, groups: u32, members: u32) -> Result<(), AllocError> {
    text.push_str("groups = [\"REG register 999\", \"G1 outgoing 901")?;
    for member in 1..members {
        write!(text, " {member:03}")?;
    }
    for group in 2..groups {
        write!(text, "\", \"G{group} outgoing 9{group:02}")?;
    }
    writeln!(text, "\"]")?;
    Ok(())
}

/// The text of a plan of this size.
fn sized(alloc: Global, sizes: Sizes) -> Result<String, AllocError> {
    let [groups, members, numbers, codes, faults] = sizes;
    let mut text = String::from_str(alloc, "version = 1\n")?;
    add_groups(&mut text, groups, members)?;
    add_list(&mut text, "numbers", numbers, 4, "3041")?;
    add_list(&mut text, "codes", codes, 3, "G1")?;
    let faults = "\"JU340\",".repeat(alloc, faults as usize)?;
    writeln!(text, "faults = [{faults}]")?;
    Ok(text)
}

fn text_of(rt: &impl Abort, alloc: Global, sizes: Sizes) -> String {
    sized(alloc, sizes).expect(rt, "there is memory for a text")
}

/// The fault of a text, if it isn't that of a plan.
fn fault_of(alloc: Global, text: &str) -> Option<PlanFault> {
    Plan::read(alloc, text.as_bytes()).err()
}

#[test]
fn limits_are_the_last_that_are_taken(rt: HostRuntime) {
    for (name, sizes, wanted) in SIZES {
        let text = text_of(&rt, rt.alloc(), *sizes);
        check_eq!(rt; fault_of(rt.alloc(), &text), *wanted, name);
    }
}

/// Whether the lines are only 3041, or none if none is expected.
fn are_wanted(lines: Option<&[Len]>, is_wanted: bool) -> bool {
    match lines {
        Some([line]) => is_wanted && *line == Len::new(3, 0, 21),
        Some(_) => false,
        None => !is_wanted,
    }
}

/// Checks that the plan has a line for each number below 3,000, and for no other.
fn check_three_thousand(rt: &impl Abort, plan: &Plan) {
    for number in 0..10_000 {
        let lines = plan.stations(DirNo::new(number));
        check!(rt; are_wanted(lines, number < 3000), number);
    }
}

/// The plan that is read has each of the 3,000 numbers, and no other.
#[test]
fn three_thousand_numbers_are_read(rt: HostRuntime) {
    let text = text_of(&rt, rt.alloc(), [2, 2, 3000, 1, 0]);
    check_three_thousand(&rt, &read_plan(&rt, rt.alloc(), &text));
}

/// Items of the largest plan, each with the item that replaces it.
const CODES_TWICE: &[(&str, &str)] = &[
    ("\"000 G1\"", "\"001 G1\""),
    ("\"063 G1\"", "\"000 G1\""),
    ("\"063 G1\"", "\"062 G1\""),
];

/// A duplicate code is reported, wherever it is.
#[test]
fn a_code_that_stands_twice_is_told(rt: HostRuntime) {
    let text = text_of(&rt, rt.alloc(), LARGEST);
    for (from, to) in CODES_TWICE {
        let text = text
            .replace(rt.alloc(), from, to)
            .expect(&rt, "there is memory for a text");
        check_eq!(rt; fault_of(rt.alloc(), &text), Some(PlanFault::CodeTwice), to);
    }
}
