//! Plans of docs/FORMATS.md, as they are read, written and read again.

use super::tables::{Answers, check_answers, check_example, text_of};
use crate::fixtures::read_plan;
use test_tools::check_eq;

/// The example plan.
const EXAMPLE: &str = r#"version = 1
groups = [
  "REG register 417 418 509",
  "INTRA intra 600-601 700-711",
  "OUTA outgoing 800",
  "OUTB outgoing 801 902",
]
numbers = ["0001 3041", "0002 3052", "0003 1000", "0004 3100"]
codes = ["234 INTRA", "555 OUTA OUTB"]
faults = []
"#;

#[test]
fn the_example_is_read(rt: HostRuntime) {
    check_example(&rt, &read_plan(&rt, rt.alloc(), EXAMPLE));
}

/// The hunting plan.
const HUNTING: &str = r#"version = 2
groups = [
  "REG register 417 418 509",
  "INTRA intra 600-601 700-711",
  "OUTA outgoing 800",
  "OUTB outgoing 801 902",
]
numbers = ["0001 3041", "0002 3052 3100", "0003 1000", "0004 3100"]
codes = ["234 INTRA", "555 OUTA OUTB"]
faults = []
"#;

/// What lookups in the hunting plan return.
const HUNTED: Answers = Answers {
    numbers: &[
        (1, &["3041"]),
        (2, &["3052", "3100"]),
        (3, &["1000"]),
        (4, &["3100"]),
        (5, &[]),
    ],
    codes: &[(234, Some(&[1])), (555, Some(&[2, 3])), (556, None)],
    links: &[("JU340", false)],
};

#[test]
fn the_hunting_plan_is_read_written_and_read_again(rt: HostRuntime) {
    let plan = read_plan(&rt, rt.alloc(), HUNTING);
    check_answers(&rt, &plan, &HUNTED);
    let text = text_of(&rt, rt.alloc(), &plan);
    check_answers(&rt, &read_plan(&rt, rt.alloc(), &text), &HUNTED);
    let groups = (plan.group_count(), plan.register_group());
    check_eq!(rt; groups, (4, 0), "groups");
}
