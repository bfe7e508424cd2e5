//! Refused memory. Each of these tests passes whichever allocation is refused.

use super::tables::check_example;
use test_tools::{check, check_eq};
use xbar_plan::{Plan, PlanFault};
use xbar_plan_text::PlanText;

/// The text of the example plan in docs/FORMATS.md.
const EXAMPLE: &str = r#"version = 1
groups = [
  "REG register 417 418 509",
  "INTRA intra 600-601 700-711",
  "OUTA outgoing 800",
  "OUTB outgoing 801 902",
]
numbers = ["0001 3041", "0002 3052", "0003 1000", "0004 3100"]
codes = ["234 INTRA", "555 OUTA OUTB"]
faults = []
"#;

#[test]
fn a_plan_is_refused_for_memory_or_read_right(rt: HostRuntime) {
    match Plan::read(rt.alloc(), EXAMPLE.as_bytes()) {
        Err(fault) => check_eq!(rt; fault, PlanFault::Memory),
        Ok(plan) => check_example(&rt, &plan),
    }
}

/// The example plan, in which place 417 is a trunk too.
const PLACE_TWICE: &str = r#"version = 1
groups = [
  "REG register 417 418 509",
  "INTRA intra 600-601 700-711",
  "OUTA outgoing 800 417",
  "OUTB outgoing 801 902",
]
numbers = ["0001 3041", "0002 3052", "0003 1000", "0004 3100"]
codes = ["234 INTRA", "555 OUTA OUTB"]
faults = []
"#;

#[test]
fn a_plan_is_refused_for_memory_or_for_its_fault(rt: HostRuntime) {
    let fault = Plan::read(rt.alloc(), PLACE_TWICE.as_bytes()).err();
    let is_told = fault == Some(PlanFault::Memory) || fault == Some(PlanFault::PlaceTwice);
    check!(rt; is_told, "{fault:?}");
}
