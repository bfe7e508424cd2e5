//! Diagnostics of bytes that aren't text, of long lists and of faults of traffic that aren't there,
//! and when memory is refused.

use std::alloc::{AllocError, Global};
use std::fmt::Display;
use std::process::Abort;
use std::test::Fail;
use test_tools::check_eq;
use xbar_diagnostics::{PlanDiagnostic, traffic_diagnostic};
use xbar_plan::{Plan, PlanFault};
use xbar_plan_text::PlanText;
use xbar_traffic::{MarkerFault, Mode, RowFault, Traffic, TrafficFault};

mod memory;

/// The text for a missing diagnostic.
const NO_DIAGNOSTIC: &str = "no diagnostic";

/// The sentence of a diagnostic, or `NO_DIAGNOSTIC`.
fn told<S: Display + Drop>(rt: &impl Abort, alloc: Global, diagnostic: Option<S>) -> String {
    let text = match diagnostic {
        Some(diagnostic) => diagnostic.to_string(alloc),
        None => String::from_str(alloc, NO_DIAGNOSTIC),
    };
    text.expect(rt, "there is memory for a sentence")
}

/// The diagnostic of a plan that is refused.
fn plan_diagnostic(alloc: Global, text: &[u8]) -> Option<PlanDiagnostic> {
    let refusal = Plan::parse(alloc, text).err()?;
    Some(PlanDiagnostic { refusal })
}

/// Checks that a plan is refused for this fault, with this sentence.
fn check_refused(rt: &impl Abort, alloc: Global, text: &[u8], fault: PlanFault, wanted: &str) {
    check_eq!(rt; Plan::read(alloc, text).err(), Some(fault), wanted);
    check_eq!(rt; told(rt, alloc, plan_diagnostic(alloc, text)).as_str(), wanted, fault);
}

/// Bytes that aren't text, and the sentence on them.
const NO_TEXTS: &[(&[u8], &str)] = &[
    (
        b"version = 1\n# Stra\xDFe\n",
        "line 2, column 7: invalid UTF-8 (P1)",
    ),
    (
        b"version = 1\ngroups = ['REG register 417']\nnumbers = []\ncodes = []\nfaults = []\n\xFF",
        "line 6, column 1: invalid UTF-8 (P1)",
    ),
];

/// Adds a list of `count` items, each its number in `digits` digits and then `behind`.
fn add_items(
    text: &mut String,
    key: &str,
    count: u32,
    digits: usize,
    behind: &str,
) -> Result<(), AllocError> {
    write!(text, "{key} = [")?;
    for number in 0..count {
        write!(text, "'{number:0digits$} {behind}',")?;
    }
    text.push_str("]\n")
}

/// A plan with these numbers of numbers and codes.
fn sized(alloc: Global, numbers: u32, codes: u32) -> Result<String, AllocError> {
    let head = "version = 1\ngroups = ['REG register 417', 'OUT outgoing 800']\nfaults = []\n";
    let mut text = String::from_str(alloc, head)?;
    add_items(&mut text, "numbers", numbers, 4, "3041")?;
    add_items(&mut text, "codes", codes, 3, "OUT")?;
    Ok(text)
}

/// How many numbers and codes a plan has, too many of one of them, and the sentence on it.
const TOO_MANY: &[(u32, u32, &str)] = &[
    (
        3001,
        64,
        "numbers: expected at most 3000 items, found 3001 (P6)",
    ),
    (3000, 65, "codes: expected at most 64 items, found 65 (P6)"),
];

#[test]
fn sentences_about_plans(rt: HostRuntime) -> Result<(), Fail> {
    for (text, wanted) in NO_TEXTS {
        check_refused(&rt, rt.alloc(), text, PlanFault::NotToml, wanted);
    }
    for (numbers, codes, wanted) in TOO_MANY {
        let text = sized(rt.alloc(), *numbers, *codes)?;
        check_refused(&rt, rt.alloc(), text.as_bytes(), PlanFault::Limit, wanted);
    }
    Ok(())
}

/// Checks the sentence on this fault of a replay's rows. It may be `NO_DIAGNOSTIC`.
fn check_traffic_sentence(
    rt: &impl Abort,
    alloc: Global,
    rows: &[u8],
    fault: TrafficFault,
    wanted: &str,
) {
    let diagnostic = traffic_diagnostic(alloc, Mode::Replay, rows, fault).expect(
        rt,
        "there is memory",
    );
    check_eq!(rt; told(rt, alloc, diagnostic).as_str(), wanted, "{fault:?}");
}

#[test]
fn a_sentence_about_bytes_that_are_no_text(rt: HostRuntime) -> Result<(), Fail> {
    let rows = b"\xFF\x1B,0,1,D,3041".as_slice();
    let traffic = Traffic::read(rt.alloc(), Mode::Replay, rows)?;
    let wanted = r#"traffic line 1 (row 1), field 1 "\xff\x1b": expected J or S (T2)"#;
    let fault = traffic.refusal().expect(&rt, "the rows are refused");
    check_traffic_sentence(&rt, rt.alloc(), rows, fault, wanted);
    Ok(())
}

/// Rows without a fault.
const RIGHT_ROWS: &[u8] = b"J,0,1,D,3041\nS,0,96,,\n";

/// The numbers of rows, and faults that `RIGHT_ROWS` doesn't have there.
const NOT_FOUND: &[(u64, RowFault)] = &[
    (0, RowFault::Unreadable),
    (1, RowFault::Unreadable),
    (1, RowFault::UnknownKind),
    (2, RowFault::Malformed),
    (2, RowFault::NumberTwice),
    (2, RowFault::OtherMode),
    (3, RowFault::OtherMode),
    (u64::MAX, RowFault::Marker(MarkerFault::NotIdle)),
];

#[test]
fn no_diagnostic_is_told_without_its_row_or_fault(rt: HostRuntime) {
    for (row, fault) in NOT_FOUND {
        let fault = TrafficFault {
            row: *row,
            fault: *fault,
        };
        check_traffic_sentence(&rt, rt.alloc(), RIGHT_ROWS, fault, NO_DIAGNOSTIC);
    }
}
