//! Refused memory. Each of these tests passes whichever allocation is refused: there may be no
//! diagnostic then, but never a wrong one.

use super::*;
use test_tools::check;

/// Plans with a fault, and the sentences on them.
const PLANS: &[(&str, &str)] = &[
    (
        "version = 1\nversion = 2",
        "line 2, column 1: duplicate key (P1)",
    ),
    (
        r#"version = 1
groups = ["REG register 417", "OUTA outgoing 800"]
numbers = ["0001 3041"]
codes = ["555 OUTA"]
faults = ["JU340", "JX340"]
"#,
        r#"faults, item 2 "JX340": expected LL, JU or TL and three digits (P5)"#,
    ),
    (
        r#"version = 1
groups = ["REG register 417", "OUTA outgoing 800", "OUTA outgoing 418"]
numbers = ["0001 3041"]
codes = ["555 OUTA"]
faults = []
"#,
        "groups, item 3: duplicate name OUTA, first used in item 2 (P7)",
    ),
    (
        r#"version = 1
groups = ["REG register 417 418", "OUTA outgoing 800", "OUTB outgoing 418"]
numbers = ["0001 3041"]
codes = ["555 OUTA"]
faults = []
"#,
        "groups, item 3: duplicate place 418, first used in item 1 (P9)",
    ),
    (
        r#"version = 1
groups = ["REG register 417", "OUTA outgoing 800"]
numbers = ["0001 3041", "0002 3052", "0001 1000"]
codes = ["555 OUTA"]
faults = []
"#,
        "numbers, item 3: duplicate number 0001, first used in item 1 (P11)",
    ),
    (
        r#"version = 1
groups = ["REG register 417", "OUTA outgoing 800"]
numbers = ["0001 3041"]
codes = ["234 OUTA", "777 NONE"]
faults = []
"#,
        "codes, item 2: no group has the name NONE (P13)",
    ),
    (
        r#"version = 1
groups = ["REG register 417", "OUTA outgoing 800"]
numbers = ["0001 3041"]
codes = ["234 OUTA", "555 OUTA REG"]
faults = []
"#,
        "codes, item 2: REG has registers; expected intra groups or outgoing groups (P14)",
    ),
];

/// Whether there is a diagnostic with this sentence. Memory for the sentence may be refused.
fn has_sentence<S: Display + Drop>(alloc: Global, diagnostic: Option<S>, wanted: &str) -> bool {
    let Some(diagnostic) = diagnostic else {
        return false;
    };
    match diagnostic.to_string(alloc) {
        Ok(text) => text.as_str() == wanted,
        Err(_) => true,
    }
}

#[test]
fn diagnostics_of_plans_are_right_or_not_told(rt: HostRuntime) {
    let alloc = rt.alloc();
    for (text, wanted) in PLANS {
        let diagnostic = plan_diagnostic(alloc, text.as_bytes());
        let memory = match &diagnostic {
            Some(PlanDiagnostic { refusal }) => refusal.fault() == PlanFault::Memory,
            None => false,
        };
        check!(rt; memory || has_sentence(alloc, diagnostic, wanted), "{wanted}");
    }
}

const TRAFFIC: &[u8] = b"J,0,1,D,3041\n\nJ,0,1,D,3045\n";

/// Faults of the second row of `TRAFFIC`, with their sentences.
const OF_THE_TRAFFIC: &[(RowFault, &str)] = &[
    (
        RowFault::NumberTwice,
        r#"traffic line 3 (row 2), field 3 "1": duplicate number, first used on line 1 (row 1) (T4)"#,
    ),
    (
        RowFault::Malformed,
        r#"traffic line 3 (row 2), field 5 "3045": expected a line of four digits, the third at most 5 and the fourth at most 4 (T3)"#,
    ),
];

#[test]
fn diagnostics_of_traffic_are_right_or_not_told(rt: HostRuntime) {
    let alloc = rt.alloc();
    for (fault, wanted) in OF_THE_TRAFFIC {
        let fault = TrafficFault {
            row: 2,
            fault: *fault,
        };
        if let Ok(diagnostic) = traffic_diagnostic(alloc, Mode::Replay, TRAFFIC, fault) {
            check!(rt; has_sentence(alloc, diagnostic, wanted), "a diagnostic of {fault:?}");
        }
    }
}
