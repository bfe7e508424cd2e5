//! Refused memory: whichever allocation is refused, the program says so and writes nothing, or
//! does what it does otherwise.

use super::*;
use crossbar5::EngineFault;
use crossbar5_cli::Ending;
use std::process::Abort;
use test_tools::{check, check_eq};

/// A plan that is refused.
const REFUSED: PlanText = PlanText {
    text: "version = 3\n",
};

/// A command line and its input, with the output.
const DONE: &[(&str, &str, &str)] = &[
    ("replay", FIRST, FIRST_TEXT),
    (
        "replay --plan town.toml",
        FIRST,
        "0,1,0,D,3041,-,DIALTONE,2,3041-5-418,-\nTROUBLE,0,1,1,JU340\nPATHS,1\nCLOSED,4\n",
    ),
    (
        "replay",
        "J,0,1,D,3041\nS,0,96,,\nJ,0,2,C,3041 2340004\nS,0,96,,\n",
        "0,1,0,D,3041,-,DIALTONE,1,3041-0-417,-\n\
1,2,0,C,3041,2340004,CONNECTED,1,3041-0-600,3100-1-601\nPATHS,2\nCLOSED,8\n",
    ),
    ("walk", "J,0,7,R,3041\nS,0,9,,\n", WALK),
    ("look", "J,0,7,R,3041\nS,0,2,,\n", LOOK),
    ("audit", FIRST_TEXT, "AUDIT,LEGAL,1\nPATHS,1\nCLOSED,4\n"),
    ("draw --text", "PATHS,0\nCLOSED,0\n", "No path is up.\n"),
    (
        "draw --text --plan town.toml",
        "0,7,1,D,3052,-,DIALTONE,2,3052-5-418,-\nTROUBLE,0,7,1,JU340\n",
        FAULTY_DRAWING,
    ),
    ("--version", "", "crossbar5 0.1.0\na kit\n"),
];

/// A command line and its input, with the output, the messages and the status.
type Wanted = (&'static str, &'static str, &'static str, &'static str, u8);

/// Command lines that are refused, or whose input is wrong.
const TOLD: &[Wanted] = &[
    (
        "audit",
        "0,1,0,D,3041,-,NOPATH,-,-,-\n",
        "AUDIT,REPLY,0\n0,1,0,D,3041,-,NOPATH,-,-,-\n0,1,0,D,3041,-,DIALTONE,1,3041-0-417,-\n",
        "",
        7,
    ),
    (
        "replay",
        "S,0,1,,\n\nJ,0,1,D,3045\n",
        "FAULT,T3,2\n",
        "crossbar5: traffic line 3 (row 2), field 5 \"3045\": expected a line of four digits, \
the third at most 5 and the fourth at most 4 (T3)\n",
        4,
    ),
    (
        "replay --plan",
        "",
        "",
        "error: a value is required for '--plan <FILE>' but none was supplied\n\n\
For more information, try '--help'.\n",
        2,
    ),
];

/// Command lines with the plan `REFUSED`.
const TOLD_OF_A_REFUSED_PLAN: &[Wanted] = &[
    (
        "replay --plan town.toml",
        "",
        "FAULT,P2\n",
        "crossbar5: town.toml: version: expected 1 or 2, found 3 (P2)\n",
        3,
    ),
    (
        "draw --plan town.toml",
        "",
        "",
        "FAULT,P2\ncrossbar5: town.toml: version: expected 1 or 2, found 3 (P2)\n",
        3,
    ),
];

const WALK: &str = "      marker 0  is given job 7: release of line 3041
   1  marker 0  requests line link frame 3
   2  marker 0  seizes line link frame 3
   3  marker 0  tests line switch 3,0: nothing closed
   4  marker 0  takes turn 0: job 7 ends NOCALL
   5  marker 0  frees line link frame 3, and has done job 7
      the rows are done, and the office settles
";

const LOOK: &str = "\
marker 0, combined: job 7, release of line 3041
  next: tests line switch 3,0
  holds line link frame 3
marker 1, combined: idle
PATHS,0
CLOSED,0
";

const FAULTY_DRAWING: &str = "\
PATHS AT A GLANCE
3052 --[frame 3]-- channel 5 --[frame 4]-- 418   register's path: REG 1

A REGISTER'S PATH
3052-5-418: line 3052 to register REG 1, channel 5
         +-- line link frame 3 --+         +- trunk link frame 4 --+
3052 ----X-------- LL305 --------X--JU345--X-------- TL415 --------X---- 418
         +-----------------------+         +-----------------------+
switch  3,0                     3,5       4,5                     4,1
word     60                      75       295                     281
field     5                       4         3                       5
holds    28                       1         2                       9

LINKS OUT OF ORDER
JU340: channel 0, from line link frame 3 to trunk link frame 4

   .---------------------------------------------.
  /  TROUBLE CARD: JU340 is faulty               |
 /   turn 0, job 7                               |
|    marker 1, trial 1                           |
|    . line link   # junctor   . trunk link      |
|                       0 1 2 3 4 5 6 7 8 9      |
|    line link frame    . . . # . . . . . .      |
|    trunk link frame   . . . . # . . . . .      |
|    channel            # . . . . . . . . .      |
'------------------------------------------------'
";

/// Checks that a run with this plan in each file ends as expected, or that memory is refused and
/// nothing is written. The streams grow too: if one can't, only a part is written. A sentence may
/// be missing.
fn comes_to_it_or_memory<T: Threads + Wait + Sync + Abort>(
    rt: &T,
    alloc: Global,
    plan: &PlanText,
    told: Wanted,
) {
    let (line, input, output, errors, status) = told;
    let mut streams = Streams::new(alloc, input, Fails::Nothing);
    let Ok(exit) = streams.run(rt, alloc, plan, line) else {
        return;
    };
    let written = streams.written();
    match exit.ending {
        Ending::Failed(EngineFault::Memory) => check_eq!(rt; written, "", line),
        Ending::Failed(EngineFault::Device) => check!(rt; is_part(written, output), line),
        _ => {
            check_eq!(rt; (written, exit.status()), (output, status), line);
            check!(rt; is_part(streams.said(), errors), line);
        }
    }
}

/// Whether `part` is the beginning or the end of a text.
fn is_part(part: &str, text: &str) -> bool {
    text.starts_with(part) || text.ends_with(part)
}

/// Command lines whose long texts are compared with those of a second run.
const LONG_TEXTS: &[&str] = &[
    "help",
    "help replay",
    "help walk",
    "help live",
    "help audit",
    "help draw",
    "help page",
    "help look",
    "look --json",
    "look --svg",
    "call",
    "--text",
];

/// Checks that two runs write the same, or that one is refused memory and writes a part of it.
fn comes_to_the_same_or_memory<T: Threads + Wait + Sync + Abort>(
    rt: &T,
    alloc: Global,
    line: &str,
) {
    let mut first = Streams::new(alloc, "", Fails::Nothing);
    let mut second = Streams::new(alloc, "", Fails::Nothing);
    let Ok(exit) = first.run(rt, alloc, &FAULTY, line) else {
        return;
    };
    let Ok(other) = second.run(rt, alloc, &FAULTY, line) else {
        return;
    };
    match (exit.ending, other.ending) {
        (Ending::Failed(_), _) => check!(rt; is_part(first.written(), second.written()), line),
        (_, Ending::Failed(_)) => check!(rt; is_part(second.written(), first.written()), line),
        (one, same) => {
            check_eq!(rt; (one, first.written()), (same, second.written()), line);
            check!(rt; is_part(first.said(), second.said()) || is_part(second.said(), first.said()), line);
        }
    }
}

#[test]
fn refused_memory_changes_no_long_text(rt: HostRuntime) {
    for line in LONG_TEXTS {
        comes_to_the_same_or_memory(&rt, rt.alloc(), line);
    }
}

#[test]
fn refused_memory_leaves_nothing_written(rt: HostRuntime) {
    for (line, input, output) in DONE {
        let told = (*line, *input, *output, "", 0);
        comes_to_it_or_memory(&rt, rt.alloc(), &FAULTY, told);
    }
    for told in TOLD {
        comes_to_it_or_memory(&rt, rt.alloc(), &FAULTY, *told);
    }
    for told in TOLD_OF_A_REFUSED_PLAN {
        comes_to_it_or_memory(&rt, rt.alloc(), &REFUSED, *told);
    }
}
