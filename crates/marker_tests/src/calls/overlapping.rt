//! Markers that wait for one another at their gates, and so work at once.

ghost use Rattle.std.specs.Prelude.{◌≡◌, All, IfOk, length, vec_len};
ghost use Rattle.xbar_markers.specs.Calls.{HasCallNo};

use super::gates::{Board, Meeting, MeetingGate, Point, Tally};
use super::*;
use test_tools::check_eq;

mod at_own_desks;

/// How often each meeting is tried.
const TIMES: u32 = 200;

const FIRST_STEP: Point = Point { steps: 1, jobs: 0 };

const ONE_STEP_MADE: Point = Point { steps: 2, jobs: 0 };

const ONE_JOB_ENDED: Point = Point { steps: 0, jobs: 1 };

/// The numbers of the dial tone and completing jobs of calls 1 and 2, as bits.
const THEIR_JOBS: u64 = 1 << 3 | 1 << 4 | 1 << 6 | 1 << 7;

/// Calls 1 and 2, from one line link frame or from two.
fn two_calls(share_a_frame: bool) -> [Call; 2]
    ensures { All HasCallNo result }
{
    let other = if share_a_frame {
        Len::new(3, 0, 27)
    } else {
        Len::new(1, 0, 0)
    };
    [
        call_out(1, Len::new(3, 0, 21), false),
        call_out(2, other, false),
    ]
}

/// A gate for each marker, with what it waits for.
fn gates<'a>(
    alloc: Global,
    board: &'a Board,
    meetings: &[Option<Meeting>],
) -> Result<Vec<MeetingGate<'a>>, AllocError>
    ensures { IfOk result (λ gates. vec_len gates ≡ length meetings.now) }
{
    let mut gates = Vec::new(alloc);
    let mut marker = 0;
    for meeting in meetings {
        gates.push(MeetingGate::new(board, marker, *meeting))?;
        marker = marker.saturating_add(1);
    }
    Ok(gates)
}

/// Markers, of which the first `dialling` dial, with what each waits for.
struct Case {
    name: &'static str,
    dialling: usize,
    share_a_frame: bool,
    meetings: &'static [Option<Meeting>],
}

const CASES: &[Case] = &[
    // Marker 1 begins once marker 0 has made a step. Marker 0 then waits until marker 1 has ended
    // a job.
    Case {
        name: "two who dial work at once",
        dialling: 2,
        share_a_frame: false,
        meetings: &[
            Some(Meeting(ONE_STEP_MADE, 1, ONE_JOB_ENDED)),
            Some(Meeting(FIRST_STEP, 0, ONE_STEP_MADE)),
            None,
        ],
    },
    // Each of the two waits at its first step until the other has come to its own.
    Case {
        name: "two who complete work at once",
        dialling: 1,
        share_a_frame: false,
        meetings: &[
            None,
            Some(Meeting(FIRST_STEP, 2, FIRST_STEP)),
            Some(Meeting(FIRST_STEP, 1, FIRST_STEP)),
        ],
    },
    // Marker 0, once it has ended its first job, waits until marker 1 has ended one.
    Case {
        name: "calls are completed before all are dialled",
        dialling: 1,
        share_a_frame: false,
        meetings: &[Some(Meeting(ONE_JOB_ENDED, 1, ONE_JOB_ENDED)), None],
    },
    // Marker 1 begins once marker 0 has come to its first step. Marker 0 waits there until marker
    // 1 has ended a job on the same frame. If marker 0 requested the frame before it waits, marker
    // 1 would be denied.
    Case {
        name: "a gate is passed before the step",
        dialling: 2,
        share_a_frame: true,
        meetings: &[
            Some(Meeting(FIRST_STEP, 1, ONE_JOB_ENDED)),
            Some(Meeting(FIRST_STEP, 0, FIRST_STEP)),
            None,
        ],
    },
];

/// Does two calls, and checks that each marker that is to meet another does so.
fn check_meetings<R: Threads + Wait + Sync + Abort>(
    rt: &R,
    alloc: Global,
    plan: &Plan,
    case: &Case,
) {
    let board = Board::default();
    let Ok(gates) = gates(alloc, &board, case.meetings) else {
        panic!(rt; "there is memory for gates");
    };
    assert!(rt; case.dialling <= case.meetings.len());
    let workers = Workers {
        dialling: case.dialling,
        completing: case.meetings.len() - case.dialling,
    };
    let calls = two_calls(case.share_a_frame);
    let outcome = run(rt, alloc, plan, &calls, workers, gates);
    let waiting = case.meetings.iter().filter(|meeting| meeting.is_some());
    let met = Tally {
        kept: waiting.count() as u64,
        missed: 0,
        miscounted: 0,
        jobs: THEIR_JOBS,
    };
    check_eq!(rt; board.tally(), met, case.name);
    let counts = (outcome.records.len(), outcome.office.paths().len());
    check_eq!(rt; counts, (4, 2), case.name);
}

#[test]
fn markers_meet_at_their_gates(rt: HostRuntime) {
    let plan = example(&rt, rt.alloc());
    for case in CASES {
        for _time in 0..TIMES {
            check_meetings(&rt, rt.alloc(), &plan, case);
        }
    }
}
