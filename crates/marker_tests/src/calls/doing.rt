//! Calls that compete for registers and trunks, and calls done by few markers and by 48.

ghost use Rattle.std.specs.Prelude.{◌≡◌, ◌+◌, ◌≤◌, ◌<◌, All, IfOk, vec_len};
ghost use Rattle.xbar_fabric.specs.Meetings.{AreAllIdle};
ghost use Rattle.xbar_markers.specs.Calls.{HasCallNo};
ghost use Rattle.xbar_markers.specs.DesksByKind.{AreDesksByKind};

use super::*;
use crate::fixtures::check_history;
use test_tools::{check, check_eq};
use xbar_fabric::{Desk, Fabric, shut_all};
use xbar_markers::{CallMarkers, open_desks, run_desks};
use xbar_office::{End, Job, Record};

fn open_gates(rt: &impl Abort, alloc: Global, count: usize) -> Vec<OpenGate>
    ensures { vec_len result ≡ count }
{
    let mut gates = Vec::new(alloc);
    if gates.resize(count, OpenGate).is_err() {
        panic!(rt; "there is memory for gates");
    }
    gates
}

/// Does calls whose markers wait for nobody, and checks that the records are one legal history,
/// which the words show.
fn do_calls<'p, R: Threads + Wait + Sync + Abort>(
    rt: &R,
    alloc: Global,
    plan: &'p Plan,
    calls: &[Call],
    workers: Workers,
) -> Outcome<'p>
    requires { All HasCallNo calls.now }
{
    assert!(rt; workers.dialling < 48 && workers.completing < 48);
    let gates = open_gates(rt, alloc, workers.dialling + workers.completing);
    let outcome = run(rt, alloc, plan, calls, workers, gates);
    check_history(rt, alloc, plan, "calls", &outcome.records, &outcome.words);
    let dials = outcome
        .records
        .iter()
        .filter(|r| matches!(r.job, Job::Dial(_)));
    check_eq!(rt; dials.count(), calls.len(), "{workers:?}");
    outcome
}

/// Four lines call out of the office and keep what they get.
fn four_calls() -> [Call; 4]
    ensures { All HasCallNo result }
{
    [
        call_out(1, Len::new(3, 0, 21), false),
        call_out(2, Len::new(1, 0, 0), false),
        call_out(3, Len::new(2, 0, 0), false),
        call_out(4, Len::new(3, 0, 27), false),
    ]
}

const TWO_AND_TWO: Workers = Workers {
    dialling: 2,
    completing: 2,
};

/// How many jobs there are, and how many of them end with dial tone, connected, with all registers
/// busy, and with all trunks busy.
type Ends = (usize, [usize; 4]);

fn ends_of(records: &[Record]) -> Ends {
    let mut ends = [0_usize; 4];
    for record in records {
        let place = match record.reply.end {
            End::DialTone { .. } => 0,
            End::Connected { .. } => 1,
            End::RegistersBusy => 2,
            End::TrunksBusy => 3,
            _ => continue,
        };
        if let Some(count) = ends.get_mut(place) {
            *count = count.saturating_add(1);
        }
    }
    (records.len(), ends)
}

/// How many of the four calls are done, how often (threads interleave differently each time), how
/// their jobs may end, and how many paths they leave.
const COMPETING: &[(usize, u32, &[Ends], usize)] = &[
    (0, 1, &[(0, [0, 0, 0, 0])], 0),
    (3, 40, &[(6, [3, 3, 0, 0])], 3),
    // The fourth finds no register, or gets one that was let go and finds no trunk.
    (4, 40, &[(7, [3, 3, 1, 0]), (8, [4, 3, 0, 1])], 3),
];

#[test]
fn calls_compete(rt: HostRuntime) {
    let plan = example(&rt, rt.alloc());
    let all = four_calls();
    for (calls, times, wanted, paths) in COMPETING {
        assert!(rt; *calls <= 4);
        for _time in 0..*times {
            let outcome = do_calls(&rt, rt.alloc(), &plan, &all[..*calls], TWO_AND_TWO);
            let ends = ends_of(&outcome.records);
            check!(rt; wanted.contains(&ends), "{calls} calls: {ends:?}");
            check_eq!(rt; outcome.office.paths().len(), *paths, "{calls} calls");
        }
    }
}

/// The turn, the number and the marker of each job of call 7, which is released.
const JOBS: [(u64, u32, u32); 3] = [(0, 21, 0), (1, 22, 1), (2, 23, 1)];

#[test]
fn a_call_is_dialled_completed_and_released(rt: HostRuntime) {
    let plan = example(&rt, rt.alloc());
    let calls = [call_out(7, Len::new(3, 0, 21), true)];
    let one_and_one = Workers {
        dialling: 1,
        completing: 1,
    };
    let outcome = do_calls(&rt, rt.alloc(), &plan, &calls, one_and_one);
    check_eq!(rt; outcome.records.len(), JOBS.len(), "jobs");
    for (record, wanted) in outcome.records.iter().zip(JOBS) {
        check_eq!(rt; (record.turn, record.job_no, record.marker), wanted, "a job");
    }
    check_eq!(rt; outcome.office.paths().len(), 0, "paths");
}

/// Has the desks do these calls, and appends their records.
fn do_more<R: Threads + Wait + Sync + Abort>(
    rt: &R,
    alloc: Global,
    fabric: &Fabric,
    desks: Vec<Desk>,
    calls: &[Call],
    records: &mut Vec<Record>,
) -> Vec<Desk>
    requires workers { AreDesksByKind desks.items fabric.now }
    requires idle { AreAllIdle desks.items fabric.now }
    requires call_nos { All HasCallNo calls.now }
    ensures workers { AreDesksByKind result.items fabric.now }
    ensures idle { AreAllIdle result.items fabric.now }
{
    let gates = open_gates(rt, alloc, desks.len());
    let Ok((desks, mut more)) = run_desks(rt, alloc, fabric, desks, calls, gates) else {
        panic!(rt; "there is memory for the calls");
    };
    if records.append(&mut more).is_err() {
        panic!(rt; "there is memory for records");
    }
    desks
}

/// Desks that a caller opened do two calls, and then two more.
#[test]
fn desks_go_on_with_other_calls(rt: HostRuntime) {
    let alloc = rt.alloc();
    let plan = example(&rt, alloc);
    let calls = four_calls();
    let all = calls.as_slice();
    let (first, second) = (&all[..2], &all[2..]);
    let Some(markers) = CallMarkers::new(2, 2) else {
        panic!(rt; "these are markers for calls");
    };
    let Ok((fabric, desks)) = open_desks(alloc, &plan, &markers) else {
        panic!(rt; "the office is opened");
    };
    let mut records = Vec::new(alloc);
    let desks = do_more(&rt, alloc, &fabric, desks, first, &mut records);
    let desks = do_more(&rt, alloc, &fabric, desks, second, &mut records);
    let Ok(words) = shut_all(alloc, fabric, desks) else {
        panic!(rt; "there is memory for the words");
    };
    check_history(&rt, alloc, &plan, "two and two calls", &records, &words);
    check_eq!(rt; ends_of(&records), (8, [4, 3, 0, 1]), "the fourth finds no trunk");
}

/// Digits that lead out of the office, to two lines in it, and to a number that nobody has.
const DIALLED: [u32; 4] = [5_551_234, 2_340_002, 2_340_004, 2_349_999];

/// The call of this number, of 300. Three of four are released again.
fn call_at(place: u32) -> Call
    requires { place < 300 }
    ensures { HasCallNo result }
{
    let line = Len::new(
        (place % 10) as u8,
        (place / 10 % 10) as u8,
        (place / 100) as u8,
    );
    Call {
        call_no: place,
        line,
        digits: Dialled::new(DIALLED[(place % 4) as usize]),
        release: place % 16 >= 4,
    }
}

/// The first `count` of the 300 calls.
fn many_calls(alloc: Global, count: u32) -> Result<Vec<Call>, AllocError>
    requires { count ≤ 300 }
    ensures { IfOk result (λ calls. All HasCallNo calls.items) }
{
    let mut calls = Vec::new(alloc);
    for place in 0..count {
        calls.push(call_at(place))?;
    }
    Ok(calls)
}

/// The numbers of markers that dial, of those that complete, and of calls, and how often these are
/// done.
const MANY: [(usize, usize, u32, u32); 5] = [
    (1, 1, 300, 10),
    (2, 2, 300, 10),
    (1, 3, 100, 10),
    (8, 8, 300, 2),
    (24, 24, 300, 2),
];

#[test]
fn markers_do_many_calls(rt: HostRuntime) {
    let plan = example(&rt, rt.alloc());
    for (dialling, completing, count, times) in MANY {
        assert!(rt; count <= 300);
        let calls = many_calls(rt.alloc(), count).expect(&rt, "there is memory for the calls");
        let workers = Workers {
            dialling,
            completing,
        };
        for _time in 0..times {
            let outcome = do_calls(&rt, rt.alloc(), &plan, &calls, workers);
            check!(rt; ends_of(&outcome.records).1[1] > 0, "{workers:?}: one is connected");
        }
    }
}

/// The most and the fewest markers of each kind.
const FEW_OF_A_KIND: [Workers; 3] = [
    Workers {
        dialling: 1,
        completing: 1,
    },
    Workers {
        dialling: 1,
        completing: 47,
    },
    Workers {
        dialling: 47,
        completing: 1,
    },
];

#[test]
fn markers_do_no_calls(rt: HostRuntime) {
    let plan = example(&rt, rt.alloc());
    for workers in FEW_OF_A_KIND {
        let outcome = do_calls(&rt, rt.alloc(), &plan, &[], workers);
        check_eq!(rt; outcome.records.len(), 0, "{workers:?}");
    }
}
