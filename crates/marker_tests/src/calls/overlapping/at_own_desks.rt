//! The same meetings of desks that a caller opens and shuts.

ghost use Rattle.std.specs.Prelude.{All};
ghost use Rattle.xbar_fabric.specs.Meetings.{AreAllIdle};
ghost use Rattle.xbar_markers.specs.Calls.{HasCallNo};
ghost use Rattle.xbar_markers.specs.DesksByKind.{AreDesksByKind};

use super::*;
use crate::fixtures::{check_history, example};
use std::alloc::Global;
use std::process::Abort;
use std::sync::Wait;
use std::thread::Threads;
use xbar_fabric::{Desk, Fabric, shut_all};
use xbar_markers::{Call, CallMarkers, open_desks, run_desks};
use xbar_office::{Record, audit};
use xbar_plan::Plan;

/// Has the desks do these calls, with gates at which they meet. Returns their records too.
fn do_calls<R: Threads + Wait + Sync + Abort>(
    rt: &R,
    alloc: Global,
    fabric: &Fabric,
    desks: Vec<Desk>,
    calls: &[Call],
    gates: Vec<MeetingGate<'_>>,
) -> (Vec<Desk>, Vec<Record>)
    requires workers { AreDesksByKind desks.items fabric.now }
    requires idle { AreAllIdle desks.items fabric.now }
    requires call_nos { All HasCallNo calls.now }
    ensures workers { AreDesksByKind result.0.items fabric.now }
    ensures idle { AreAllIdle result.0.items fabric.now }
{
    assert!(rt; gates.len() == desks.len());
    let Ok(done) = run_desks(rt, alloc, fabric, desks, calls, gates) else {
        panic!(rt; "there is memory for the calls");
    };
    done
}

/// What the gates of a case have counted when all have met that are to meet.
fn all_met(case: &Case) -> Tally {
    let waiting = case.meetings.iter().filter(|meeting| meeting.is_some());
    Tally {
        kept: waiting.count() as u64,
        missed: 0,
        miscounted: 0,
        jobs: THEIR_JOBS,
    }
}

/// The number of records, and of the paths that they leave.
fn counts_of(alloc: Global, plan: &Plan, records: &[Record]) -> (usize, Option<usize>) {
    let office = audit(alloc, plan, records).ok();
    (records.len(), office.map(|office| office.paths().len()))
}

/// Has a caller's desks do two calls, and checks that each marker that is to meet another does so.
fn check_desks<R: Threads + Wait + Sync + Abort>(rt: &R, alloc: Global, plan: &Plan, case: &Case) {
    let board = Board::default();
    let Ok(gates) = gates(alloc, &board, case.meetings) else {
        panic!(rt; "there is memory for gates");
    };
    assert!(rt; case.dialling <= case.meetings.len());
    let completing = case.meetings.len() - case.dialling;
    let Some(markers) = CallMarkers::new(case.dialling, completing) else {
        panic!(rt; "these are markers for calls");
    };
    let Ok((fabric, desks)) = open_desks(alloc, plan, &markers) else {
        panic!(rt; "the office is opened");
    };
    let calls = two_calls(case.share_a_frame);
    let (desks, records) = do_calls(rt, alloc, &fabric, desks, &calls, gates);
    let Ok(words) = shut_all(alloc, fabric, desks) else {
        panic!(rt; "there is memory for the words");
    };
    check_eq!(rt; board.tally(), all_met(case), case.name);
    check_history(rt, alloc, plan, case.name, &records, &words);
    check_eq!(rt; counts_of(alloc, plan, &records), (4, Some(2)), case.name);
}

#[test]
fn desks_meet_at_their_gates(rt: HostRuntime) {
    let plan = example(&rt, rt.alloc());
    for case in CASES {
        for _time in 0..TIMES / 4 {
            check_desks(&rt, rt.alloc(), &plan, case);
        }
    }
}
