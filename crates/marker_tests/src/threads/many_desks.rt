//! Many desks, each on its own thread, that do jobs on the same lines.

use super::driving::{Task, on_threads};
use super::ending::check_end;
use crate::fixtures::{example, open_fabric};
use std::alloc::Global;
use std::process::Abort;
use std::thread::Threads;
use test_tools::{check, check_eq};
use xbar_fabric::Kind;
use xbar_office::End;
use xbar_plan::Plan;

/// The numbers of desks and of jobs per desk, and the seed of the generator that chooses the jobs.
const RUNS: [(usize, u32, u64); 6] = [
    (8, 300, 1),
    (8, 300, 2),
    (8, 300, 3),
    (8, 300, 4),
    (8, 300, 5),
    (48, 40, 7),
];

/// Has the desks do their jobs and shuts them, and checks that their records are one history.
fn check_desks<R: Threads + Sync + Abort>(
    rt: &R,
    alloc: Global,
    plan: &Plan,
    kinds: &[Kind],
    jobs: u32,
    seed: u64,
) {
    let (fabric, desks) = open_fabric(rt, alloc, plan, kinds);
    let shifts = on_threads(rt, alloc, &fabric, desks, Task::Jobs(jobs, seed));
    let records = check_end(rt, alloc, plan, fabric, shifts);
    let wanted = kinds.len().saturating_mul(jobs as usize);
    check_eq!(rt; records.len(), wanted, "{} desks, seed {seed}", kinds.len());
    let mut ends = records.iter().map(|record| record.reply.end);
    let is_connected = ends.any(|end| matches!(end, End::Connected { .. }));
    check!(rt; is_connected, "{} desks, seed {seed}", kinds.len());
}

#[test]
fn threads_are_one_history(rt: HostRuntime) {
    let plan = example(&rt, rt.alloc());
    for (desks, jobs, seed) in RUNS {
        let kinds = [Kind::Combined; 48];
        assert!(rt; desks <= 48);
        check_desks(&rt, rt.alloc(), &plan, &kinds[..desks], jobs, seed);
    }
}
