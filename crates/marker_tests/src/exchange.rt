//! The office as plain data: its records, and what its words show of them.

use crate::fixtures::{check_history, example, job, many_registers, some_job};
use crate::offices::plain::{open_exchange, settle};
use crate::offices::{Driven, MOST_STEPS_ALONE, TWO, assign, begin_both, go_on_for};
use rand::RngExt;
use rand_pcg::Pcg32;
use std::alloc::{AllocError, Global};
use std::process::Abort;
use test_tools::{check, check_eq};
use xbar_core::{AssignFault, Exchange, Kind, Kinds};
use xbar_office::audit;
use xbar_plan::Plan;

mod interleaved;

/// Checks that the records are one legal history, and that the words of the settled office show
/// the set after it.
fn check_settled(rt: &impl Abort, alloc: Global, name: &str, office: &Exchange) {
    check_history(
        rt,
        alloc,
        office.plan(),
        name,
        office.records(),
        office.words(),
    );
}

/// Settles the jobs of two markers after `first` and `second` steps.
fn settle_after(rt: &impl Abort, alloc: Global, plan: &Plan, first: u32, second: u32) {
    let mut office = open_exchange(rt, alloc, plan, TWO);
    begin_both(rt, &mut office, first, second);
    settle(&mut office);
    let are_idle = office.has_no_job(0) && office.has_no_job(1);
    let found = (are_idle, office.records().len());
    check_eq!(rt; found, (true, 2), "after {first}, {second} steps");
    check_settled(rt, alloc, "settled", &office);
}

#[test]
fn half_done_jobs_are_settled(rt: HostRuntime) {
    let plan = example(&rt, rt.alloc());
    for first in 0..29 {
        for second in [0, 1, 3, 20, 28] {
            settle_after(&rt, rt.alloc(), &plan, first, second);
        }
    }
}

/// Has marker 0 do a job. Returns false if memory ran out and the job was refused.
fn is_done(rt: &impl Abort, office: &mut Exchange, job_no: u32, text: &str) -> bool {
    let assigned = office.assign(0, job_no, job(rt, text));
    if assigned.is_ok() {
        go_on_for(office, 0, MOST_STEPS_ALONE);
    } else {
        check_eq!(rt; assigned, Err(AssignFault::Memory), text);
    }
    check!(rt; office.has_no_job(0), text);
    assigned.is_ok()
}

/// Does jobs, of which some are refused since there is no memory for their records. These change
/// nothing.
fn do_what_memory_allows(rt: &impl Abort, office: &mut Exchange) {
    let mut done: usize = 0;
    for job_no in 0..40 {
        let text = if job_no % 2 == 0 { "D 3041" } else { "R 3041" };
        if is_done(rt, office, job_no, text) {
            done = done.saturating_add(1);
        }
        check_eq!(rt; office.records().len(), done, text);
    }
}

/// An office without memory for a record refuses the job, and is unchanged.
#[test]
fn refused_memory_changes_nothing(rt: HostRuntime) {
    if let Ok(plan) = Plan::example(rt.alloc()) {
        if let Ok(mut office) = Exchange::open(rt.alloc(), &plan, &Kinds::default()) {
            do_what_memory_allows(&rt, &mut office);
        }
    }
}

/// The numbers of markers, of rounds, and of moves per round, and the seed of the generator that
/// chooses the moves.
const RUNS: &[(usize, u32, u32, u64)] = &[
    // About one job in each round.
    (1, 200, 50, 1),
    (2, 8, 1000, 2),
    (5, 8, 1000, 3),
    (12, 8, 1000, 4),
    (48, 8, 1000, 5),
];

/// Kinds for this number of markers: the first takes all jobs, the others some.
fn some_kinds(alloc: Global, markers: usize, numbers: &mut Pcg32) -> Result<Vec<Kind>, AllocError> {
    let mut kinds = vec![in alloc; Kind::Combined]?;
    for _marker in 1..markers {
        kinds.push(match numbers.random_range(0..4u32) {
            0 => Kind::Dial,
            1 => Kind::Completing,
            _ => Kind::Combined,
        })?;
    }
    Ok(kinds)
}

/// Makes one move of some marker: mostly a step.
fn make_a_move(numbers: &mut Pcg32, office: &mut Exchange) {
    let marker = numbers.random_range(0..office.marker_count().max(1));
    match numbers.random_range(0..128u32) {
        0 => {
            office.ask_back(marker);
        }
        1..=8 => {
            // A busy marker, or one of another kind, refuses it.
            let job_no = numbers.random_range(0..10_000u32);
            let _assigned = office.assign(marker, job_no, some_job(numbers));
        }
        _ => {
            office.go_on(marker);
        }
    }
}

/// Makes rounds of moves. After each round the office settles.
fn go_at_random(rt: &impl Abort, alloc: Global, plan: &Plan, run: &(usize, u32, u32, u64)) {
    let (markers, rounds, moves, seed) = *run;
    let mut numbers = Pcg32::new(seed, 5);
    let kinds = some_kinds(alloc, markers, &mut numbers).expect(rt, "there is memory for kinds");
    let mut office = open_exchange(rt, alloc, plan, &kinds);
    for _round in 0..rounds {
        for _made in 0..moves {
            make_a_move(&mut numbers, &mut office);
        }
        audit(alloc, plan, office.records()).expect(
            rt,
            "the records are legal, with jobs half done",
        );
        settle(&mut office);
        check_settled(rt, alloc, "moves at random", &office);
    }
    check!(rt; office.records().len() > 100, "many records");
}

#[test]
fn any_moves_are_one_history(rt: HostRuntime) {
    for plan in &[example(&rt, rt.alloc()), many_registers(&rt, rt.alloc())] {
        for run in RUNS {
            go_at_random(&rt, rt.alloc(), plan, run);
        }
    }
}
