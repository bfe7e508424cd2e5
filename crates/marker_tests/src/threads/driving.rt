//! Desks at work, each on a thread that owns it.

ghost use Rattle.std.specs.Prelude.{◌≡◌, All, vec_len};
ghost use Rattle.xbar_fabric.specs.Views.{AreDesksOf, IsDeskOf};

use crate::fixtures::some_job;
use crate::offices::MOST_STEPS_ALONE;
use rand_pcg::Pcg32;
use std::alloc::Global;
use std::process::Abort;
use std::thread::{self, Threads, map_vec};
use xbar_equip::Len;
use xbar_fabric::{Desk, Event, Fabric};
use xbar_office::{Job, Record};

/// How often a desk gives back and begins its job anew before it leaves the job undone.
const TRIES: u32 = 100_000_000;

/// A desk at work, and the records of its jobs. It is `Send` if the desk is.
#[derive(Drop)]
pub struct AtWork<D: Drop> {
    pub desk: D,
    pub log: Vec<Record>,
}

/// A desk of the office at work.
pub type DeskAtWork = AtWork<Desk>;

/// What each desk does on its thread.
#[derive(Clone, Copy)]
pub enum Task {
    /// Dials, with at most this number of steps: desk 0 from line 3041, any other from line 1000.
    Dial(u32),
    /// Does this number of jobs to their ends. A generator with this seed chooses them.
    Jobs(u32, u64),
}

/// Makes the desk's steps until its job has ended, but at most `most`. Returns whether the job has
/// ended.
pub fn run_on(fabric: &Fabric, shift: &mut DeskAtWork, most: u32) -> bool
    requires { IsDeskOf shift.old.desk fabric.now }
    ensures { IsDeskOf shift.new.desk fabric.now }
{
    for _made in 0..most {
        match shift.desk.advance(fabric) {
            Event::Idle => return true,
            // If there is no memory for the record, the audit finds it missing.
            Event::Finished(record) => return shift.log.push(record).is_ok(),
            Event::Moved | Event::Refused { .. } | Event::Preferred(_) => {}
        }
    }
    false
}

/// Brings the desk's job to its end. Each time that it has not ended within `patience` steps, the
/// desk gives back what it holds, so that no desk waits for it, and yields to other threads.
fn persist(fabric: &Fabric, shift: &mut DeskAtWork, patience: u32) -> bool
    requires { IsDeskOf shift.old.desk fabric.now }
    ensures { IsDeskOf shift.new.desk fabric.now }
{
    for _begun in 0..TRIES {
        if run_on(fabric, shift, patience) {
            return true;
        }
        let _given = shift.desk.give_back(fabric);
        thread::yield_now();
    }
    false
}

/// Has the desk dial, with at most `most` steps.
fn dial(fabric: &Fabric, shift: &mut DeskAtWork, most: u32)
    requires { IsDeskOf shift.old.desk fabric.now }
    ensures { IsDeskOf shift.new.desk fabric.now }
{
    let line = match shift.desk.marker() {
        0 => Len::new(3, 0, 21),
        _ => Len::new(1, 0, 0),
    };
    if shift.desk.assign(1, Job::Dial(line)).is_ok() {
        let _ended = run_on(fabric, shift, most);
    }
}

/// Does `jobs` jobs, one after another, each to its end.
fn do_jobs(fabric: &Fabric, shift: &mut DeskAtWork, jobs: u32, seed: u64)
    requires { IsDeskOf shift.old.desk fabric.now }
    ensures { IsDeskOf shift.new.desk fabric.now }
{
    let marker = shift.desk.marker();
    let mut numbers = Pcg32::new(seed, u64::from(marker));
    // Each desk has a patience of its own, so that no two keep in step.
    let patience = MOST_STEPS_ALONE + 7 * (marker % 64);
    for job_no in 0..jobs {
        let job = some_job(&mut numbers);
        if shift.desk.assign(job_no, job).is_err() || !persist(fabric, shift, patience) {
            break;
        }
    }
}

fn work(fabric: &Fabric, desk: Desk, log: Vec<Record>, task: Task) -> DeskAtWork
    requires { IsDeskOf desk fabric.now }
    ensures { IsDeskOf result.desk fabric.now }
{
    let mut shift = AtWork { desk, log };
    match task {
        Task::Dial(most) => dial(fabric, &mut shift, most),
        Task::Jobs(jobs, seed) => do_jobs(fabric, &mut shift, jobs, seed),
    }
    shift
}

/// Has each desk do the task on its own thread.
pub fn on_threads<R: Threads + Sync + Abort>(
    rt: &R,
    alloc: Global,
    fabric: &Fabric,
    desks: Vec<Desk>,
    task: Task,
) -> Vec<DeskAtWork>
    requires { AreDesksOf desks.items fabric.now }
    ensures desks { All (λ shift. IsDeskOf shift.desk fabric.now) result.items }
    ensures count { vec_len result ≡ vec_len desks }
{
    let worked = map_vec(
        rt,
        desks,
        &|desk: Desk| -> DeskAtWork
            requires { IsDeskOf desk fabric.now }
            ensures { IsDeskOf result.desk fabric.entry.now }
        { work(fabric, desk, Vec::new(alloc), task) },
    );
    let Ok(shifts) = worked else {
        panic!(rt; "there is memory for threads");
    };
    shifts
}
