//! Markers of one office do calls over and over, each from a line of its own: the line gets a
//! register, is joined to a trunk, and releases.

ghost use Rattle.std.specs.Prelude.{◌<◌, ◌≤◌};

use crate::timing::Tally;
use std::alloc::Global;
use std::io;
use std::rt::Clock;
use std::time::Instant;
use xbar_core::{Event, Exchange, Kind, Kinds};
use xbar_equip::{Dialled, Len};
use xbar_office::Job;
use xbar_plan::Plan;

/// The number of jobs to measure.
pub const JOBS: u64 = 90_000;

/// A bound on how often a marker comes up in rotation, which is more often than the jobs need.
const ROTATIONS: u32 = 100_000_000;

/// The number of steps that a marker makes in a row. If it were one, two markers that ask for the
/// same connector could deny it to each other for ever.
const STEPS: u32 = 5;

/// The jobs assigned and the work done so far.
#[derive(Default, Drop)]
struct Progress {
    /// The number of jobs assigned to each marker.
    assigned: [u32; 10],
    done: Tally,
}

/// Returns the marker's next job, and counts it as assigned.
fn next_job(progress: &mut Progress, marker: u32) -> Job {
    let line = Len::new((marker % 10) as u8, 0, 0);
    let count = &mut progress.assigned[marker as usize % 10];
    *count = count.saturating_add(1);
    match *count % 3 {
        1 => Job::Dial(line),
        2 => Job::Complete(line, Dialled::new(5_551_234)),
        _ => Job::Release(line),
    }
}

/// Makes the marker's next step, if the office has this marker and the marker has a job.
#[inline(always)]
pub fn step(office: &mut Exchange, marker: u32) -> Event {
    if marker < office.marker_count() {
        office.step(marker)
    } else {
        Event::Idle
    }
}

/// Makes the marker's next step, or assigns a job to the marker if it has none.
fn go_on(office: &mut Exchange, progress: &mut Progress, marker: u32) {
    let has_ended = match step(office, marker) {
        Event::Idle => {
            let _assigned = office.assign(marker, 0, next_job(progress, marker));
            return;
        }
        Event::Finished(_) => true,
        Event::Moved | Event::Refused { .. } | Event::Preferred(_) => false,
    };
    progress.done.count(1, has_ended);
}

/// Has `markers` markers work in rotation until they have done `jobs` jobs. Returns how much they
/// did, which is nothing if there is no memory for an office.
pub fn work(alloc: Global, plan: &Plan, markers: u32, jobs: u64) -> Tally
    requires { (0 < markers) × (markers ≤ 10) }
{
    let kinds = [Kind::Combined; 10];
    let mut progress = Progress::default();
    let Some(kinds) = Kinds::new(&kinds[..markers as usize]) else {
        return progress.done;
    };
    let Ok(mut office) = Exchange::open(alloc, plan, &kinds) else {
        return progress.done;
    };
    for number in 0..ROTATIONS {
        if progress.done.jobs >= jobs {
            break;
        }
        for _made in 0..STEPS {
            go_on(&mut office, &mut progress, number % markers);
        }
    }
    progress.done
}

/// Does the jobs, and prints the times of a step and of a job.
pub fn measure<R: Print + Eprint + Clock>(
    rt: &R,
    alloc: Global,
    plan: &Plan,
    markers: u32,
) -> io::Result<()>
    requires { (0 < markers) × (markers ≤ 10) }
{
    let start = Instant::now(rt)?;
    let done = work(alloc, plan, markers, JOBS);
    let (step, job) = done.paces(start.elapsed(rt)?, 1);
    println!(rt; "core: {} jobs in {} steps", done.jobs, done.steps)?;
    eprintln!(rt; "{step} ns a step, {job} ns a job")
}
