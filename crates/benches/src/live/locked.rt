//! Workers that do calls in one office behind a lock.

ghost use Rattle.std.specs.Prelude.{◌≤◌};

use super::pacing::{PATIENCE, Pace, REGISTERS};
use crate::markers::step;
use std::alloc::Global;
use std::sync::atomic::{AtomicU64, Ordering};
use std::sync::{Mutex, Wait};
use std::thread::Threads;
use std::{io, thread};
use xbar_core::{Event, Exchange, Kind, Kinds};
use xbar_markers::Call;
use xbar_office::Job;
use xbar_plan::Plan;

/// Calls that are dialled and completed in their order, and how far this is.
#[derive(Drop)]
struct Lineup<'a> {
    office: Mutex<Exchange<'a>>,
    calls: &'a [Call],
    pace: Pace,
    /// The indices of the next call to dial, and of the next to complete.
    to_dial: AtomicU64,
    to_complete: AtomicU64,
    /// For each call, 1 if it was dialled, and 0 if not.
    dialled: Vec<AtomicU64>,
}

/// Has the marker do the job, each of its steps under the lock. Gives up after `PATIENCE` steps.
fn do_job<R: Wait>(rt: &R, lineup: &Lineup, marker: u32, call: &Call, job: Job) {
    let _assigned = lineup.office.lock(rt).assign(marker, call.call_no, job);
    for _time in 0..PATIENCE {
        let event = step(&mut lineup.office.lock(rt), marker);
        match event {
            Event::Finished(_) | Event::Idle => return,
            Event::Moved => {}
            Event::Refused { .. } | Event::Preferred(_) => thread::yield_now(),
        }
    }
}

/// Waits until a call was dialled, but goes on all the same after a long time.
fn wait_for(dialled: &AtomicU64) {
    for _time in 0..PATIENCE {
        if dialled.load(Ordering::SeqCst) == 1 {
            return;
        }
        thread::yield_now();
    }
}

/// Dials calls, or completes and releases them, until there are no more.
fn serve<R: Wait>(rt: &R, lineup: &Lineup, marker: u32, dials: bool) {
    let next = if dials {
        &lineup.to_dial
    } else {
        &lineup.to_complete
    };
    for _call in lineup.calls {
        let place = next.fetch_add(1, Ordering::SeqCst) as usize;
        let (Some(call), Some(dialled)) = (lineup.calls.get(place), lineup.dialled.get(place))
        else {
            return;
        };
        if dials {
            lineup.pace.begin();
            do_job(rt, lineup, marker, call, Job::Dial(call.line));
            dialled.store(1, Ordering::SeqCst);
        } else {
            wait_for(dialled);
            let complete = Job::Complete(call.line, call.digits);
            do_job(rt, lineup, marker, call, complete);
            lineup.pace.end();
            do_job(rt, lineup, marker, call, Job::Release(call.line));
        }
    }
}

/// Has `count` workers dial the calls, and as many complete and release them, each step under one
/// lock, paced so that registers suffice. Returns the number of jobs done.
pub fn work<R: Threads + Wait + Sync>(
    rt: &R,
    alloc: Global,
    plan: &Plan,
    calls: &[Call],
    count: usize,
) -> io::Result<usize>
    requires { count ≤ 4 }
{
    let kinds = [Kind::Combined; 8];
    let Some(kinds) = Kinds::new(&kinds[..count + count]) else {
        return Ok(0);
    };
    let Ok(office) = Exchange::open(alloc, plan, &kinds) else {
        return Ok(0);
    };
    let lineup = Lineup {
        office: Mutex::new(office),
        calls,
        pace: Pace::new(REGISTERS),
        to_dial: AtomicU64::new(0),
        to_complete: AtomicU64::new(0),
        dialled: calls.iter().map(|_| AtomicU64::new(0)).collect(alloc)?,
    };
    let _done = thread::map_indices(
        rt,
        alloc,
        count + count,
        &|worker: usize| { serve(rt, &lineup, worker as u32, worker < count) },
    )?;
    let jobs = lineup.office.lock(rt).records().len();
    Ok(jobs)
}
