//! Calls by `run_desks`, with a limit on those under way at once.

ghost use Rattle.std.specs.Prelude.{◌≤◌, All};
ghost use Rattle.xbar_markers.specs.Calls.{HasCallNo};

use super::pacing::Pace;
use crate::timing::nanoseconds_each;
use std::alloc::Global;
use std::io;
use std::rt::Clock;
use std::sync::Wait;
use std::thread::Threads;
use std::time::Instant;
use xbar_markers::{Call, CallMarkers, Gate, open_desks, run_desks};
use xbar_office::audit;
use xbar_plan::Plan;

/// A gate that makes markers that dial wait until few enough calls are yet to be completed.
#[derive(Clone, Copy)]
struct PacedGate<'a> {
    pace: &'a Pace,
    /// Markers with lower numbers dial, and the others complete calls.
    dialling: u32,
    /// Whether the next step is the first of a job to dial, if the marker dials.
    begins: bool,
}

impl Gate for PacedGate<'_> {
    fn pass(&mut self, marker: u32, _step: u64) {
        if self.begins {
            self.begins = false;
            if marker < self.dialling {
                self.pace.begin();
            }
        }
    }

    fn finished(&mut self, _marker: u32, job_no: u32) {
        match job_no % 3 {
            0 => self.begins = true,
            1 => self.pace.end(),
            _ => {}
        }
    }
}

/// Has `count` markers dial the calls, and as many complete them, each on a thread of its own,
/// with at most `most` calls under way at once. Prints the time of a job, from the opening of the
/// words to the records in turn order, and the time of a job's audit.
pub fn measure<R: Eprint + Clock + Threads + Wait + Sync>(
    rt: &R,
    alloc: Global,
    plan: &Plan,
    calls: &[Call],
    count: usize,
    most: usize,
) -> io::Result<()>
    requires call_nos { All HasCallNo calls.now }
    requires count { count ≤ 24 }
{
    let gate = PacedGate {
        pace: &Pace::new(most),
        dialling: count as u32,
        begins: true,
    };
    let gates = vec![in alloc; gate; count + count]?;
    let Some(markers) = CallMarkers::new(count, count) else {
        return Err(io::ErrorKind::InvalidInput.into());
    };
    let start = Instant::now(rt)?;
    let (fabric, desks) = open_desks(alloc, plan, &markers)?;
    let (_desks, records) = run_desks(rt, alloc, &fabric, desks, calls, gates)?;
    let time = start.elapsed(rt)?;
    let jobs = records.len() as u64;
    let job = nanoseconds_each(time, 1, jobs);
    let start = Instant::now(rt)?;
    let Ok(_office) = audit(alloc, plan, records.as_slice()) else {
        return Err(io::ErrorKind::InvalidData.into());
    };
    let audit = nanoseconds_each(start.elapsed(rt)?, 1, jobs);
    eprint!(rt; "{count} and {count} markers, {most} calls at once: ")?;
    eprintln!(rt; "{job} ns a job of {jobs}, and {audit} for its audit")
}
