//! Calls by markers on threads: by `run_desks`, unpaced and paced so that registers suffice; and
//! for comparison by the same number of workers on an office of `xbar_core` behind one lock.

ghost use Rattle.std.specs.Prelude.{◌≤◌, ◌<◌, All, IfOk};
ghost use Rattle.xbar_markers.specs.Calls.{HasCallNo};

mod locked;
mod paced;
mod pacing;

use crate::timing::nanoseconds_each;
use std::alloc::{AllocError, Global};
use std::io;
use std::rt::Clock;
use std::sync::Wait;
use std::thread::Threads;
use std::time::Instant;
use xbar_equip::{Dialled, Len};
use xbar_markers::Call;
use xbar_plan::Plan;

/// A call out of the office, which is released in the end. The calls are from 300 lines in
/// rotation.
fn call_out(no: u32) -> Call
    requires { no < 100000 }
    ensures { HasCallNo result }
{
    Call {
        call_no: no,
        line: Len::new((no % 10) as u8, (no / 10 % 10) as u8, (no / 100 % 3) as u8),
        digits: Dialled::new(5_551_234),
        release: true,
    }
}

/// Makes `count` calls.
fn calls(alloc: Global, count: u32) -> Result<Vec<Call>, AllocError>
    requires { count ≤ 100000 }
    ensures { IfOk result (λ calls. All HasCallNo calls.items) }
{
    let mut calls = Vec::new(alloc);
    for no in 0..count {
        calls.push(call_out(no))?;
    }
    Ok(calls)
}

/// Measures all of these, with 100 * `hundreds` calls, and prints the times.
pub fn measure<R: Eprint + Clock + Threads + Wait + Sync>(
    rt: &R,
    alloc: Global,
    plan: &Plan,
    hundreds: u32,
) -> io::Result<()>
    requires { hundreds ≤ 1000 }
{
    let calls = calls(alloc, hundreds * 100)?;
    let calls = calls.as_slice();
    for count in [1_usize, 2, 4] {
        for most in [calls.len(), pacing::REGISTERS] {
            paced::measure(rt, alloc, plan, calls, count, most)?;
        }
        let start = Instant::now(rt)?;
        let jobs = locked::work(rt, alloc, plan, calls, count)?;
        let job = nanoseconds_each(start.elapsed(rt)?, 1, jobs as u64);
        eprintln!(rt; "{count} and {count} workers, behind one lock: {job} ns a job of {jobs}")?;
    }
    Ok(())
}
