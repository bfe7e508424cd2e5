//! Calls done by markers, each on its own thread, and a job that goes from one worker to another.

ghost use Rattle.std.specs.Prelude.{◌≡◌, ◌+◌, ◌<◌, All, IfOk, vec_len};
ghost use Rattle.xbar_markers.specs.Calls.{HasCallNo};
ghost use Rattle.xbar_markers.specs.Gates.{AreForMarkers};

use crate::fixtures::example;
use std::alloc::{AllocError, Global};
use std::process::Abort;
use std::sync::Wait;
use std::thread::Threads;
use xbar_equip::{Dialled, Len};
use xbar_markers::{Call, CallMarkers, Gate, OpenGate, Outcome, run_calls};
use xbar_plan::Plan;

mod doing;
mod gates;
mod handing;
mod overlapping;
mod refused;

/// How many markers dial, and how many complete calls.
#[derive(Clone, Copy, Debug)]
struct Workers {
    dialling: usize,
    completing: usize,
}

/// A call to another office.
fn call_out(call_no: u32, line: Len, release: bool) -> Call
    requires { call_no < 10000 }
    ensures { HasCallNo result }
{
    Call {
        call_no,
        line,
        digits: Dialled::new(5_551_234),
        release,
    }
}

/// Does the calls, which has to succeed.
fn run<'p, G: Gate + Send + Drop, R: Threads + Wait + Sync + Abort>(
    rt: &R,
    alloc: Global,
    plan: &'p Plan,
    calls: &[Call],
    workers: Workers,
    gates: Vec<G>,
) -> Outcome<'p>
    requires call_nos { All HasCallNo calls.now }
    requires gates { vec_len gates ≡ workers.dialling + workers.completing }
    requires for_markers { AreForMarkers G.IsAt gates.items }
{
    let Some(markers) = CallMarkers::new(workers.dialling, workers.completing) else {
        panic!(rt; "these are markers for calls");
    };
    let outcome = run_calls(rt, alloc, plan, calls, &markers, gates);
    outcome.expect(rt, "the calls are done")
}
