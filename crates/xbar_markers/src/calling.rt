//! Calls in, and one legal history of exactly these calls out.

ghost use Rattle.std.specs.Prelude.{◌≡◌, ◌+◌, All, IfOk, vec_len};
ghost use Rattle.xbar_markers.specs.Calls.{HasCallNo};
ghost use Rattle.xbar_markers.specs.Gates.{AreForMarkers};
ghost use Rattle.xbar_markers.specs.Outcomes.{IsOutcome};

use crate::call::Call;
use crate::call_markers::CallMarkers;
use crate::gate::Gate;
use crate::opening::open_desks;
use crate::running::run_desks;
use fair_queue::laws::same_items_are_as_many;
use std::alloc::{AllocError, Global};
use std::sync::Wait;
use std::thread::Threads;
use xbar_fabric::shut_all;
use xbar_office::{Office, Record, audit};
use xbar_plan::Plan;

/// The result of a run of calls.
#[derive(Drop)]
pub struct Outcome<'p> {
    /// The records of all jobs, in turn order.
    pub records: Vec<Record>,
    /// The one-marker office after these records.
    pub office: Office<'p>,
    /// The shared words at the end, each at the index of its number.
    pub words: Vec<u64>,
}

/// Does calls with these markers, each on its own thread. Gate `k` is for marker `k`. The calls'
/// numbers should be distinct, so that their jobs' are.
pub fn run_calls<'p, G: Gate + Send + Drop, R: Threads + Wait + Sync>(
    rt: &R,
    alloc: Global,
    plan: &'p Plan,
    calls: &[Call],
    markers: &CallMarkers,
    gates: Vec<G>,
) -> Result<Outcome<'p>, AllocError>
    requires call_nos { All HasCallNo calls.now }
    requires gates { vec_len gates ≡ markers.now.dialling + markers.now.completing }
    requires for_markers { AreForMarkers G.IsAt gates.items }
    ensures { IfOk result
        (IsOutcome plan.now markers.now.dialling markers.now.completing calls.now) }
{
    // Called only for its contract.
    same_items_are_as_many::<Record>();
    let (fabric, desks) = open_desks(alloc, plan, markers)?;
    let (desks, records) = run_desks(rt, alloc, &fabric, desks, calls, gates)?;
    let Ok(words) = shut_all(alloc, fabric, desks) else {
        return Err(AllocError);
    };
    // Legal records have no fault: what an audit of them may lack is memory.
    let Ok(office) = audit(alloc, plan, records.as_slice()) else {
        return Err(AllocError);
    };
    Ok(Outcome {
        records,
        office,
        words,
    })
}
