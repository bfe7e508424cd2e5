//! Live traffic: from the bytes of a plan and of calls to those of the output, by markers on
//! threads, with a diagnostic if the plan or the traffic is refused.

ghost use Rattle.std.specs.Prelude.{◌≡◌, ◌≢◌, ◌⊎◌, Err, IfErr, IfOk, IfSome, List, OnOk, ℕ, ◌+◌, vec_len};
ghost use Rattle.std.specs.Io.KnownBytes.{Appends, IsAtEnd, Keeps};
ghost use Rattle.counted_io.specs.Counts.{HasFailed, ReadsUsedUp};
ghost use Rattle.xbar_markers.specs.Gates.{AreForMarkers};
ghost use Rattle.crossbar5.specs.Faults.{ComesFirst};
ghost use Rattle.crossbar5.specs.PlanPlaces.{ShowsPlaceIn};
ghost use Rattle.crossbar5.specs.PlanRefusal.{IsRefusedPlan, plan_in};
ghost use Rattle.crossbar5_live.specs.Live.{IsLive};

use crate::calls_text::live;
use counted_io::{Sink, Source, write_all};
use crossbar5::{EngineFault, Input, PlanSource, Status, Written, read_input};
use std::alloc::Global;
use std::sync::Wait;
use std::thread::Threads;
use xbar_markers::{CallMarkers, Gate};

/// Does the calls of the live traffic from the source, in an office with this plan and these
/// markers, each on a thread of its own and with a gate of its own. Gate `k` is for marker `k`.
///
/// The plan is judged first, then all rows of the traffic, before any call is done. If the plan is
/// refused, the source is left unread. It isn't promised that the calls end.
pub fn do_live<G: Gate + Send + Drop, T: Threads + Wait + Sync, R: Source>(
    rt: &T,
    alloc: Global,
    plan: PlanSource<'_>,
    markers: &CallMarkers,
    gates: Vec<G>,
    source: &mut R,
) -> Result<Written, EngineFault>
    requires gates { vec_len gates ≡ markers.now.dialling + markers.now.completing }
    requires for_markers { AreForMarkers G.IsAt gates.items }
    ensures live { IfOk result (λ written. (traffic : List ℕ) ×
        IfSome (R.remaining source.old) (λ all. traffic ≡ all) ×
        IsLive (plan_in plan.entry) markers.now.dialling markers.now.completing traffic
        written.text.items written.status) }
    ensures place { IfOk result (λ written.
        IsRefusedPlan (plan_in plan.entry) → ShowsPlaceIn plan.entry written.diagnostic) }
    ensures device { result ≡ Err EngineFault.Device
        → HasFailed (R.failure_count source.old) (R.failure_count source.new) }
    ensures no_failure { result ≢ Err EngineFault.Device
        → R.failure_count source.new ≡ R.failure_count source.old }
    ensures long { result ≡ Err EngineFault.Long →
        ReadsUsedUp (R.read_count source.old) (R.read_count source.new) }
    ensures unread { IsRefusedPlan (plan_in plan.entry) → source.new ≡ source.old }
    ensures end { OnOk result (¬ IsRefusedPlan (plan_in plan.entry)
        → IsAtEnd (R.remaining source.new)) }
{
    match read_input(alloc, plan, source)? {
        Input::Read { plan, bytes } => Ok(live(rt, alloc, &plan, markers, gates, &bytes)?),
        Input::Refused(written) => Ok(written),
    }
}

/// Does the calls of the live traffic from the source as `do_live` does, and writes their records
/// and the counts to the sink once they are complete. Returns only the status. How much was written
/// before a `Device` fault is unspecified.
pub fn run_live<G: Gate + Send + Drop, T: Threads + Wait + Sync, R: Source, W: Sink>(
    rt: &T,
    alloc: Global,
    plan: PlanSource<'_>,
    markers: &CallMarkers,
    gates: Vec<G>,
    source: &mut R,
    sink: &mut W,
) -> Result<Status, EngineFault>
    requires gates { vec_len gates ≡ markers.now.dialling + markers.now.completing }
    requires for_markers { AreForMarkers G.IsAt gates.items }
    ensures live { IfOk result (λ status. (traffic text : List ℕ) ×
        IfSome (R.remaining source.old) (λ all. traffic ≡ all) ×
        IsLive (plan_in plan.entry) markers.now.dialling markers.now.completing traffic text status ×
        Appends (W.contents sink.old) (W.contents sink.new) text) }
    ensures unread { IsRefusedPlan (plan_in plan.entry) → source.new ≡ source.old }
    ensures end { OnOk result (¬ IsRefusedPlan (plan_in plan.entry)
        → IsAtEnd (R.remaining source.new)) }
    ensures long { result ≡ Err EngineFault.Long →
        ReadsUsedUp (R.read_count source.old) (R.read_count source.new) }
    ensures unwritten { IfErr result (λ fault. ComesFirst fault →
        Keeps (W.contents sink.old) (W.contents sink.new)) }
    ensures device { result ≡ Err EngineFault.Device
        → HasFailed (R.failure_count source.old) (R.failure_count source.new)
        ⊎ HasFailed (W.failure_count sink.old) (W.failure_count sink.new) }
    ensures no_failure { result ≢ Err EngineFault.Device
        → (R.failure_count source.new ≡ R.failure_count source.old)
        × (W.failure_count sink.new ≡ W.failure_count sink.old) }
{
    let calls = do_live(rt, alloc, plan, markers, gates, source)?;
    write_all(sink, &calls.text)?;
    Ok(calls.status)
}
