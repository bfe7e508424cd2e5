//! Replays: traffic is done in an office, and its outcome is written as text.

ghost use Rattle.std.specs.Prelude.{IfOk, ◌≡◌, ◌≢◌, ◌⊎◌, Err, IfErr, IfSome, List, OnOk, ℕ};
ghost use Rattle.xbar_moves.specs.Settling.{settled as settled_office};
ghost use Rattle.crossbar5.specs.Run.{IsOneHistory, IsReplayUnder, IsWrittenOf, Leaves, IsReplay};
ghost use Rattle.std.specs.Io.KnownBytes.{Appends, IsAtEnd, Keeps};
ghost use Rattle.counted_io.specs.Counts.{HasFailed, ReadsUsedUp};
ghost use Rattle.crossbar5.specs.Faults.{ComesFirst};
ghost use Rattle.crossbar5.specs.PlanRefusal.{IsRefusedPlan};
ghost use Rattle.xbar_plan_text.specs.Document.{plan_of};

use crate::engine::do_task;
use crate::rows::reach;
use crate::{EngineFault, PlanSource, Status, Written, refused};
use counted_io::{Sink, Source, write_all};
use crossbar5_task::Task;
use std::alloc::{AllocError, Global};
use xbar_core::Exchange;
use xbar_match::{count_closed, count_paths};
use xbar_moves::Kinds;
use xbar_plan::Plan;
use xbar_report::report;
use xbar_traffic::{Mode, Traffic};
use xbar_walk::{Unobserved, settle};

/// Settles the office, and reports its records and counts.
fn settled(alloc: Global, mut office: Exchange<'_>) -> Result<Written, AllocError>
    ensures written { IfOk result (λ written.
        IsWrittenOf (Leaves
        (settled_office office.entry.plan office.entry.exchange)) written.text.items
        written.status) }
    ensures history { IfOk result (λ written.
        IsOneHistory office.entry.plan (settled_office office.entry.plan office.entry.exchange)) }
{
    settle(&mut office, &mut Unobserved)?;
    // Called only for its clauses.
    xbar_core::laws::jobs_act_at_their_turns();
    let paths = count_paths(office.words());
    let closed = count_closed(office.words());
    Ok(Written {
        text: report(alloc, office.records(), paths, closed)?,
        status: Status::Fine,
        diagnostic: Ok(None),
    })
}

/// Replays the traffic of these bytes.
pub fn replay(
    alloc: Global,
    plan: &Plan,
    kinds: &Kinds,
    bytes: &[u8],
) -> Result<Written, AllocError>
    ensures { IfOk result (λ written.
        IsReplayUnder plan.now kinds.now bytes.now written.text.items written.status) }
{
    let traffic = Traffic::read(alloc, Mode::Replay, bytes)?;
    match reach(alloc, plan, kinds, &traffic, 0, &mut Unobserved)? {
        Ok(office) => settled(alloc, office),
        Err(fault) => refused(alloc, Mode::Replay, bytes, fault),
    }
}

/// Replays the traffic from the source, in an office with the plan of this text and markers of
/// these kinds, as `do_task` does, and writes the text to the sink once it is complete. How much was
/// written before a `Device` fault is unspecified.
pub fn run_replay<R: Source, W: Sink>(
    alloc: Global,
    plan: &[u8],
    kinds: &Kinds,
    source: &mut R,
    sink: &mut W,
) -> Result<Status, EngineFault>
    ensures replay { IfOk result (λ status. (traffic text : List ℕ) ×
        IfSome (R.remaining source.old) (λ all. traffic ≡ all) ×
        IsReplay (plan_of plan.now) kinds.now traffic text status ×
        Appends (W.contents sink.old) (W.contents sink.new) text) }
    ensures unread { IsRefusedPlan (plan_of plan.now) → source.new ≡ source.old }
    ensures end { OnOk result (¬ IsRefusedPlan (plan_of plan.now)
        → IsAtEnd (R.remaining source.new)) }
    ensures long { result ≡ Err EngineFault.Long →
        ReadsUsedUp (R.read_count source.old) (R.read_count source.new) }
    ensures unwritten { IfErr result (λ fault. ComesFirst fault →
        Keeps (W.contents sink.old) (W.contents sink.new)) }
    ensures device { result ≡ Err EngineFault.Device
        → HasFailed (R.failure_count source.old) (R.failure_count source.new)
        ⊎ HasFailed (W.failure_count sink.old) (W.failure_count sink.new) }
    ensures no_failure { result ≢ Err EngineFault.Device
        → (R.failure_count source.new ≡ R.failure_count source.old)
        × (W.failure_count sink.new ≡ W.failure_count sink.old) }
{
    let plan = PlanSource::Text(plan);
    let replay = do_task(alloc, Task::Replay, plan, kinds, source)?;
    write_all(sink, &replay.text)?;
    Ok(replay.status)
}
