//! The engine: from a plan and the bytes of an input to a text and a status, with a diagnostic if
//! the plan or the input is refused.

ghost use Rattle.std.specs.Prelude.{◌≡◌, ◌≢◌, Err, IfOk, IfSome, List, OnOk, ℕ};
ghost use Rattle.std.specs.Io.KnownBytes.{IsAtEnd};
ghost use Rattle.counted_io.specs.Counts.{HasFailed, ReadsUsedUp};
ghost use Rattle.crossbar5.specs.PlanPlaces.{ShowsPlaceIn};
ghost use Rattle.crossbar5.specs.PlanRefusal.{IsRefusedPlan, plan_in};
ghost use Rattle.crossbar5.specs.Tasks.{IsDone, IsDoneUnder};
ghost use Rattle.crossbar5.specs.Walk.{detail_of as detail_for};

use crate::audit::audit_text;
use crate::draw::draw_text;
use crate::looks::look;
use crate::run::replay;
use crate::walk::walk;
use crate::{EngineFault, Input, PlanSource, Written, read_input};
use counted_io::Source;
use crossbar5_task::{Task, WalkForm};
use std::alloc::{AllocError, Global};
use xbar_moves::Kinds;
use xbar_plan::Plan;
use xbar_walk::Detail;

/// Does a task with this plan and all that the source gives. `kinds` are those of the markers,
/// marker 0 first; they count only for tasks on rows.
///
/// The plan is judged first, then the input. If the plan is refused, the source is left unread. The
/// input is read to its end before its first line is checked.
pub fn do_task<R: Source>(
    alloc: Global,
    task: Task,
    plan: PlanSource<'_>,
    kinds: &Kinds,
    source: &mut R,
) -> Result<Written, EngineFault>
    ensures done { IfOk result (λ written. (input : List ℕ) ×
        IfSome (R.remaining source.old) (λ all. input ≡ all) ×
        IsDone task kinds.now (plan_in plan.entry) input written.text.items written.status) }
    ensures place { IfOk result (λ written.
        IsRefusedPlan (plan_in plan.entry) → ShowsPlaceIn plan.entry written.diagnostic) }
    ensures device { result ≡ Err EngineFault.Device
        → HasFailed (R.failure_count source.old) (R.failure_count source.new) }
    ensures no_failure { result ≢ Err EngineFault.Device
        → R.failure_count source.new ≡ R.failure_count source.old }
    ensures long { result ≡ Err EngineFault.Long →
        ReadsUsedUp (R.read_count source.old) (R.read_count source.new) }
    ensures unread { IsRefusedPlan (plan_in plan.entry) → source.new ≡ source.old }
    ensures end { OnOk result
        (¬ IsRefusedPlan (plan_in plan.entry) → IsAtEnd (R.remaining source.new)) }
{
    match read_input(alloc, plan, source)? {
        Input::Read { plan, bytes } => Ok(written(alloc, task, &plan, kinds, &bytes)?),
        Input::Refused(written) => Ok(written),
    }
}

/// Does the task with this plan, markers of these kinds and the whole input. The kinds don't count for records.
fn written(
    alloc: Global,
    task: Task,
    plan: &Plan,
    kinds: &Kinds,
    input: &[u8],
) -> Result<Written, AllocError>
    ensures { IfOk result (λ written.
        IsDoneUnder task kinds.now plan.now input.now written.text.items written.status) }
{
    match task {
        Task::Replay => replay(alloc, plan, kinds, input),
        Task::Walk(form) => walk(alloc, plan, kinds, detail_of(form), input),
        Task::Look(form) => look(alloc, plan, kinds, form, input),
        Task::Audit => audit_text(alloc, plan, input),
        Task::Draw(form) => draw_text(alloc, plan, form, input),
    }
}

/// How a walk of this form describes events.
fn detail_of(form: WalkForm) -> Detail
    ensures { result ≡ detail_for form }
{
    match form {
        WalkForm::Each => Detail::Each,
        WalkForm::Short => Detail::Short,
        WalkForm::Json => Detail::JsonLines,
    }
}
