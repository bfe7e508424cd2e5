//! The work that a command line asks for, and how it is done.

ghost use Rattle.std.specs.Prelude.{◌≡◌, ◌≢◌, ◌⊎◌, ℕ, Err, IfErr, IfOk, IfSome, List, OnOk, ◌↔◌, None};
ghost use Rattle.std.specs.Io.KnownBytes.{IsAtEnd, Keeps};
ghost use Rattle.counted_io.specs.Counts.{HasFailed, ReadsUsedUp};
ghost use Rattle.crossbar5.specs.Faults.{ComesFirst};
ghost use Rattle.crossbar5.specs.PlanRefusal.{IsRefusedPlan, plan_in};
ghost use Rattle.crossbar5_cli.specs.Work.{IsAnswer, IsDiagnosticOf, IsWorkDone, output_of, reasons_of, is_output};
ghost use Rattle.crossbar5_cli.specs.CheckedWork.{IsCheckedOf, RefusesMarkers};
ghost use Rattle.crossbar5.specs.Refusal.{HasItsStatus};

use counted_io::{Sink, Source, write_all};
use crossbar5::{Diagnostic, EngineFault, PlanSource, Status, Written, do_task, kinds_for};
use crossbar5_command::Work;
use crossbar5_live::{do_live, open_gates};
use crossbar5_task::Task;
use std::alloc::{AllocError, Global};
use std::sync::Wait;
use std::thread::Threads;
use xbar_markers::CallMarkers;
use xbar_moves::Kinds;

/// The work that a command line asks for, with markers that are valid.
#[derive(Drop)]
pub enum CheckedWork {
    /// A task of the engine, with the kinds of its markers. Those of a task on records don't count.
    Task { task: Task, kinds: Kinds },
    /// Calls by these markers on threads.
    Live(CallMarkers),
}

impl CheckedWork {
    /// This work, or None if its markers are refused.
    pub fn new(work: &Work) -> Option<Self>
        ensures checked { IfSome result (IsCheckedOf work.now) }
        ensures refused { (result ≡ None) ↔ RefusesMarkers work.now }
    {
        match work {
            Work::Task { task, kinds } => {
                let task = *task;
                let kinds = kinds_for(task, kinds.as_bytes())?;
                Some(CheckedWork::Task { task, kinds })
            }
            Work::Live {
                dialling,
                completing,
            } => {
                let markers = CallMarkers::new(*dialling as usize, *completing as usize)?;
                Some(CheckedWork::Live(markers))
            }
        }
    }

    /// Whether its text is its output if it ends with this status. The text of a drawing that isn't
    /// made says why.
    pub fn is_output(&self, status: Status) -> bool
        ensures { result ≡ is_output self.now status }
    {
        match self {
            CheckedWork::Task {
                task: Task::Draw(_),
                ..
            } => status == Status::Fine,
            CheckedWork::Task { .. } | CheckedWork::Live(_) => true,
        }
    }
}

/// What the engine answered to work whose output was written whole.
#[derive(Debug, Drop)]
pub struct Response {
    pub status: Status,
    /// What is wrong with the plan, the traffic or the text of records that was refused. None if
    /// nothing was refused, an error if memory for it ran out.
    pub diagnostic: Result<Option<Diagnostic>, AllocError>,
    /// Why nothing is drawn: the lines that an audit of the records writes, or the plan's fault
    /// line. Empty if the office is drawn, and for all other work.
    pub reasons: Vec<u8>,
    pub ghost refusal: { HasItsStatus diagnostic status },
}

/// What to type as the input of the work, with an example.
pub fn input_of(work: &CheckedWork) -> &'static str {
    match work {
        CheckedWork::Task { task, .. } if task.is_on_rows() => {
            "rows, such as J,0,1,D,3041 and S,0,128,,"
        }
        CheckedWork::Task { .. } => "records, as a replay prints them",
        CheckedWork::Live(_) => "calls, such as C,7,3041,5551234,R",
    }
}

/// Does the work with this plan and this input.
fn done<T: Threads + Wait + Sync, R: Source>(
    threads: &T,
    alloc: Global,
    work: &CheckedWork,
    plan: PlanSource<'_>,
    input: &mut R,
) -> Result<Written, EngineFault>
    ensures done { IfOk result (λ written. (input_text : List ℕ) ×
        IfSome (R.remaining input.old) (λ all. input_text ≡ all) ×
        IsWorkDone work.now (plan_in plan.entry) input_text written.text.items written.status) }
    ensures device { result ≡ Err EngineFault.Device
        → HasFailed (R.failure_count input.old) (R.failure_count input.new) }
    ensures no_failure { result ≢ Err EngineFault.Device
        → R.failure_count input.new ≡ R.failure_count input.old }
    ensures unread { IsRefusedPlan (plan_in plan.entry) → input.new ≡ input.old }
    ensures end { OnOk result
        (¬ IsRefusedPlan (plan_in plan.entry) → IsAtEnd (R.remaining input.new)) }
    ensures long { result ≡ Err EngineFault.Long →
        ReadsUsedUp (R.read_count input.old) (R.read_count input.new) }
{
    match work {
        CheckedWork::Task { task, kinds } => do_task(alloc, *task, plan, kinds, input),
        CheckedWork::Live(markers) => {
            let gates = open_gates(alloc, markers)?;
            do_live(threads, alloc, plan, markers, gates, input)
        }
    }
}

/// Does the work with this plan and this input, and writes its text to the output. For a drawing
/// only the drawing is written: if the plan or the records are refused, or the records are wrong,
/// the text is returned as the `reasons` of the response.
pub fn answer<T: Threads + Wait + Sync, R: Source, W: Sink>(
    threads: &T,
    alloc: Global,
    work: &CheckedWork,
    plan: PlanSource<'_>,
    input: &mut R,
    output: &mut W,
) -> Result<Response, EngineFault>
    ensures done { IfOk result (λ answer. IsAnswer work.now (plan_in plan.entry)
        (R.remaining input.old) (W.contents output.old) (W.contents output.new)
        answer.status answer.reasons.items) }
    ensures diagnostic { IfOk result (λ answer. IsDiagnosticOf work.now (W.contents output.old)
        (W.contents output.new) answer.status answer.reasons.items answer.diagnostic) }
    ensures device { result ≡ Err EngineFault.Device
        → HasFailed (R.failure_count input.old) (R.failure_count input.new)
        ⊎ HasFailed (W.failure_count output.old) (W.failure_count output.new) }
    ensures no_failure { result ≢ Err EngineFault.Device
        → (R.failure_count input.new ≡ R.failure_count input.old)
        × (W.failure_count output.new ≡ W.failure_count output.old) }
    ensures unread { IsRefusedPlan (plan_in plan.entry) → input.new ≡ input.old }
    ensures end { OnOk result
        (¬ IsRefusedPlan (plan_in plan.entry) → IsAtEnd (R.remaining input.new)) }
    ensures long { result ≡ Err EngineFault.Long →
        ReadsUsedUp (R.read_count input.old) (R.read_count input.new) }
    ensures unwritten { IfErr result (λ fault. ComesFirst fault →
        Keeps (W.contents output.old) (W.contents output.new)) }
{
    let Written {
        text,
        status,
        diagnostic,
    } = done(threads, alloc, work, plan, input)?;
    let (text, reasons) = split_output(alloc, work, status, text);
    write_all(output, &text)?;
    Ok(Response {
        status,
        diagnostic,
        reasons,
    })
}

/// Splits the work's text into its output and the reasons why nothing is drawn. One is empty.
fn split_output(
    alloc: Global,
    work: &CheckedWork,
    status: Status,
    text: Vec<u8>,
) -> (Vec<u8>, Vec<u8>)
    ensures output { result.0.items ≡ output_of work.now status text.items }
    ensures reasons { result.1.items ≡ reasons_of work.now status text.items }
{
    if work.is_output(status) {
        (text, Vec::new(alloc))
    } else {
        (Vec::new(alloc), text)
    }
}
