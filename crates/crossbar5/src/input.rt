//! The input of the engine: a plan, and all that a source gives.

ghost use Rattle.std.specs.Prelude.{◌≡◌, ◌≢◌, Err, IfErr, IfOk, OnOk};
ghost use Rattle.std.specs.Io.KnownBytes.{IsAtEnd};
ghost use Rattle.counted_io.specs.Counts.{HasFailed, ReadsUsedUp};
ghost use Rattle.xbar_plan_text.specs.Refusal.{fault_of};
ghost use Rattle.crossbar5.specs.Input.{IsInputOf, ShowsPlaceIfRefused};
ghost use Rattle.crossbar5.specs.PlanPlaces.{IsOnRefusal};
ghost use Rattle.crossbar5.specs.PlanRefusal.{IsPlanRefusal, IsRefusedPlan, plan_fault_line, plan_in};
ghost use Rattle.crossbar5.specs.Refusal.{ReportsFaultOf};

use crate::engine_fault::EngineFault;
use crate::written::{Diagnostic, Status, Written};
use counted_io::{Source, read_all};
use std::alloc::{AllocError, Global};
use xbar_diagnostics::PlanDiagnostic;
use xbar_plan::{Plan, PlanFault};
use xbar_plan_text::{PlanRefusal, PlanText};

/// Where the plan of an office comes from.
#[derive(Clone, Copy)]
pub enum PlanSource<'p> {
    /// It is the example plan.
    Example,
    /// It is read from a text in TOML.
    Text(&'p [u8]),
}

impl PlanSource<'_> {
    ghost use Rattle.xbar_plan_text.specs.Refusal.{IsToldReading};
    ghost use Rattle.crossbar5.specs.PlanPlaces.{malformed_of, missing_of};
    ghost use Rattle.crossbar5.specs.PlanRefusal.{plan_in};

    /// The plan, or the first fault of its text and where it is. `Memory` may be returned in place
    /// of a fault.
    pub fn read(self, alloc: Global) -> Result<Plan, PlanRefusal>
        ensures { IsToldReading (plan_in self.entry) (missing_of self.entry) (malformed_of self.entry)
            result }
    {
        match self {
            PlanSource::Example => Ok(Plan::example(alloc)?),
            PlanSource::Text(text) => Plan::parse(alloc, text),
        }
    }
}

/// A plan with the bytes of the input, or what is written for a plan that is refused.
#[derive(Drop)]
pub enum Input {
    Read { plan: Plan, bytes: Vec<u8> },
    Refused(Written),
}

/// What is written for a refused plan. Running out of memory is the engine's fault instead.
fn refuse_plan(alloc: Global, refusal: PlanRefusal) -> Result<Written, EngineFault>
    ensures written { IfOk result (λ written. (fault_of refusal ≢ PlanFault.Memory) ×
        IsPlanRefusal (fault_of refusal) written.text.items written.status) }
    ensures place { IfOk result (λ written. IsOnRefusal refusal written.diagnostic) }
    ensures why { IfErr result (λ why. why ≡ EngineFault.Memory) }
{
    let fault = refusal.fault();
    if fault == PlanFault::Memory {
        return Err(EngineFault::Memory);
    }
    Ok(Written {
        text: format!(in alloc; "FAULT,{fault}\n")?.into_bytes(),
        status: Status::PlanRefused,
        diagnostic: diagnostic_of(refusal),
    })
}

/// The diagnostic of a refused plan.
fn diagnostic_of(refusal: PlanRefusal) -> Result<Option<Diagnostic>, AllocError>
    ensures reports { ReportsFaultOf result (plan_fault_line (fault_of refusal))
        Status.PlanRefused }
    ensures place { IsOnRefusal refusal result }
{
    Ok(Some(Diagnostic::Plan(PlanDiagnostic { refusal })))
}

/// Reads the plan and then the input to its end. If the plan is refused, the source
/// is left unread.
pub fn read_input<R: Source>(
    alloc: Global,
    plan: PlanSource<'_>,
    source: &mut R,
) -> Result<Input, EngineFault>
    ensures input { IfOk result (IsInputOf (plan_in plan.entry) (R.remaining source.old)) }
    ensures place { IfOk result (ShowsPlaceIfRefused plan.entry) }
    ensures device { result ≡ Err EngineFault.Device
        → HasFailed (R.failure_count source.old) (R.failure_count source.new) }
    ensures no_failure { result ≢ Err EngineFault.Device
        → R.failure_count source.new ≡ R.failure_count source.old }
    ensures long { result ≡ Err EngineFault.Long →
        ReadsUsedUp (R.read_count source.old) (R.read_count source.new) }
    ensures unread { IsRefusedPlan (plan_in plan.entry) → source.new ≡ source.old }
    ensures end { OnOk result (¬ IsRefusedPlan (plan_in plan.entry) → IsAtEnd (R.remaining source.new)) }
{
    match plan.read(alloc) {
        Ok(plan) => {
            let bytes = read_all(alloc, source)?;
            Ok(Input::Read { plan, bytes })
        }
        Err(refusal) => Ok(Input::Refused(refuse_plan(alloc, refusal)?)),
    }
}
