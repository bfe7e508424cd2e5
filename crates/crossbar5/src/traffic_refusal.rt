//! What is written for traffic that is refused.

ghost use Rattle.std.specs.Prelude.{IfOk};
ghost use Rattle.xbar_traffic.specs.Fault.{fault_line};
ghost use Rattle.crossbar5.specs.Refusal.{ReportsFaultOf};
ghost use Rattle.crossbar5.specs.TrafficRefusal.{IsTrafficRefusal};

use crate::written::{Diagnostic, Status, Written};
use std::alloc::{AllocError, Global};
use xbar_diagnostics::{TrafficDiagnostic, traffic_diagnostic};
use xbar_traffic::{Mode, TrafficFault};

/// What is written for traffic of these bytes and this mode that is refused for this fault.
pub fn refused(
    alloc: Global,
    mode: Mode,
    bytes: &[u8],
    fault: TrafficFault,
) -> Result<Written, AllocError>
    ensures { IfOk result (λ written. IsTrafficRefusal fault written.text.items written.status) }
{
    Ok(Written {
        text: fault.text(alloc)?.into_bytes(),
        status: Status::TrafficRefused,
        diagnostic: diagnostic_of(alloc, mode, bytes, fault),
    })
}

/// The diagnostic of traffic refused for this fault. It has no place if none is found.
fn diagnostic_of(
    alloc: Global,
    mode: Mode,
    bytes: &[u8],
    fault: TrafficFault,
) -> Result<Option<Diagnostic>, AllocError>
    ensures { ReportsFaultOf result (fault_line fault) Status.TrafficRefused }
{
    match traffic_diagnostic(alloc, mode, bytes, fault) {
        Ok(Some(diagnostic)) => Ok(Some(Diagnostic::Traffic(diagnostic))),
        Ok(None) => Ok(Some(Diagnostic::Traffic(TrafficDiagnostic::without_place(fault)))),
        Err(error) => Err(error),
    }
}
