//! Opens shared words with the desks that calls need.

ghost use Rattle.std.specs.Prelude.{◌≡◌, ◌+◌, IfOk};
ghost use Rattle.xbar_fabric.specs.Meetings.{AreAllIdle};
ghost use Rattle.xbar_fabric.specs.Views.{new_desks};
ghost use Rattle.xbar_markers.specs.DesksByKind.{AreDesksByKind, kinds_of};

use crate::call_markers::CallMarkers;
use std::alloc::{AllocError, Global};
use xbar_fabric::{Desk, Fabric};
use xbar_plan::Plan;

/// Opens shared words with an idle desk of each of these markers.
pub fn open_desks<'p>(
    alloc: Global,
    plan: &'p Plan,
    markers: &CallMarkers,
) -> Result<(Fabric<'p>, Vec<Desk>), AllocError>
    ensures fabric { IfOk result (λ opened. (opened.0.plan ≡ plan.now)
        × (opened.0.count ≡ markers.now.dialling + markers.now.completing)) }
    ensures desks { IfOk result (λ opened.
        opened.1.items ≡ new_desks opened.0 0 (kinds_of markers.now.dialling markers.now.completing)) }
    ensures by_kind { IfOk result (λ opened. AreDesksByKind opened.1.items opened.0) }
    ensures idle { IfOk result (λ opened. AreAllIdle opened.1.items opened.0) }
{
    let opened = Fabric::open(alloc, plan, markers.kinds())?;
    Ok(opened)
}
