ghost use Rattle.std.specs.Prelude.{◌≡◌, ◌+◌, IfOk, vec_len};

use std::alloc::{AllocError, Global};
use xbar_markers::{CallMarkers, OpenGate};

/// A gate that does nothing for each of these markers.
pub fn open_gates(alloc: Global, markers: &CallMarkers) -> Result<Vec<OpenGate>, AllocError>
    ensures { IfOk result
        (λ gates. vec_len gates ≡ markers.now.dialling + markers.now.completing) }
{
    let mut gates = Vec::new(alloc);
    gates.resize(markers.count(), OpenGate)?;
    Ok(gates)
}
