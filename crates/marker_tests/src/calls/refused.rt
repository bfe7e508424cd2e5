//! A call with refused memory. This test passes whichever allocation is refused.

use super::*;
use test_tools::check_eq;

/// Does one call, which is released, or is refused memory.
fn check_call<R: Threads + Wait + Sync + Abort>(rt: &R, alloc: Global, plan: &Plan) {
    let calls = [call_out(7, Len::new(3, 0, 21), true)];
    let mut gates = Vec::new(alloc);
    if gates.resize(2, OpenGate).is_err() {
        return;
    }
    let Some(markers) = CallMarkers::new(1, 1) else {
        panic!(rt; "one marker of each kind is enough");
    };
    if let Ok(outcome) = run_calls(rt, alloc, plan, &calls, &markers, gates) {
        let counts = (outcome.records.len(), outcome.office.paths().len());
        check_eq!(rt; counts, (3, 0), "dialled, completed and released");
    }
}

#[test]
fn a_call_is_done_or_refused_memory(rt: HostRuntime) {
    if let Ok(plan) = Plan::example(rt.alloc()) {
        check_call(&rt, rt.alloc(), &plan);
    }
}
