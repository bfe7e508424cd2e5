//! Live traffic: its calls are done on threads, and their outcome is written as text.

ghost use Rattle.std.specs.Prelude.{◌≡◌, ◌+◌, ◌<◌, All, IfOk, IfSome, List, ℕ, option_to_list, vec_len};
ghost use Rattle.xbar_equip.specs.Word.{word_count};
ghost use Rattle.xbar_plan.specs.Tables.{Tables};
ghost use Rattle.xbar_traffic.specs.Row.{IsRow};
ghost use Rattle.xbar_markers.specs.Calls.{HasCallNo};
ghost use Rattle.xbar_markers.specs.Gates.{AreForMarkers};
ghost use Rattle.xbar_markers.specs.Outcomes.{IsOutcome};
ghost use Rattle.xbar_markers.specs.declared.call.Call.{Call as CallView};
ghost use Rattle.crossbar5_live.specs.Live.{IsLiveUnder, IsTextOfCalls, calls_in, calls_of};

use crossbar5::{Status, Written, refused};
use std::alloc::{AllocError, Global};
use std::sync::Wait;
use std::thread::Threads;
use xbar_markers::{Call, CallMarkers, Gate, Outcome, run_calls};
use xbar_match::{count_closed, count_paths};
use xbar_plan::Plan;
use xbar_report::report;
use xbar_traffic::{Mode, Row, Traffic};

/// The call that a row asks for, if it asks for one.
fn call_of(row: &Row) -> Option<Call>
    requires { IsRow row.now }
    ensures call { option_to_list result ≡ calls_in row.now }
    ensures call_no { IfSome result HasCallNo }
{
    match *row {
        Row::Call {
            call_no,
            line,
            dialled,
            release,
        } => Some(Call {
            call_no,
            line,
            digits: dialled,
            release,
        }),
        Row::Assign { .. } | Row::Steps { .. } => None,
    }
}

/// The calls that rows ask for.
fn calls(alloc: Global, rows: &[Row]) -> Result<Vec<Call>, AllocError>
    requires { All IsRow rows.now }
    ensures calls { IfOk result (λ calls. calls.items ≡ calls_of rows.now) }
    ensures call_nos { IfOk result (λ calls. All HasCallNo calls.items) }
{
    let mut calls = Vec::new(alloc);
    for row in rows {
        if let Some(call) = call_of(row) {
            calls.push(call)?;
        }
    }
    Ok(calls)
}

/// The text of the outcome of calls: their records, and the counts after them.
fn text_of_calls(alloc: Global, outcome: &Outcome) -> Result<Vec<u8>, AllocError>
    requires { vec_len outcome.now.words ≡ word_count }
    ensures { IfOk result (λ text. (plan : Tables) (dialling completing : ℕ) (calls : List CallView)
        → IsOutcome plan dialling completing calls outcome.now
        → IsTextOfCalls plan dialling completing calls text.items) }
{
    let words = outcome.words.as_slice();
    let paths = count_paths(words);
    let closed = count_closed(words);
    report(alloc, outcome.records.as_slice(), paths, closed)
}

/// Does the live traffic of these bytes with these markers.
pub fn live<G: Gate + Send + Drop, R: Threads + Wait + Sync>(
    rt: &R,
    alloc: Global,
    plan: &Plan,
    markers: &CallMarkers,
    gates: Vec<G>,
    bytes: &[u8],
) -> Result<Written, AllocError>
    requires gates { vec_len gates ≡ markers.now.dialling + markers.now.completing }
    requires for_markers { AreForMarkers G.IsAt gates.items }
    ensures { IfOk result (λ written. IsLiveUnder plan.now markers.now.dialling
        markers.now.completing bytes.now written.text.items written.status) }
{
    let traffic = Traffic::read(alloc, Mode::Live, bytes)?;
    if let Some(fault) = traffic.refusal() {
        return refused(alloc, Mode::Live, bytes, fault);
    }
    let calls = calls(alloc, traffic.rows.as_slice())?;
    let outcome = run_calls(rt, alloc, plan, &calls, markers, gates)?;
    Ok(Written {
        text: text_of_calls(alloc, &outcome)?,
        status: Status::Fine,
        diagnostic: Ok(None),
    })
}
