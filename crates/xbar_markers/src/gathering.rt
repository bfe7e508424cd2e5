//! Gathers desks and records from workers at the end of a run.

ghost use Rattle.std.specs.Prelude.{◌≡◌, ◌++◌, IfOk, IsPermutation, OnOk, flat_map, map};
ghost use Rattle.std.specs.List.Sorted.{IsNonDecreasingBy};
ghost use Rattle.fair_queue.specs.Items.{SameItems};
ghost use Rattle.xbar_markers.specs.Calls.{records_of};

use crate::call_records::CallRecords;
use crate::gate::Gate;
use crate::lists::put_behind;
use crate::worker::Worker;
use std::alloc::{AllocError, Global};
use xbar_fabric::Desk;
use xbar_office::Record;

/// Appends a call's records.
fn put_records(records: &mut Vec<Record>, call: CallRecords) -> Result<(), AllocError>
    ensures { OnOk result (records.new.items ≡ records.old.items ++ records_of call) }
{
    let CallRecords {
        dial,
        complete,
        release,
        ..
    } = call;
    put_behind(records, dial)?;
    if let Some(complete) = complete {
        put_behind(records, complete)?;
    }
    if let Some(release) = release {
        put_behind(records, release)?;
    }
    Ok(())
}

/// The records of all calls, call by call.
fn all_records(alloc: Global, calls: Vec<CallRecords>) -> Result<Vec<Record>, AllocError>
    ensures { IfOk result (λ records. records.items ≡ flat_map records_of calls.items) }
{
    // A call has at most three jobs.
    let mut records = Vec::with_capacity(alloc, calls.len().saturating_mul(3))?;
    for call in calls {
        put_records(&mut records, call)?;
    }
    Ok(records)
}

/// Sorts records by their turns.
fn sort_by_turn(records: &mut Vec<Record>) -> Result<(), AllocError>
    ensures permuted { IsPermutation records.old.items records.new.items }
    ensures order { OnOk result (IsNonDecreasingBy (λ r. r.turn) records.new.items) }
{
    records.sort_by_cached_key(|record| record.turn)
}

/// The records of all calls, in the order of their turns.
pub fn in_turn_order(alloc: Global, calls: Vec<CallRecords>) -> Result<Vec<Record>, AllocError>
    ensures records { IfOk result (λ records.
        SameItems (flat_map records_of calls.items) records.items) }
    ensures order { IfOk result (λ records. IsNonDecreasingBy (λ r. r.turn) records.items) }
{
    let mut records = all_records(alloc, calls)?;
    sort_by_turn(&mut records)?;
    Ok(records)
}

/// The desks of workers, in their order.
pub fn desks_of<G: Gate + Drop>(
    alloc: Global,
    workers: Vec<Worker<Desk, G>>,
) -> Result<Vec<Desk>, AllocError>
    ensures { IfOk result (λ desks. desks.items ≡ map (λ worker. worker.desk) workers.items) }
{
    let mut desks = Vec::with_capacity(alloc, workers.len())?;
    for worker in workers {
        put_behind(&mut desks, worker.desk)?;
    }
    Ok(desks)
}
