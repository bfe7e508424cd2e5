//! Does the rows of a replay in an office.

ghost use Rattle.std.specs.Prelude.{◌≡◌, ◌+◌, ◌<◌, ◌≤◌, ◌^◌, ◌⊎◌, All, IfOk, None, OnErr, drop, length, slice_get, take};
ghost use Rattle.xbar_moves.specs.Exchange.{fresh_exchange};
ghost use Rattle.xbar_moves.specs.Moves.{assigned, refusal, steps};
ghost use Rattle.xbar_traffic.specs.Row.{IsRow, mode_of};
ghost use Rattle.xbar_traffic.specs.declared.row.Mode.{Mode};
ghost use Rattle.xbar_traffic.specs.declared.row.Row.{Row as TheRow};
ghost use Rattle.xbar_walk.specs.Observers.{ChangesAs};
ghost use Rattle.crossbar5.specs.Rows.{IsUnrefusedJob, after_rows, assignment_fault, done, no_marker_fault, row_fault};
ghost use Rattle.crossbar5.specs.Run.{outcome_by, outcome_from, outcome_of, reached};
ghost use Rattle.crossbar5.specs.Walk.{walk_after_row, walk_after_rows};

use std::alloc::{AllocError, Global};
use xbar_core::{AssignFault, Exchange, Kinds};
use xbar_office::Job;
use xbar_plan::Plan;
use xbar_traffic::{MarkerFault, Row, RowFault, Traffic, TrafficFault};
use xbar_walk::{Observer, Unobserved};

/// Assigns a job to a marker, or returns why it can't. Without memory it may have been assigned.
fn assign<O: Observer>(
    office: &mut Exchange<'_>,
    marker: u32,
    job_no: u32,
    job: Job,
    observer: &mut O,
) -> Result<Option<MarkerFault>, AllocError>
    ensures fault { IfOk result (λ fault. fault ≡
        assignment_fault (refusal office.old.exchange marker job)) }
    ensures done { IfOk result (λ fault. fault ≡ None →
        office.new ≡
        record office.old { exchange = assigned marker job_no job office.old.exchange }) }
    ensures observed { IfOk result (λ fault. fault ≡ None →
        ChangesAs O.Describes (walk_after_row (TheRow.Assign marker job_no job))
        office.old observer.old office.new observer.new) }
    ensures memory { OnErr result (refusal office.old.exchange marker job ≡ None) }
{
    match office.assign(marker, job_no, job) {
        Ok(()) => {
            observer.assigned(marker, job_no, &job)?;
            Ok(None)
        }
        Err(AssignFault::NoMarker) => Ok(Some(MarkerFault::NoMarker)),
        Err(AssignFault::NotIdle) => Ok(Some(MarkerFault::NotIdle)),
        Err(AssignFault::WrongKind) => Ok(Some(MarkerFault::WrongKind)),
        Err(AssignFault::Memory) => Err(AllocError),
    }
}

/// Makes `count` steps of a marker, or returns that the marker doesn't exist.
#[tactic(auto, unfolding(crate::specs::Walk::walk_after_row))]
fn make_steps<O: Observer>(
    office: &mut Exchange<'_>,
    marker: u32,
    count: u32,
    observer: &mut O,
) -> Result<Option<MarkerFault>, AllocError>
    ensures fault { IfOk result (λ fault. fault ≡
        no_marker_fault (slice_get office.old.exchange.markers marker)) }
    ensures done { IfOk result (λ fault. fault ≡ None → office.new ≡
        record office.old { exchange = steps office.old.plan marker count office.old.exchange }) }
    ensures observed { IfOk result (λ fault. fault ≡ None →
        ChangesAs O.Describes (walk_after_row (TheRow.Steps marker count))
        office.old observer.old office.new observer.new) }
    ensures fails { OnErr result O.MayFail }
{
    if marker >= office.marker_count() {
        return Ok(Some(MarkerFault::NoMarker));
    }
    observer.steps(office, marker, count)?;
    Ok(None)
}

/// Does a row of a replay, or returns why it can't. Only a job that nothing refuses, or the
/// observer, needs memory.
fn do_row<O: Observer>(
    office: &mut Exchange<'_>,
    row: &Row,
    observer: &mut O,
) -> Result<Option<MarkerFault>, AllocError>
    requires range { IsRow row.now }
    requires mode { mode_of row.now ≡ Mode.Replay }
    ensures fault { IfOk result (λ fault. fault ≡ row_fault office.old.exchange row.now) }
    ensures done { IfOk result (λ fault. fault ≡ None →
        office.new ≡
        record office.old { exchange = done office.old.plan office.old.exchange row.now }) }
    ensures observed { IfOk result (λ fault. fault ≡ None →
        ChangesAs O.Describes (walk_after_row row.now)
        office.old observer.old office.new observer.new) }
    ensures memory { OnErr result (IsUnrefusedJob office.old.exchange row.now ⊎ O.MayFail) }
{
    match row {
        Row::Assign {
            marker,
            job_no,
            job,
        } => assign(office, *marker, *job_no, *job, observer),
        Row::Steps { marker, count } => make_steps(office, *marker, *count, observer),
        Row::Call { .. } => unreachable!(),
    }
}

/// Does rows one after another, up to the first that can't be done. Returns that row's fault, with
/// the row's number. The first row has the number `first`.
pub fn do_rows<O: Observer>(
    office: &mut Exchange<'_>,
    first: u64,
    rows: &[Row],
    observer: &mut O,
) -> Result<Option<TrafficFault>, AllocError>
    requires range { All IsRow rows.now }
    requires mode { All (λ row. mode_of row ≡ Mode.Replay) rows.now }
    requires numbers { first + length rows.now < 2 ^ 64 }
    ensures reached { IfOk result (λ fault.
        outcome_from office.old.plan office.old.exchange first rows.now None
        ≡ outcome_by fault office.new.exchange) }
    ensures done { IfOk result (λ fault. fault ≡ None → office.new ≡ record office.old {
      exchange = after_rows office.old.plan rows.now office.old.exchange;
    }) }
    ensures observed { IfOk result (λ fault. fault ≡ None →
        ChangesAs O.Describes (walk_after_rows rows.now)
        office.old observer.old office.new observer.new) }
{
    for (index, row) in rows.iter().enumerate() {
        if let Some(why) = do_row(office, row, observer)? {
            return Ok(Some(TrafficFault {
                row: first + index as u64,
                fault: RowFault::Marker(why),
            }));
        }
    }
    Ok(None)
}

/// Opens an office and does the rows of traffic in it, the first `unobserved` of them unobserved.
/// Returns the office, or the first fault: of a row that can't be done, or of the row after all
/// that were read.
pub fn reach<'p, O: Observer>(
    alloc: Global,
    plan: &'p Plan,
    kinds: &Kinds,
    traffic: &Traffic,
    unobserved: usize,
    observer: &mut O,
) -> Result<Result<Exchange<'p>, TrafficFault>, AllocError>
    requires range { All IsRow traffic.now.rows.items }
    requires mode { All (λ row. mode_of row ≡ Mode.Replay) traffic.now.rows.items }
    requires within { unobserved ≤ length traffic.now.rows.items }
    ensures reached { IfOk result (λ came.
        reached plan.now kinds.now traffic.now.rows.items traffic.now.fault ≡ outcome_of came) }
    ensures plan { IfOk result (λ came. IfOk came (λ office. office.plan ≡ plan.now)) }
    ensures observed { IfOk result (λ came. IfOk came (λ office.
        let rows = traffic.now.rows.items in
        let before = after_rows plan.now (take unobserved rows) (fresh_exchange kinds.now) in
        ChangesAs O.Describes (walk_after_rows (drop unobserved rows))
        (record { plan = plan.now; exchange = before }) observer.old office observer.new)) }
{
    let mut office = Exchange::open(alloc, plan, kinds)?;
    let (before, rows) = traffic.rows.split_at(unobserved);
    if let Some(fault) = do_rows(&mut office, 1, before, &mut Unobserved)? {
        return Ok(Err(fault));
    }
    if let Some(fault) = do_rows(&mut office, unobserved as u64 + 1, rows, observer)? {
        return Ok(Err(fault));
    }
    match traffic.refusal() {
        Some(fault) => Ok(Err(fault)),
        None => Ok(Ok(office)),
    }
}
