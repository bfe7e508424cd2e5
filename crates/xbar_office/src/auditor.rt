//! Audits records: are they those of jobs that one marker did whole, one after another?

ghost use Rattle.std.specs.Prelude.{◌≡◌, MatchResult, MatchOption, IfOk, IfErr};
ghost use Rattle.xbar_office.specs.Audit.{IsFaultOf, IsFirstWrongTurn};
ghost use Rattle.xbar_office.specs.Legal.{IsLegal, HaveTurns, after};

use crate::audit_fault::AuditFault;
use crate::laws::job_is_in_range;
use crate::office::Office;
use crate::reply::Record;
use std::alloc::Global;
use xbar_plan::Plan;

/// The first index, counted from 0, whose record does not have the turn of its index.
pub fn first_wrong_turn(records: &[Record]) -> Option<usize>
    ensures { MatchOption result (HaveTurns 0 records.now)
        (λ place. IsFirstWrongTurn records.now place) }
{
    for (place, record) in records.iter().enumerate() {
        if record.turn != place as u64 {
            return Some(place);
        }
    }
    None
}

/// Does the jobs of the records whole, and compares the replies.
fn replay<'p>(alloc: Global, plan: &'p Plan, records: &[Record]) -> Result<Office<'p>, AuditFault>
    requires { HaveTurns 0 records.now }
    ensures { MatchResult result (λ office. IsLegal plan.now records.now ×
        (office ≡ record { plan = plan.now; paths = after plan.now records.now }))
        (λ fault. IsFaultOf plan.now records.now fault) }
{
    let mut office = Office::open(alloc, plan);
    for record in records {
        job_is_in_range(&record.job);
        let reply = office.whole(record.job)?;
        if !reply.is_same(&record.reply) {
            return Err(AuditFault::Reply { turn: record.turn });
        }
    }
    Ok(office)
}

/// Returns the office after these records if they are legal: record `i` has turn `i`, and the
/// reply of the one-marker office, which begins with no path and does the jobs whole, one after
/// another.
pub fn audit<'p>(
    alloc: Global,
    plan: &'p Plan,
    records: &[Record],
) -> Result<Office<'p>, AuditFault>
    ensures legal { IfOk result (λ office. IsLegal plan.now records.now ×
        (office ≡ record { plan = plan.now; paths = after plan.now records.now })) }
    ensures fault { IfErr result (IsFaultOf plan.now records.now) }
{
    if let Some(place) = first_wrong_turn(records) {
        return Err(AuditFault::Turns { place });
    }
    replay(alloc, plan, records)
}
