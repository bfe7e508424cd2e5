//! Audits: records are compared with the one-marker office.

ghost use Rattle.std.specs.Prelude.{◌≡◌, ◌↔◌, IfOk, IsTrue, List, Option};
ghost use Rattle.xbar_office.specs.Audit.{IsFirstWrongReply};
ghost use Rattle.xbar_office.specs.Legal.{HaveTurns, IsLegal, after};
ghost use Rattle.xbar_office.specs.declared.reply.Record.{Record as TheRecord};
ghost use Rattle.xbar_report.specs.Sheet.{IsReport};
ghost use Rattle.xbar_report.specs.Text.{records_text};
ghost use Rattle.xbar_report.specs.declared.line.Counts.{Counts as TheCounts};
ghost use Rattle.crossbar5.specs.Refusal.{ReportsFaultOf};
ghost use Rattle.crossbar5.specs.Audit.{AreRightCounts, IsAuditUnder, IsFoundIn, IsFoundOf, finding_status, finding_text};

use crate::finding::{Finding, OfficeCounts};
use crate::{Diagnostic, Written};
use std::alloc::{AllocError, Global};
use xbar_diagnostics::report_diagnostic;
use xbar_office::{AuditFault, Office, Record, Reply, audit};
use xbar_plan::Plan;
use xbar_report::{Counts, Report, ReportFault, read};

/// Audits a text of records.
pub fn audit_text(alloc: Global, plan: &Plan, text: &[u8]) -> Result<Written, AllocError>
    ensures { IfOk result (λ written.
        IsAuditUnder plan.now text.now written.text.items written.status) }
{
    let finding = find(alloc, plan, text)?;
    Ok(Written {
        text: finding.text(alloc)?.into_bytes(),
        status: finding.status(),
        diagnostic: diagnostic_of(alloc, &finding, text),
    })
}

/// The diagnostic of a text that isn't one of records. None for other findings.
fn diagnostic_of(
    alloc: Global,
    finding: &Finding,
    text: &[u8],
) -> Result<Option<Diagnostic>, AllocError>
    ensures { ReportsFaultOf result (finding_text finding.now) (finding_status finding.now) }
{
    match finding {
        Finding::NoReport { line } => match report_diagnostic(alloc, text, *line) {
            Ok(diagnostic) => Ok(Some(Diagnostic::Report(diagnostic))),
            Err(error) => Err(error),
        },
        Finding::Legal { .. }
        | Finding::WrongCounts { .. }
        | Finding::WrongReply { .. }
        | Finding::WrongTurn { .. } => Ok(None),
    }
}

/// Reads a text of records and judges them.
fn find(alloc: Global, plan: &Plan, text: &[u8]) -> Result<Finding, AllocError>
    ensures found { IfOk result (IsFoundIn plan.now text.now) }
    ensures only { (list : List TheRecord) (counts : Option TheCounts) → IsReport list counts →
        text.now ≡ records_text list counts → IfOk result (IsFoundOf plan.now list counts) }
{
    match read(alloc, text) {
        Ok(report) => judge(alloc, plan, &report),
        Err(ReportFault::Line { number }) => Ok(Finding::NoReport { line: number }),
        Err(ReportFault::Turns { place }) => Ok(Finding::WrongTurn { place }),
        Err(ReportFault::Memory) => Err(AllocError),
    }
}

/// Judges records that have the turns from 0 on, and then their counts.
fn judge(alloc: Global, plan: &Plan, report: &Report) -> Result<Finding, AllocError>
    requires { HaveTurns 0 report.now.records.items }
    ensures { IfOk result (IsFoundOf plan.now report.now.records.items report.now.counts) }
{
    match audit(alloc, plan, &report.records) {
        Ok(office) => judge_counts(alloc, &office, report),
        Err(AuditFault::Reply { turn }) => wrong_reply(alloc, plan, &report.records, turn),
        Err(AuditFault::Turns { .. }) => unreachable!(),
        Err(AuditFault::Memory) => Err(AllocError),
    }
}

/// Judges the counts of legal records, which leave this office.
fn judge_counts(alloc: Global, office: &Office<'_>, report: &Report) -> Result<Finding, AllocError>
    requires legal { IsLegal office.now.plan report.now.records.items }
    requires paths { office.now.paths ≡ after office.now.plan report.now.records.items }
    ensures { IfOk result (IsFoundOf office.now.plan report.now.records.items report.now.counts) }
{
    let standing = OfficeCounts {
        paths: office.paths().len(),
        closed: office.crosspoints(alloc)?.len(),
    };
    if !are_right(&report.counts, standing) {
        return Ok(Finding::WrongCounts { standing });
    }
    let count = report.records.len();
    Ok(Finding::Legal { count, standing })
}

/// Whether the counts in the text, if any, are these.
fn are_right(counts: &Option<Counts>, standing: OfficeCounts) -> bool
    ensures { IsTrue result ↔ AreRightCounts counts.now standing }
{
    match counts {
        Some(counts) => {
            usize::from(counts.paths) == standing.paths
                && usize::from(counts.closed) == standing.closed
        }
        None => true,
    }
}

/// The finding on the record of this turn, which is the first with a wrong reply.
fn wrong_reply(
    alloc: Global,
    plan: &Plan,
    records: &[Record],
    turn: u64,
) -> Result<Finding, AllocError>
    requires turns { HaveTurns 0 records.now }
    requires wrong { IsFirstWrongReply plan.now records.now turn }
    ensures { (counts : Option TheCounts) → IfOk result (IsFoundOf plan.now records.now counts) }
{
    let (before, rest) = records.split_at(turn as usize);
    let Some(given) = rest.first() else {
        unreachable!()
    };
    let mut office = office_after(alloc, plan, before)?;
    let reply = office.whole(given.job)?;
    Ok(Finding::WrongReply {
        given: with_reply(given, given.reply.copy()),
        right: with_reply(given, reply),
    })
}

/// The office after the jobs of these records. Their replies are ignored.
pub fn office_after<'p>(
    alloc: Global,
    plan: &'p Plan,
    records: &[Record],
) -> Result<Office<'p>, AllocError>
    ensures { IfOk result (λ office.
        office ≡ record { plan = plan.now; paths = after plan.now records.now }) }
{
    let mut office = Office::open(alloc, plan);
    for record in records {
        office.whole(record.job)?;
    }
    Ok(office)
}

/// A copy of the record with this reply.
fn with_reply(given: &Record, reply: Reply) -> Record
    ensures { result ≡ record given.now { reply = reply } }
{
    Record { reply, ..*given }
}
