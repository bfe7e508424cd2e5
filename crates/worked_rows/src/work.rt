ghost use Rattle.std.specs.Prelude.{◌≡◌, ◌↔◌, IfSome, IsTrue, Some, option_map, string_bytes};
ghost use Rattle.worked_rows.specs.Agreement.{Agrees};

use crate::row::{Row, Verb};
use crossbar5::{Counted, EngineFault, PlanSource, Written, do_task, kinds_for};
use crossbar5_task::Task;
use std::alloc::{AllocError, Global};
use std::fmt;

/// What the engine made of a row.
#[derive(Drop)]
pub struct RowResult {
    pub text: Vec<u8>,
    pub status: i64,
    /// The sentence on what was refused, if there is one.
    pub diagnostic: Option<String>,
}

impl RowResult {
    /// The result of a row whose markers are refused.
    fn without_markers(alloc: Global) -> Result<Self, AllocError> {
        Ok(RowResult {
            text: String::from_str(alloc, "the markers are refused")?.into_bytes(),
            status: 2,
            diagnostic: None,
        })
    }

    /// Whether this is what the row expects. The sentence is compared only if the row has one.
    pub fn is_as_expected(&self, row: &Row<'_>) -> bool
        ensures { IsTrue result ↔ Agrees self.now row.now }
    {
        self.text.as_slice() == row.output.as_bytes()
            && self.status == row.status
            && is_told(&self.diagnostic, row.diagnostic)
    }
}

/// Whether the sentence is the wanted one, if one is wanted.
fn is_told(told: &Option<String>, wanted: Option<&str>) -> bool
    ensures { IsTrue result ↔ IfSome wanted.entry
        (λ wanted. option_map string_bytes told.now ≡ Some wanted.now) }
{
    match (told, wanted) {
        (_, None) => true,
        (Some(told), Some(wanted)) => told.as_str() == wanted,
        (None, Some(_)) => false,
    }
}

impl fmt::Display for RowResult {
    fn fmt<W: fmt::Write>(&self, f: &mut fmt::Formatter<W>) -> fmt::Result {
        let text = str::from_utf8(&self.text).unwrap_or("no text");
        let diagnostic = self.diagnostic.as_deref().unwrap_or("no diagnostic");
        let status = self.status;
        write!(f, "status {status}, {diagnostic}, and this:\n{text}")
    }
}

/// Runs the engine on a row. If it fails, the text is its fault, and the status is 1.
pub fn run_row(alloc: Global, row: &Row<'_>) -> Result<RowResult, AllocError> {
    match done(alloc, row) {
        Ok(found) => Ok(found),
        Err(fault) => Ok(RowResult {
            text: fault.to_string(alloc)?.into_bytes(),
            status: 1,
            diagnostic: None,
        }),
    }
}

/// Does the row's task or tasks.
fn done(alloc: Global, row: &Row<'_>) -> Result<RowResult, EngineFault> {
    let input = row.input.as_bytes();
    match row.verb {
        Verb::Task(task) => written(alloc, task, row, input),
        Verb::ReplayAndAudit => {
            let mut found = written(alloc, Task::Replay, row, input)?;
            let audit = written(alloc, Task::Audit, row, &found.text)?;
            if found.status == 0 {
                found.status = audit.status;
            }
            Ok(found)
        }
    }
}

/// Does a task with the engine, in the row's office.
fn written(
    alloc: Global,
    task: Task,
    row: &Row<'_>,
    input: &[u8],
) -> Result<RowResult, EngineFault> {
    let Some(kinds) = kinds_for(task, row.markers.as_bytes()) else {
        return Ok(RowResult::without_markers(alloc)?);
    };
    let plan = PlanSource::Text(row.plan.as_bytes());
    let Written {
        text,
        status,
        diagnostic,
    } = do_task(alloc, task, plan, &kinds, &mut Counted::new(input))?;
    let diagnostic = match diagnostic? {
        Some(diagnostic) => Some(diagnostic.to_string(alloc)?),
        None => None,
    };
    Ok(RowResult {
        text,
        status: i64::from(status.number()),
        diagnostic,
    })
}
