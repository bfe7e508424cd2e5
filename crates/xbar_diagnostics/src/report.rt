//! Diagnostics of texts of records.

ghost use Rattle.std.specs.Prelude.{◌≡◌, IfOk};

use crate::quoted::Quoted;
use std::alloc::{AllocError, Global};
use std::fmt;

/// What is wrong with a text of records that was refused. Its sentence begins with the line.
#[derive(Debug, Drop)]
pub struct ReportDiagnostic {
    /// The first line that is wrong, counted from 1.
    pub line: usize,
    /// What the sentence says after the line's number.
    pub reason: String,
}

impl fmt::Display for ReportDiagnostic {
    fn fmt<W: fmt::Write>(&self, f: &mut fmt::Formatter<W>) -> fmt::Result {
        let ReportDiagnostic { line, reason } = self;
        write!(f, "records line {line}{reason} (U1)")
    }
}

/// Finds what is wrong with a text of records that was refused at this line, counted from 1.
pub fn report_diagnostic(
    alloc: Global,
    text: &[u8],
    line: usize,
) -> Result<ReportDiagnostic, AllocError>
    ensures { IfOk result (λ diagnostic. diagnostic.line ≡ line) }
{
    let reason = match line_of_number(text, line) {
        None => format!(in alloc; ": the text ends before this line")?,
        Some([.., b'\r', b'\n']) => {
            format!(in alloc; ": this line ends with CR LF, expected LF alone")?
        }
        Some([found @ .., b'\n']) => reason_of_other(alloc, found)?,
        Some(_) => format!(in alloc; ": the text ends within this line")?,
    };
    Ok(ReportDiagnostic { line, reason })
}

/// The reason for a line that is ended by LF alone.
fn reason_of_other(alloc: Global, found: &[u8]) -> Result<String, AllocError> {
    let found = Quoted(found);
    format!(in alloc;
        ", {found}: expected a record, and after all records their trouble cards and counts"
    )
}

/// The line of this number, counted from 1, with its line end. None after the last line.
fn line_of_number(text: &[u8], number: usize) -> Option<&[u8]> {
    text.split_inclusive(|byte| *byte == b'\n')
        .nth(number.checked_sub(1)?)
}
