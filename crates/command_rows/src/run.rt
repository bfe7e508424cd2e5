ghost use Rattle.std.specs.Prelude.{◌≡◌, ◌↔◌, IsTrue};
ghost use Rattle.command_rows.specs.Agreement.{Agrees};

use crate::plan_file::PlanFile;
use crate::row::Row;
use crossbar5::Counted;
use crossbar5_cli::run_words;
use std::alloc::{AllocError, Global};
use std::fmt;
use std::sync::Wait;
use std::thread::Threads;

/// The last line of the version.
const BUILD: &str = "a kit and a commit";

/// What the program made of a row.
#[derive(Drop)]
pub struct RowResult {
    output: Vec<u8>,
    errors: Vec<u8>,
    status: i64,
}

impl RowResult {
    /// Whether this is what the row expects.
    pub fn is_as_expected(&self, row: &Row<'_>) -> bool
        ensures { IsTrue result ↔ Agrees self.now row.now }
    {
        row.output.is_met_by(&self.output)
            && row.errors.is_met_by(&self.errors)
            && self.status == row.status
    }
}

impl fmt::Display for RowResult {
    fn fmt<W: fmt::Write>(&self, f: &mut fmt::Formatter<W>) -> fmt::Result {
        let output = str::from_utf8(&self.output).unwrap_or("no text");
        let errors = str::from_utf8(&self.errors).unwrap_or("no text");
        let status = self.status;
        write!(
            f,
            "status {status}, on standard output:\n{output}and on standard error:\n{errors}"
        )
    }
}

/// Runs the program on a row.
pub fn run_row<T: Threads + Wait + Sync>(
    threads: &T,
    alloc: Global,
    row: &Row<'_>,
) -> Result<RowResult, AllocError> {
    let words = words_of(alloc, row)?;
    let mut input = Counted::new(row.input.as_bytes());
    let mut output = Counted::new(Vec::new(alloc));
    let mut errors = Counted::new(Vec::new(alloc));
    let exit = run_words(
        threads,
        alloc,
        &PlanFile { text: row.plan },
        &words,
        BUILD,
        &mut input,
        &mut output,
        &mut errors,
    );
    Ok(RowResult {
        output: output.into_inner(),
        errors: errors.into_inner(),
        status: i64::from(exit.status()),
    })
}

/// The program's name, and the words after it.
fn words_of<'a>(alloc: Global, row: &Row<'a>) -> Result<Vec<&'a str>, AllocError> {
    let mut words = Vec::new(alloc);
    words.push(row.program)?;
    if !row.words.is_empty() {
        for word in row.words.split(' ') {
            words.push(word)?;
        }
    }
    Ok(words)
}
