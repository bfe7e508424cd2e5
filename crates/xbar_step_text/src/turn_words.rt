//! Jobs, their turns and their ends, in words.

ghost use Rattle.std.specs.Prelude.{◌≡◌, ◌++◌, OnOk, Some, string_bytes};
ghost use Rattle.xbar_step_text.specs.Words.{and_path, end_words, job_words, turn_words};

use std::alloc::AllocError;
use std::fmt;
use xbar_equip::Path;
use xbar_office::{End, Job, Record};
use xbar_report::name_of;

/// A job in words.
#[derive(Clone, Copy)]
pub struct JobWords<'j>(pub &'j Job);

impl fmt::Display for JobWords<'_> {
    ghost output = { λ words. Some (job_words words.0.now) };

    #[tactic(auto, unfolding(crate::specs::Words::job_words))]
    fn fmt<W: fmt::Write>(&self, f: &mut fmt::Formatter<W>) -> fmt::Result {
        match self.0 {
            Job::Dial(line) => write!(f, "dial tone for line {line}"),
            Job::Complete(line, dialled) => write!(f, "call of line {line} to {dialled}"),
            Job::Release(line) => write!(f, "release of line {line}"),
        }
    }
}

/// A second path, after `and`; empty if there is none.
#[derive(Clone, Copy)]
struct AndPath<'p>(&'p Option<Path>);

impl fmt::Display for AndPath<'_> {
    ghost output = { λ path. Some (and_path path.0.now) };

    #[tactic(auto, unfolding(crate::specs::Words::and_path))]
    fn fmt<W: fmt::Write>(&self, f: &mut fmt::Formatter<W>) -> fmt::Result {
        match self.0 {
            Some(path) => write!(f, " and {path}"),
            None => Ok(()),
        }
    }
}

/// The end of a job in words.
#[derive(Clone, Copy)]
struct EndWords<'e>(&'e End);

impl fmt::Display for EndWords<'_> {
    ghost output = { λ words. Some (end_words words.0.now) };

    #[tactic(auto, unfolding(crate::specs::Words::end_words))]
    fn fmt<W: fmt::Write>(&self, f: &mut fmt::Formatter<W>) -> fmt::Result {
        match self.0 {
            End::DialTone { path, trial } => write!(f, "DIALTONE at trial {trial} by {path}"),
            End::Connected {
                calling,
                called,
                trial,
            } => {
                let called = AndPath(called);
                write!(f, "CONNECTED at trial {trial} by {calling}{called}")
            }
            End::Released { own, other } => {
                let other = AndPath(other);
                write!(f, "RELEASED, and takes out {own}{other}")
            }
            _ => f.write_str(name_of(self.0)),
        }
    }
}

/// Adds a turn in words, with the record that it added.
#[tactic(auto, unfolding(crate::specs::Words::turn_words))]
pub fn add_turn(text: &mut String, records: &[Record]) -> Result<(), AllocError>
    ensures { OnOk result (string_bytes text.new ≡ string_bytes text.old ++
        turn_words records.now) }
{
    match records {
        [record, ..] => {
            let turn = record.turn;
            let job_no = record.job_no;
            let end = EndWords(&record.reply.end);
            write!(text, "takes turn {turn}: job {job_no} ends {end}")?;
        }
        [] => text.push_str("takes its turn")?,
    }
    Ok(())
}
