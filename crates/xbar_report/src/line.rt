//! The lines of a report.

ghost use Rattle.std.specs.Prelude.{◌≡◌, ◌≢◌, MatchOption, IfOk, Some, [], IfSome};
ghost use Rattle.xbar_report.specs.Text.{record_line, trouble_line, end_fields, job_fields, path_field};
ghost use Rattle.xbar_report.specs.Parts.{end_name};

use crate::fields::{count_of, record_of, trouble_of};
use crate::ranges::line_is_in_range;
use std::alloc::{AllocError, Global};
use std::fmt;
use xbar_equip::Path;
use xbar_office::{Card, End, Job, Record};

/// A line of a report.
#[derive(Debug, Drop)]
pub enum Line {
    /// A record without its cards.
    Record(Record),
    Trouble(TroubleLine),
    /// The number of paths at the end of the run.
    Paths(u16),
    /// The number of closed crosspoints at the end of the run.
    Closed(u16),
}

impl Line {
    ghost use Rattle.xbar_report.specs.Bare.{bare_line};
    ghost use Rattle.xbar_report.specs.Draft.{IsTextOf};
    ghost use Rattle.xbar_report.specs.Line.{IsLine, line_text};
    ghost use Rattle.xbar_report.specs.declared.line.Line.{Line as TheLine};

    /// Reads the line with this text, which includes its line feed. Returns None if no line has
    /// it.
    pub fn read(alloc: Global, text: &[u8]) -> Result<Option<Self>, AllocError>
        ensures { IfOk result (λ found. MatchOption found
            ((line : TheLine) → IsLine line → text.now ≢ line_text line)
            (λ line. IsTextOf text.now line)) }
    {
        let Some(line) = Line::parse(text) else {
            return Ok(None);
        };
        let again = format!(in alloc; "{line}")?;
        if again.as_bytes() != text {
            return Ok(None);
        }
        line_is_in_range(&line);
        Ok(Some(line))
    }

    /// Parses a line leniently. It accepts some texts that no line has; `read` rejects them.
    fn parse(text: &[u8]) -> Option<Self>
        ensures reads { (line : TheLine) → IsLine line → text.now ≡ line_text line →
            result ≡ Some (bare_line line) }
        ensures bare { IfSome result (λ line. line ≡ bare_line line) }
    {
        let (first, _rest) = text.split_first()?;
        match *first {
            b'T' => Some(Line::Trouble(trouble_of(text)?)),
            b'P' => Some(Line::Paths(count_of(text)?)),
            b'C' => Some(Line::Closed(count_of(text)?)),
            _ => Some(Line::Record(record_of(text)?)),
        }
    }
}

impl fmt::Display for Line {
    ghost use Rattle.std.specs.Prelude.{Some};
    ghost use Rattle.xbar_report.specs.Line.{line_text};

    ghost output = { λ line. Some (line_text line) };

    fn fmt<W: fmt::Write>(&self, f: &mut fmt::Formatter<W>) -> fmt::Result {
        match self {
            Line::Record(record) => write!(f, "{}", RecordLine(record)),
            Line::Trouble(line) => write!(f, "{line}"),
            Line::Paths(paths) => writeln!(f, "PATHS,{paths}"),
            Line::Closed(closed) => writeln!(f, "CLOSED,{closed}"),
        }
    }
}

/// The line of a record, which doesn't show its cards.
#[derive(Clone, Copy)]
pub struct RecordLine<'a>(pub &'a Record);

impl fmt::Display for RecordLine<'_> {
    ghost output = { λ line. Some (record_line line.0.now) };

    fn fmt<W: fmt::Write>(&self, f: &mut fmt::Formatter<W>) -> fmt::Result {
        let Record {
            turn,
            marker,
            job_no,
            job,
            reply,
        } = self.0;
        let job = JobFields(job);
        let end = EndFields(&reply.end);
        writeln!(f, "{turn},{job_no},{marker},{job},{end}")
    }
}

/// A trouble card as in its line, with the turn and the job number of its record.
#[derive(Clone, Copy, Debug, PartialEq, Eq)]
pub struct TroubleLine {
    pub turn: u64,
    pub job_no: u32,
    pub card: Card,
}

impl fmt::Display for TroubleLine {
    ghost output = { λ line. Some (trouble_line line) };

    fn fmt<W: fmt::Write>(&self, f: &mut fmt::Formatter<W>) -> fmt::Result {
        let TroubleLine { turn, job_no, card } = self;
        writeln!(f, "TROUBLE,{turn},{job_no},{},{}", card.trial, card.link)
    }
}

/// The numbers of paths and of closed crosspoints at the end of a run.
#[derive(Clone, Copy, Debug, PartialEq, Eq)]
pub struct Counts {
    pub paths: u16,
    pub closed: u16,
}

/// The fields of an end: its name, trial, first path, second path.
#[derive(Clone, Copy)]
pub struct EndFields<'a>(pub &'a End);

impl fmt::Display for EndFields<'_> {
    ghost output = { λ fields. Some (end_fields fields.0.now) };

    fn fmt<W: fmt::Write>(&self, f: &mut fmt::Formatter<W>) -> fmt::Result {
        let name = name_of(self.0);
        match self.0 {
            End::DialTone { path, trial } => write!(f, "{name},{trial},{path},-"),
            End::Connected {
                calling,
                called,
                trial,
            } => write!(f, "{name},{trial},{calling},{}", PathField(called)),
            End::Released { own, other } => write!(f, "{name},-,{own},{}", PathField(other)),
            _ => write!(f, "{name},-,-,-"),
        }
    }
}

/// The name of an end in a record line.
pub fn name_of(end: &End) -> &'static str
    ensures { result.now ≡ end_name end.now }
{
    match end {
        End::DialTone { .. } => "DIALTONE",
        End::Connected { .. } => "CONNECTED",
        End::Released { .. } => "RELEASED",
        End::CalledBusy => "CALLEDBUSY",
        End::LineBusy => "LINEBUSY",
        End::RegistersBusy => "REGISTERSBUSY",
        End::TrunksBusy => "TRUNKSBUSY",
        End::NoPath => "NOPATH",
        End::Trouble => "TROUBLE",
        End::VacantCode => "VACANTCODE",
        End::VacantNumber => "VACANTNUMBER",
        End::NoRegister => "NOREGISTER",
        End::NoCall => "NOCALL",
    }
}

/// The fields of a job: kind, line, dialled.
#[derive(Clone, Copy)]
pub struct JobFields<'a>(pub &'a Job);

impl fmt::Display for JobFields<'_> {
    ghost output = { λ fields. Some (job_fields fields.0.now) };

    fn fmt<W: fmt::Write>(&self, f: &mut fmt::Formatter<W>) -> fmt::Result {
        match self.0 {
            Job::Dial(line) => write!(f, "D,{line},-"),
            Job::Complete(line, dialled) => write!(f, "C,{line},{dialled}"),
            Job::Release(line) => write!(f, "R,{line},-"),
        }
    }
}

/// The field of a path; `-` if there is none.
#[derive(Clone, Copy)]
pub struct PathField<'a>(pub &'a Option<Path>);

impl fmt::Display for PathField<'_> {
    ghost output = { λ field. Some (path_field field.0.now) };

    fn fmt<W: fmt::Write>(&self, f: &mut fmt::Formatter<W>) -> fmt::Result {
        match self.0 {
            Some(path) => write!(f, "{path}"),
            None => f.write_str("-"),
        }
    }
}
