//! What an audit finds.

use crate::Status;
use std::alloc::{AllocError, Global};
use std::fmt;
use xbar_office::Record;
use xbar_report::record_text;

/// The number of paths that are up, and of closed crosspoints.
#[derive(Clone, Copy)]
pub struct OfficeCounts {
    pub paths: usize,
    pub closed: usize,
}

impl fmt::Display for OfficeCounts {
    ghost use Rattle.std.specs.Prelude.{Some};
    ghost use Rattle.crossbar5.specs.Audit.{counts_text};

    ghost output = { λ standing. Some (counts_text standing) };

    fn fmt<W: fmt::Write>(&self, f: &mut fmt::Formatter<W>) -> fmt::Result {
        let OfficeCounts { paths, closed } = self;
        write!(f, "PATHS,{paths}\nCLOSED,{closed}\n")
    }
}

/// What an audit finds in a text.
#[derive(Drop)]
pub enum Finding {
    /// All `count` records are legal, and the counts in the text, if any, are right: those in
    /// `standing`.
    Legal {
        count: usize,
        standing: OfficeCounts,
    },
    /// The records are legal, but the counts in the text aren't those in `standing`.
    WrongCounts {
        standing: OfficeCounts,
    },
    /// The first record with a wrong reply, and the same record with the right one.
    WrongReply {
        given: Record,
        right: Record,
    },
    /// The first place, counted from 0, whose record doesn't have the turn of that number.
    WrongTurn {
        place: usize,
    },
    /// The text isn't one of records: its first line, counted from 1, that no text of records has
    /// there.
    NoReport {
        line: usize,
    },
}

impl Finding {
    ghost use Rattle.std.specs.Prelude.{◌≡◌, IfOk, string_bytes};
    ghost use Rattle.crossbar5.specs.Audit.{finding_status, finding_text};

    /// What the audit writes.
    pub fn text(&self, alloc: Global) -> Result<String, AllocError>
        ensures { IfOk result (λ text. string_bytes text ≡ finding_text self.now) }
    {
        match self {
            Finding::Legal { count, standing } => {
                format!(in alloc; "AUDIT,LEGAL,{count}\n{standing}")
            }
            Finding::WrongCounts { standing } => format!(in alloc; "AUDIT,COUNTS\n{standing}"),
            Finding::WrongReply { given, right } => {
                let turn = given.turn;
                let given = record_text(alloc, given)?;
                let right = record_text(alloc, right)?;
                format!(in alloc; "AUDIT,REPLY,{turn}\n{given}{right}")
            }
            Finding::WrongTurn { place } => format!(in alloc; "AUDIT,TURNS,{place}\n"),
            Finding::NoReport { line } => format!(in alloc; "FAULT,U1,{line}\n"),
        }
    }

    /// The status of the audit.
    pub fn status(&self) -> Status
        ensures { result ≡ finding_status self.now }
    {
        match self {
            Finding::Legal { .. } => Status::Fine,
            Finding::WrongCounts { .. } | Finding::WrongReply { .. } | Finding::WrongTurn { .. } =>
                Status::FoundWrong,
            Finding::NoReport { .. } => Status::ReportRefused,
        }
    }
}
