use std::{fmt, io};
use xbar_diagnostics::{KindsDiagnostic, PlanDiagnostic, ReportDiagnostic, TrafficDiagnostic};

/// What is wrong with the program's input or with a device. `Display` writes the line for standard
/// error, without its line end: the program's name and a sentence.
#[derive(Debug, Drop)]
pub enum Sentence<'w> {
    /// The letters of the markers' kinds name none.
    Kinds(KindsDiagnostic<'w>),
    /// Live calls can't have these numbers of markers.
    LiveMarkers {
        dialling: u32,
        completing: u32,
    },
    /// The value of an option isn't a number of markers.
    NotMarkerCount,
    /// The plan in this file is refused.
    Plan {
        file: &'w str,
        diagnostic: PlanDiagnostic,
    },
    /// The traffic is refused.
    Traffic(TrafficDiagnostic),
    /// The text of records is refused.
    Report(ReportDiagnostic),
    /// The records are wrong, so nothing is drawn.
    NothingDrawn,
    /// The plan's file with this name can't be read. The reason is the system's, if it is known.
    PlanUnreadable {
        file: &'w str,
        reason: Option<io::Error>,
    },
    PlanTooLong(&'w str),
    InputUnreadable,
    InputTooLong,
    OutputUnwritable,
}

impl fmt::Display for Sentence<'_> {
    ghost use Rattle.crossbar5_cli.specs.Sentences.{text_of};

    ghost output = { text_of };

    fn fmt<W: fmt::Write>(&self, f: &mut fmt::Formatter<W>) -> fmt::Result {
        f.write_str("crossbar5: ")?;
        match self {
            Sentence::Kinds(diagnostic) => write!(f, "{diagnostic}"),
            Sentence::LiveMarkers {
                dialling,
                completing,
            } => write!(
                f,
                "--dial {dialling} --completing {completing}: expected at most 48 markers in all, at least one of each kind"
            ),
            Sentence::Plan { file, diagnostic } => write!(f, "{file}: {diagnostic}"),
            Sentence::NotMarkerCount => f.write_str("expected a number of markers from 1 to 47"),
            Sentence::Traffic(diagnostic) => write!(f, "{diagnostic}"),
            Sentence::Report(diagnostic) => write!(f, "{diagnostic}"),
            Sentence::NothingDrawn => f.write_str(
                "nothing is drawn, since the records are wrong under this plan; if they were made with another, name it with --plan",
            ),
            Sentence::PlanUnreadable { file, reason } => write_unreadable(f, file, reason),
            Sentence::PlanTooLong(file) => write!(f, "the plan {file} is too long"),
            Sentence::InputUnreadable => f.write_str("cannot read standard input"),
            Sentence::InputTooLong => f.write_str("standard input is too long"),
            Sentence::OutputUnwritable => f.write_str("cannot write standard output"),
        }
    }
}

fn write_unreadable<W: fmt::Write>(
    f: &mut fmt::Formatter<W>,
    file: &str,
    reason: &Option<io::Error>,
) -> fmt::Result {
    write!(f, "cannot read the plan {file}")?;
    match reason {
        Some(reason) => write!(f, ": {reason}"),
        None => Ok(()),
    }
}
