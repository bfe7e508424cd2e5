//! What the engine writes: a text and a status, with a diagnostic of what it refused.

ghost use Rattle.crossbar5.specs.Refusal.{ReportsFaultOf};

use std::alloc::AllocError;
use std::fmt;
use xbar_diagnostics::{PlanDiagnostic, ReportDiagnostic, TrafficDiagnostic};

/// How a run ended that had no `EngineFault`.
#[derive(Clone, Copy, Debug, PartialEq, Eq)]
pub enum Status {
    /// The traffic was done; or the records to be audited or drawn are legal, and their counts, if
    /// any, are right.
    Fine,
    /// The plan was refused. The text is the line that says why.
    PlanRefused,
    /// A row of the traffic was refused. The text is the line that says why.
    TrafficRefused,
    /// The input to be audited or drawn isn't a text of records. The text is the line that says
    /// where.
    ReportRefused,
    /// The records aren't legal, or their counts aren't right. The text says what is wrong.
    FoundWrong,
}

impl Status {
    ghost use Rattle.std.specs.Prelude.{◌≡◌};
    ghost use Rattle.crossbar5.specs.Statuses.{status_number};

    /// Its number: the program's exit status, and the status of the library's answer.
    pub fn number(self) -> u8
        ensures { result ≡ status_number self }
    {
        match self {
            Status::Fine => 0,
            Status::PlanRefused => 3,
            Status::TrafficRefused | Status::ReportRefused => 4,
            Status::FoundWrong => 7,
        }
    }
}

/// What is wrong with a refused plan, traffic or text of records, and where. `Display` writes it
/// as a sentence.
#[derive(Debug, Drop)]
pub enum Diagnostic {
    Plan(PlanDiagnostic),
    Traffic(TrafficDiagnostic),
    Report(ReportDiagnostic),
}

impl fmt::Display for Diagnostic {
    fn fmt<W: fmt::Write>(&self, f: &mut fmt::Formatter<W>) -> fmt::Result {
        match self {
            Diagnostic::Plan(diagnostic) => write!(f, "{diagnostic}"),
            Diagnostic::Traffic(diagnostic) => write!(f, "{diagnostic}"),
            Diagnostic::Report(diagnostic) => write!(f, "{diagnostic}"),
        }
    }
}

/// The text of a run, its status, and a diagnostic if it refused something. The diagnostic is an
/// error if memory for it ran out.
#[derive(Debug, Drop)]
pub struct Written {
    pub text: Vec<u8>,
    pub status: Status,
    pub diagnostic: Result<Option<Diagnostic>, AllocError>,
    pub ghost refusal: { ReportsFaultOf diagnostic text.items status },
}
