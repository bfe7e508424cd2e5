//! How a run of the program ends: its exit status, and what it writes on standard error.

ghost use Rattle.std.specs.Prelude.{◌≡◌, None, Some, option_map};
ghost use Rattle.crossbar5.specs.Refusal.{HasItsStatus, status_of};
ghost use Rattle.crossbar5_cli.specs.Endings.{ending_of_run, exit_of, line_of};
ghost use Rattle.crossbar5_cli.specs.Sentences as specs;
ghost use Rattle.crossbar5_cli.specs.Sentences.{SpeaksOf, reasons_of_run};
ghost use Rattle.crossbar5.specs.declared.engine_fault.EngineFault.TheVariants.{Memory};
ghost use Rattle.crossbar5_cli.specs.declared.ended.Ending.TheVariants.{Failed};
ghost use Rattle.std.specs.Process.{exit_status};

use crate::sentence::Sentence;
use crate::work::Response;
use clap::error::ErrorKind;
use crossbar5::{Diagnostic, EngineFault, Status};
use crossbar5_command::Work;
use std::alloc::AllocError;
use std::io;
use std::process::ExitCode;
use xbar_diagnostics::kinds_diagnostic;

/// How a run of the program ends.
#[derive(Clone, Copy, Debug, PartialEq, Eq)]
pub enum Ending {
    /// The engine answered with this status.
    Answered(Status),
    /// Help or the version was printed.
    Printed,
    /// The words of the command line are refused.
    Refused,
    /// A word of the command line is not UTF-8 text.
    NotText,
    /// The markers that are asked for are refused.
    MarkersRefused,
    /// Memory ran out, a device failed, or an input is too long.
    Failed(EngineFault),
}

impl From<AllocError> for Ending {
    ghost from_gives = { λ _ ending. ending ≡ Failed Memory };

    fn from(_error: AllocError) -> Self {
        Ending::Failed(EngineFault::Memory)
    }
}

impl Ending {
    /// The exit status.
    pub fn status(self) -> u8
        ensures { result ≡ exit_of self }
    {
        match self {
            Ending::Answered(status) => status.number(),
            Ending::Printed => 0,
            Ending::Refused | Ending::NotText | Ending::MarkersRefused => 2,
            Ending::Failed(fault) => match fault {
                EngineFault::Long => 4,
                EngineFault::Memory => 5,
                EngineFault::Device => 6,
            },
        }
    }

    /// The line to write on standard error, if there is one.
    pub fn line(self) -> Option<&'static str>
        ensures { option_map (λ line. line.now) result ≡ line_of self }
    {
        let line = match self {
            Ending::Answered(_) | Ending::Printed | Ending::Refused => return None,
            Ending::NotText => "error: a word of the command line is not UTF-8 text",
            Ending::MarkersRefused => "FAULT,MARKERS",
            Ending::Failed(fault) => match fault {
                EngineFault::Long => "FAULT,LONG",
                EngineFault::Memory => "FAULT,MEMORY",
                EngineFault::Device => "FAULT,DEVICE",
            },
        };
        Some(line)
    }
}

/// How the program ended, and whether all messages were written.
#[derive(Clone, Copy, Debug, PartialEq, Eq)]
pub struct Exit {
    pub ending: Ending,
    /// Whether all that belongs on standard error was written there.
    pub is_printed: bool,
}

impl Exit {
    /// The exit status.
    pub fn status(self) -> u8
        ensures { result ≡ exit_of self.ending }
    {
        self.ending.status()
    }

    /// The exit status, for `main` to return.
    pub fn code(self) -> ExitCode
        ensures { exit_status result ≡ exit_of self.ending }
    {
        ExitCode::from(self.status())
    }
}

/// How a run of the program ends, with what is to be written on standard error.
#[derive(Debug, Drop)]
pub struct Ended<'w> {
    pub ending: Ending,
    /// Lines for standard error that say why nothing is drawn.
    pub reasons: Option<Vec<u8>>,
    pub sentence: Option<Sentence<'w>>,
    pub ghost fits: { SpeaksOf sentence ending },
}

impl<'w> Ended<'w> {
    /// An ending without reasons and without a sentence.
    pub fn plainly(ending: Ending) -> Self
        ensures ending { result.ending ≡ ending }
        ensures reasons { result.reasons ≡ None }
        ensures sentence { result.sentence ≡ None }
    {
        Ended::with(ending, None)
    }

    /// An ending without reasons. The sentence, if there is one, explains it.
    fn with(ending: Ending, sentence: Option<Sentence<'w>>) -> Self
        requires { SpeaksOf sentence ending }
        ensures ending { result.ending ≡ ending }
        ensures reasons { result.reasons ≡ None }
        ensures sentence { result.sentence ≡ sentence.entry }
    {
        Ended {
            ending,
            reasons: None,
            sentence,
        }
    }

    /// The end of a run of the engine. `file` is the name of the plan's file, if one is named, and
    /// `failures` the number of failures of the input in the run.
    pub fn of_run(run: Result<Response, EngineFault>, file: Option<&'w str>, failures: u64) -> Self
        ensures ending { result.ending ≡ ending_of_run run }
        ensures reasons { option_map (λ lines. lines.items) result.reasons ≡ reasons_of_run run }
        ensures sentence { result.sentence ≡ specs.sentence_on_run run file.entry failures }
    {
        match run {
            Ok(answer) => Ended::answered(answer, file),
            Err(fault) => {
                let sentence = sentence_on_fault(fault, failures);
                Ended::with(Ending::Failed(fault), sentence)
            }
        }
    }

    /// The end of a run in which the engine answered.
    fn answered(answer: Response, file: Option<&'w str>) -> Self
        ensures ending { result.ending ≡ Ending.Answered answer.status }
        ensures reasons { result.reasons ≡ Some answer.reasons }
        ensures sentence { result.sentence ≡ specs.sentence_on_answer file.entry answer }
    {
        let Response {
            status,
            diagnostic,
            reasons,
        } = answer;
        let sentence = sentence_on_answer(diagnostic, status, &reasons, file);
        Ended {
            ending: Ending::Answered(status),
            reasons: Some(reasons),
            sentence,
        }
    }

    /// The end of a run that was asked for with markers that are refused.
    pub fn of_refused_markers(work: &'w Work) -> Self
        ensures ending { result.ending ≡ Ending.MarkersRefused }
        ensures reasons { result.reasons ≡ None }
        ensures sentence { specs.IsOnMarkers work.now result.sentence }
    {
        Ended::with(Ending::MarkersRefused, sentence_on_markers(work))
    }

    /// The end of a run with a fault of the plan's file, if one is named, and with the system's
    /// reason, if it is known.
    pub fn of_plan_file(
        fault: EngineFault,
        file: Option<&'w str>,
        reason: Option<io::Error>,
    ) -> Self
        ensures ending { result.ending ≡ Ending.Failed fault }
        ensures reasons { result.reasons ≡ None }
        ensures sentence { result.sentence ≡ specs.sentence_on_plan_file fault file.entry reason }
    {
        let sentence = sentence_on_plan_file(fault, file, reason);
        Ended::with(Ending::Failed(fault), sentence)
    }

    /// The end of a run after clap's text of this kind: help, the version or a refusal of the
    /// words.
    pub fn of_printing(kind: ErrorKind, ending: Ending) -> Self
        ensures ending { result.ending ≡ ending }
        ensures reasons { result.reasons ≡ None }
        ensures sentence { result.sentence ≡ specs.sentence_on_printing kind ending }
    {
        Ended::with(ending, sentence_on_printing(kind, ending))
    }
}

/// The sentence on the markers that are asked for, which are refused.
fn sentence_on_markers(work: &Work) -> Option<Sentence<'_>>
    ensures fits { SpeaksOf result Ending.MarkersRefused }
    ensures sentence { specs.IsOnMarkers work.now result }
{
    match work {
        Work::Task { kinds, .. } => Some(Sentence::Kinds(kinds_diagnostic(kinds)?)),
        Work::Live {
            dialling,
            completing,
        } => Some(Sentence::LiveMarkers {
            dialling: *dialling,
            completing: *completing,
        }),
    }
}

/// The sentence on a diagnostic. If no file is named, there is none for a plan.
fn sentence_on_diagnostic(diagnostic: Diagnostic, file: Option<&str>) -> Option<Sentence<'_>>
    ensures fits { SpeaksOf result (Ending.Answered (status_of diagnostic)) }
    ensures sentence { result ≡ specs.sentence_on_diagnostic file.entry diagnostic }
{
    match (diagnostic, file) {
        (Diagnostic::Traffic(diagnostic), _) => Some(Sentence::Traffic(diagnostic)),
        (Diagnostic::Report(diagnostic), _) => Some(Sentence::Report(diagnostic)),
        (Diagnostic::Plan(diagnostic), Some(file)) => Some(Sentence::Plan { file, diagnostic }),
        (Diagnostic::Plan(_), None) => None,
    }
}

/// The sentence on a response with this diagnostic, status and reasons why nothing is drawn.
fn sentence_on_answer<'w>(
    diagnostic: Result<Option<Diagnostic>, AllocError>,
    status: Status,
    reasons: &[u8],
    file: Option<&'w str>,
) -> Option<Sentence<'w>>
    requires { HasItsStatus diagnostic status }
    ensures fits { SpeaksOf result (Ending.Answered status) }
    ensures sentence { result ≡ specs.sentence_on_parts file.entry diagnostic status reasons.now }
{
    match diagnostic {
        Ok(found) => match found {
            Some(diagnostic) => sentence_on_diagnostic(diagnostic, file),
            None if status == Status::FoundWrong && !reasons.is_empty() => {
                Some(Sentence::NothingDrawn)
            }
            None => None,
        },
        Err(_) => None,
    }
}

fn sentence_on_plan_file(
    fault: EngineFault,
    file: Option<&str>,
    reason: Option<io::Error>,
) -> Option<Sentence<'_>>
    ensures fits { SpeaksOf result (Ending.Failed fault) }
    ensures sentence { result ≡ specs.sentence_on_plan_file fault file.entry reason }
{
    let file = file?;
    match fault {
        EngineFault::Device => Some(Sentence::PlanUnreadable { file, reason }),
        EngineFault::Long => Some(Sentence::PlanTooLong(file)),
        EngineFault::Memory => None,
    }
}

/// The sentence on a fault of a run in which the input failed `failures` times.
fn sentence_on_fault<'w>(fault: EngineFault, failures: u64) -> Option<Sentence<'w>>
    ensures fits { SpeaksOf result (Ending.Failed fault) }
    ensures sentence { result ≡ specs.sentence_on_fault fault failures }
{
    match fault {
        EngineFault::Device if failures == 0 => Some(Sentence::OutputUnwritable),
        EngineFault::Device => Some(Sentence::InputUnreadable),
        EngineFault::Long => Some(Sentence::InputTooLong),
        EngineFault::Memory => None,
    }
}

/// The sentence after clap's text of this kind was written or couldn't be.
fn sentence_on_printing<'w>(kind: ErrorKind, ending: Ending) -> Option<Sentence<'w>>
    ensures fits { SpeaksOf result ending }
    ensures sentence { result ≡ specs.sentence_on_printing kind ending }
{
    match ending {
        Ending::Failed(EngineFault::Device) => Some(Sentence::OutputUnwritable),
        Ending::Refused if kind == ErrorKind::ValueValidation => Some(Sentence::NotMarkerCount),
        _ => None,
    }
}
