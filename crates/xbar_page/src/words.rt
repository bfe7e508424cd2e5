//! What happened in a turn, sentence by sentence.

ghost use Rattle.std.specs.Prelude.{◌≡◌, ◌++◌, IfOk, Some, string_bytes};
ghost use Rattle.xbar_page.specs.Words.{asked_words, set_up_words as set_up_words_of, card_words as card_words_of, end_words as end_words_of, links_words, marker_words as marker_words_of, refusal_words as refusal_words_of, taken_out_words as taken_out_words_of, with_line};

use std::alloc::{AllocError, Global};
use std::fmt;
use xbar_equip::Path;
use xbar_office::{Card, End, Job, Record};
use xbar_office_text::path_end;
use xbar_plan::Plan;

/// What the line of a job asks for, in words.
#[derive(Clone, Copy)]
pub struct Requested<'j>(pub &'j Job);

impl fmt::Display for Requested<'_> {
    ghost output = { λ asked. Some (asked_words asked.0.now) };

    #[tactic(auto, unfolding(crate::specs::Words::asked_words))]
    fn fmt<W: fmt::Write>(&self, f: &mut fmt::Formatter<W>) -> fmt::Result {
        match self.0 {
            Job::Dial(line) => write!(f, "line {line} wants dial tone"),
            Job::Complete(line, dialled) => write!(f, "line {line} calls {dialled}"),
            Job::Release(line) => write!(f, "line {line} hangs up"),
        }
    }
}

/// The sentence on the marker that does a job.
#[tactic(auto, unfolding(crate::specs::Words::marker_words))]
pub fn marker_words(alloc: Global, owner: &Record) -> Result<String, AllocError>
    ensures { IfOk result (λ words. string_bytes words ≡ marker_words_of owner.now) }
{
    format!(in alloc; "Marker {} does job {}.", owner.marker, owner.job_no)
}

/// The other line of a call inside the office.
#[derive(Clone, Copy)]
struct WithLine<'p>(&'p Option<Path>);

impl fmt::Display for WithLine<'_> {
    ghost output = { λ other. Some (with_line other.0.now) };

    fn fmt<W: fmt::Write>(&self, f: &mut fmt::Formatter<W>) -> fmt::Result {
        match self.0 {
            None => Ok(()),
            Some(other) => write!(f, " with line {}", other.line),
        }
    }
}

/// Why a job didn't get what it asked for; empty if it did.
fn refusal_words(end: &End) -> &'static str
    ensures { result.now ≡ refusal_words_of end.now }
{
    match end {
        End::CalledBusy => {
            "Called busy: no line of the number that was dialled is idle, but perhaps the calling one."
        }
        End::LineBusy => "Line busy: the line is in a path already.",
        End::RegistersBusy => "Registers busy: no register is idle.",
        End::TrunksBusy => "Trunks busy: no trunk that the code leads to is idle.",
        End::NoPath => "No path: no trial found an idle channel.",
        End::Trouble => "Trouble: both trials failed, and at least one of them at a faulty link.",
        End::VacantCode => "Vacant code: the office has no such code.",
        End::VacantNumber => "Vacant number: the office has no such number.",
        End::NoRegister => "No register: the line has no register.",
        End::NoCall => "No call: the line has no path.",
        End::DialTone { .. } | End::Connected { .. } | End::Released { .. } => "",
    }
}

/// The sentence on how a job ended.
#[tactic(auto, unfolding(crate::specs::Words::end_words))]
pub fn end_words(alloc: Global, plan: &Plan, end: &End) -> Result<String, AllocError>
    ensures { IfOk result (λ words. string_bytes words ≡ end_words_of plan.now end.now) }
{
    match end {
        End::DialTone { path, trial } => {
            let place = path_end(alloc, plan, path)?;
            format!(in alloc; "Dial tone: trial {trial} found a path to {place}.")
        }
        End::Connected {
            calling,
            called,
            trial,
        } => {
            let with = WithLine(called);
            let place = path_end(alloc, plan, calling)?;
            format!(in alloc; "Connected{with}: trial {trial} found a path to {place}.")
        }
        End::Released { own, other } => {
            let with = WithLine(other);
            let place = path_end(alloc, plan, own)?;
            format!(in alloc; "Released{with}: the path to {place} is gone.")
        }
        _ => String::from_str(alloc, refusal_words(end)),
    }
}

/// The three links of a path.
#[derive(Clone, Copy)]
struct PathLinks<'p>(&'p Path);

impl fmt::Display for PathLinks<'_> {
    ghost output = { λ links. Some (links_words links.0.now) };

    #[tactic(auto, unfolding(crate::specs::Words::links_words))]
    fn fmt<W: fmt::Write>(&self, f: &mut fmt::Formatter<W>) -> fmt::Result {
        let path = self.0;
        let line_link = path.line_link();
        let junctor = path.junctor();
        let trunk_link = path.trunk_link();
        write!(f, "{line_link}, {junctor}, {trunk_link}")
    }
}

/// The sentence on a path that a job took out.
#[tactic(auto, unfolding(crate::specs::Words::taken_out_words))]
pub fn taken_out_words(alloc: Global, path: &Path) -> Result<String, AllocError>
    ensures { IfOk result (λ words. string_bytes words ≡ taken_out_words_of path.now) }
{
    let links = PathLinks(path);
    format!(in alloc; "Path {path} is taken out: {links} are idle again. Four crosspoints open.")
}

/// The sentence on a path that a job set up.
#[tactic(auto, unfolding(crate::specs::Words::set_up_words))]
pub fn set_up_words(alloc: Global, path: &Path) -> Result<String, AllocError>
    ensures { IfOk result (λ words. string_bytes words ≡ set_up_words_of path.now) }
{
    let Path {
        line,
        channel,
        place,
    } = path;
    let links = PathLinks(path);
    format!(in alloc;
        "Channel {channel} is idle from line {line} to place {place}: {links}. Four crosspoints close."
    )
}

/// The sentence on a trouble card.
#[tactic(auto, unfolding(crate::specs::Words::card_words))]
pub fn card_words(alloc: Global, card: &Card) -> Result<String, AllocError>
    ensures { IfOk result (λ words. string_bytes words ≡ card_words_of card.now) }
{
    format!(in alloc;
        "Trouble card: trial {}, {} is faulty.",
        card.trial, card.link
    )
}
