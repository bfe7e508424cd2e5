//! A step in words.

ghost use Rattle.std.specs.Prelude.{◌≡◌, ◌++◌, OnOk, Some, string_bytes};
ghost use Rattle.xbar_step_text.specs.Words.{cleared_by, job_ending_words, close_words, found_words, marked_words, open_words, denial_words, seize_words, step_words, switched_words, test_words};

use crate::names::ConnName;
use crate::observation::Observation;
use crate::place::Place;
use crate::shown::add_shown;
use crate::turn_words::add_turn;
use std::alloc::AllocError;
use std::fmt;
use xbar_equip::Conn;
use xbar_jobs::Step;
use xbar_moves::Event;
use xbar_office::Record;

/// Why a request or a seizure was denied; empty if it wasn't.
#[derive(Clone, Copy)]
struct Denial<'e>(&'e Event);

impl fmt::Display for Denial<'_> {
    ghost output = { λ came. Some (denial_words came.0.now) };

    #[tactic(auto, unfolding(crate::specs::Words::denial_words))]
    fn fmt<W: fmt::Write>(&self, f: &mut fmt::Formatter<W>) -> fmt::Result {
        match self.0 {
            Event::Refused { holder, .. } => write!(f, ": marker {holder} holds it"),
            Event::Preferred(other) => write!(f, ": marker {other} is preferred"),
            Event::Idle | Event::Moved | Event::Finished(_) => Ok(()),
        }
    }
}

/// The words that end the line of a job's last step, or of the last step of giving back.
#[derive(Clone, Copy)]
struct JobEnding<'e> {
    event: &'e Event,
    next: Step,
}

impl fmt::Display for JobEnding<'_> {
    ghost output = { λ came. Some (job_ending_words came.event.now came.next) };

    #[tactic(auto, unfolding(crate::specs::Words::job_ending_words))]
    fn fmt<W: fmt::Write>(&self, f: &mut fmt::Formatter<W>) -> fmt::Result {
        match (self.event, self.next) {
            (Event::Finished(record), _) => write!(f, ", and has done job {}", record.job_no),
            (_, Step::Request(_)) => f.write_str(", and begins anew"),
            _ => Ok(()),
        }
    }
}

/// Adds a seizure in words: done, denied, or to be tried again.
#[tactic(auto, unfolding(crate::specs::Words::seize_words))]
fn add_seize(text: &mut String, conn: Conn, event: &Event, next: Step) -> Result<(), AllocError>
    ensures { OnOk result (string_bytes text.new ≡ string_bytes text.old ++
        seize_words conn event.now next) }
{
    let conn = ConnName(conn);
    let denial_words = Denial(event);
    match (event, next) {
        (Event::Refused { .. } | Event::Preferred(_), _) => {
            write!(text, "would seize {conn}{denial_words}")
        }
        (_, Step::Seize(_, _)) => {
            write!(
                text,
                "would seize {conn}: its word has changed, it tries again"
            )
        }
        _ => write!(text, "seizes {conn}"),
    }
}

/// Adds what a test of the place found.
#[tactic(auto, unfolding(crate::specs::Words::found_words))]
fn add_found(text: &mut String, place: Place, word: u64) -> Result<(), AllocError>
    ensures { OnOk result (string_bytes text.new ≡ string_bytes text.old ++
        found_words place word) }
{
    match place {
        Place::Group(_) => {
            add_shown(
                text,
                place,
                word,
                "all members idle",
                "busy members: ",
                ", ",
            )
        }
        Place::LineSwitch(_, _)
        | Place::LineJunctor(_, _)
        | Place::TrunkSwitch(_, _)
        | Place::TrunkJunctor(_, _)
        | Place::Other(_) => add_shown(text, place, word, "nothing closed", "closed: ", "; "),
    }
}

/// Adds a test in words: the place, and what its word shows.
#[tactic(auto, unfolding(crate::specs::Words::test_words))]
pub fn add_test(text: &mut String, place: Place, word: u64) -> Result<(), AllocError>
    ensures { OnOk result (string_bytes text.new ≡ string_bytes text.old ++ test_words place word) }
{
    write!(text, "tests {place}: ")?;
    add_found(text, place, word)
}

/// Adds that crosspoints of a switch close or open.
#[tactic(auto, unfolding(crate::specs::Words::switched_words))]
fn add_switched(
    text: &mut String,
    verb: &str,
    state: &str,
    place: Place,
    bits: u64,
) -> Result<(), AllocError>
    ensures { OnOk result (string_bytes text.new ≡ string_bytes text.old ++
        switched_words verb.now state.now place bits) }
{
    write!(text, "{verb}{place}")?;
    add_shown(text, place, bits, ":", ": ", "; ")?;
    text.push_str(state)?;
    Ok(())
}

/// Adds that members of a group become busy or idle.
#[tactic(auto, unfolding(crate::specs::Words::marked_words))]
fn add_marked(text: &mut String, state: &str, place: Place, bits: u64) -> Result<(), AllocError>
    ensures { OnOk result (string_bytes text.new ≡ string_bytes text.old ++
        marked_words state.now place bits) }
{
    add_shown(text, place, bits, "marks nothing", "marks member ", ", ")?;
    write!(text, " of {place}{state}")?;
    Ok(())
}

/// Adds a close step in words, with the bits that it sets.
#[tactic(auto, unfolding(crate::specs::Words::close_words))]
pub fn add_close(text: &mut String, place: Place, bits: u64) -> Result<(), AllocError>
    ensures { OnOk result (string_bytes text.new ≡ string_bytes text.old ++
        close_words place bits) }
{
    match place {
        Place::Group(_) => add_marked(text, " busy", place, bits),
        _ => add_switched(text, "closes ", " are joined", place, bits),
    }
}

/// Adds an open step in words, with the bits that it clears.
#[tactic(auto, unfolding(crate::specs::Words::open_words))]
pub fn add_open(text: &mut String, place: Place, bits: u64) -> Result<(), AllocError>
    ensures { OnOk result (string_bytes text.new ≡ string_bytes text.old ++ open_words place bits) }
{
    match place {
        Place::Group(_) => add_marked(text, " idle", place, bits),
        _ => add_switched(text, "opens ", " are parted", place, bits),
    }
}

/// The bits of a word that the mask doesn't keep.
pub fn cleared(word: u64, mask: u64) -> u64
    ensures { result ≡ cleared_by word mask }
{
    word & !mask
}

/// Adds a step in words: what it acts on, and its result. `records` are those that the step added.
#[tactic(auto, unfolding(crate::specs::Words::step_words))]
pub fn add_words(
    text: &mut String,
    observed: &Observation,
    records: &[Record],
) -> Result<(), AllocError>
    ensures { OnOk result (string_bytes text.new ≡ string_bytes text.old ++
        step_words observed.now records.now) }
{
    match observed.step {
        Step::Request(conn) => write!(
            text,
            "requests {}{}",
            ConnName(conn),
            Denial(&observed.event)
        ),
        Step::Seize(conn, _) => add_seize(text, conn, &observed.event, observed.next),
        Step::Withdraw(conn) => {
            let close = JobEnding {
                event: &observed.event,
                next: observed.next,
            };
            write!(text, "withdraws its request for {}{close}", ConnName(conn))
        }
        Step::Test(word) => add_test(text, Place::of(word), observed.found),
        Step::Turn => add_turn(text, records),
        Step::Close(word, bits) => add_close(text, Place::of(word), bits),
        Step::Open(word, mask) => add_open(text, Place::of(word), cleared(observed.found, mask)),
        Step::Free(conn) => {
            let close = JobEnding {
                event: &observed.event,
                next: observed.next,
            };
            write!(text, "frees {}{close}", ConnName(conn))
        }
        Step::Finished => Ok(()),
    }
}
