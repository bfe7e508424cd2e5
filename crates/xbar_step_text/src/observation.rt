ghost use Rattle.std.specs.Prelude.{◌≡◌, length};
ghost use Rattle.xbar_equip.specs.Word.{word_count};
ghost use Rattle.xbar_step_text.specs.Observed.{found_by as found_by_of};

use xbar_jobs::Step;
use xbar_moves::Event;

/// What is observed of a marker's step, except the record that the step may have added.
#[derive(Drop)]
pub struct Observation {
    pub step: Step,
    /// The value of the word before the step, if the step tests or opens something in it.
    pub found: u64,
    /// The result of the step.
    pub event: Event,
    /// The marker's next step, after this one.
    pub next: Step,
}

impl Observation {
    pub fn new(step: Step, found: u64, event: Event, next: Step) -> Self
        ensures { result ≡ record { step = step; found = found; event = event; next = next } }
    {
        Observation {
            step,
            found,
            event,
            next,
        }
    }
}

/// The value of the word that the step tests or opens; 0 if it does neither.
pub fn found_by(words: &[u64], step: &Step) -> u64
    requires { length words.now ≡ word_count }
    ensures { result ≡ found_by_of words.now step.now }
{
    match *step {
        Step::Test(word) | Step::Open(word, _) => words[usize::from(word.number())],
        _ => 0,
    }
}
