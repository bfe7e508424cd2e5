//! Tests of a row of switches, and the line that they share.

ghost use Rattle.std.specs.Prelude.{◌≡◌, ◌++◌, OnOk, codes, string_bytes, if◌then◌else◌};
ghost use Rattle.xbar_walk.specs.Rows.{row_found, row_line, test_line, tests_text, follows as follows_of, goes_on as goes_on_of};

use std::alloc::AllocError;
use xbar_step_text::{InFour, Place, PlaceNumbers, add_items, add_test};

/// The text before what a test found: a separator, or the head if nothing was found before.
fn lead(any: bool) -> &'static str
    ensures { result.now ≡ (if any then codes "; " else codes "closed: ") }
{
    if any { "; " } else { "closed: " }
}

/// Adds all that the tests found, or that nothing is closed.
#[tactic(auto, unfolding(crate::specs::Rows::row_found))]
fn add_finds(text: &mut String, tests: &[Tested]) -> Result<(), AllocError>
    ensures { OnOk result (string_bytes text.new ≡ string_bytes text.old ++ row_found tests.now) }
{
    let mut any = false;
    for tested in tests {
        let head = lead(any);
        let some = add_items(text, tested.place, tested.word, head, "; ")?;
        any = any || some;
    }
    if any {
        return Ok(());
    }
    text.push_str("nothing closed")?;
    Ok(())
}

/// Adds the line that the tests of a row share.
#[tactic(auto, unfolding(crate::specs::Rows::row_line, crate::specs::Rows::row_words, xbar_step_text::specs::Lines::marker_line))]
fn add_row(
    text: &mut String,
    first: &Tested,
    last: &Tested,
    tests: &[Tested],
) -> Result<(), AllocError>
    ensures { OnOk result (string_bytes text.new ≡ string_bytes text.old ++
        row_line first.now last.now tests.now) }
{
    let (number, marker, last_number) = (first.number, first.marker, last.number);
    let (kind, from, to) = (
        first.place.kind_name(),
        PlaceNumbers(first.place),
        PlaceNumbers(last.place),
    );
    let step = InFour(number);
    write!(
        text,
        "{step}  marker {marker}  tests {kind}es {from} to {to}"
    )?;
    write!(text, " (steps {number} to {last_number}): ")?;
    add_finds(text, tests)?;
    text.push_str("\n")?;
    Ok(())
}

/// Adds the line of a single test.
#[tactic(auto, unfolding(crate::specs::Rows::test_line, xbar_step_text::specs::Lines::marker_line))]
fn add_one(text: &mut String, tested: &Tested) -> Result<(), AllocError>
    ensures { OnOk result (string_bytes text.new ≡ string_bytes text.old ++
        test_line tested.now) }
{
    let number = InFour(tested.number);
    let marker = tested.marker;
    write!(text, "{number}  marker {marker}  ")?;
    add_test(text, tested.place, tested.word)?;
    text.push_str("\n")?;
    Ok(())
}

/// Adds the line of a single test or of the tests of a row. Adds nothing if there are no tests.
pub fn add_tests(text: &mut String, tests: &[Tested]) -> Result<(), AllocError>
    ensures { OnOk result (string_bytes text.new ≡ string_bytes text.old ++
        tests_text tests.now) }
{
    match tests {
        [] => Ok(()),
        [only] => add_one(text, only),
        [first, .., last] => add_row(text, first, last, tests),
    }
}

/// A marker's test of a word.
#[derive(Drop)]
pub struct Tested {
    /// The number of the step.
    pub number: u64,
    pub marker: u32,
    pub place: Place,
    /// The value of the word.
    pub word: u64,
}

impl Tested {
    /// Whether `other` continues the row: the same marker tests the next switch.
    pub fn goes_on(&self, other: &Tested) -> bool
        ensures { result ≡ goes_on_of self.now other.now }
    {
        self.marker == other.marker && follows(self.place, other.place)
    }
}

/// Whether the second place is the switch after the first in a row of junctor switches.
fn follows(first: Place, second: Place) -> bool
    ensures { result ≡ follows_of first second }
{
    match (first, second) {
        (Place::LineJunctor(frame, channel), Place::LineJunctor(own, at))
        | (Place::TrunkJunctor(frame, channel), Place::TrunkJunctor(own, at)) => {
            own == frame && u16::from(at) == u16::from(channel) + 1
        }
        _ => false,
    }
}
