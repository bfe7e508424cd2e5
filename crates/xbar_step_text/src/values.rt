//! Parts of a step's JSON object that are `null` for most steps.

ghost use Rattle.std.specs.Prelude.{◌≡◌, ◌++◌, OnOk, Some, string_bytes};
ghost use Rattle.xbar_step_text.specs.Objects.{ended_value, found_value, holder_value, preferred_value, record_value, turn_value};

use std::alloc::AllocError;
use std::fmt;
use xbar_jobs::Step;
use xbar_json::Json;
use xbar_moves::Event;
use xbar_office::Record;

/// The value that a test or an opening found in its word, as a string.
#[derive(Clone, Copy)]
pub struct FoundValue<'s> {
    pub found: u64,
    pub step: &'s Step,
}

impl fmt::Display for FoundValue<'_> {
    ghost output = { λ value. Some (found_value value.found value.step.now) };

    #[tactic(auto, unfolding(crate::specs::Objects::found_value))]
    fn fmt<W: fmt::Write>(&self, f: &mut fmt::Formatter<W>) -> fmt::Result {
        match self.step {
            Step::Test(_) | Step::Open(_, _) => write!(f, "\"{}\"", self.found),
            _ => f.write_str("null"),
        }
    }
}

/// The marker that holds the connector that a step was denied.
#[derive(Clone, Copy)]
pub struct HolderValue<'e>(pub &'e Event);

impl fmt::Display for HolderValue<'_> {
    ghost output = { λ value. Some (holder_value value.0.now) };

    #[tactic(auto, unfolding(crate::specs::Objects::holder_value))]
    fn fmt<W: fmt::Write>(&self, f: &mut fmt::Formatter<W>) -> fmt::Result {
        match self.0 {
            Event::Refused { holder, .. } => write!(f, "{holder}"),
            _ => f.write_str("null"),
        }
    }
}

/// The marker that is preferred to the one that made the step.
#[derive(Clone, Copy)]
pub struct PreferredValue<'e>(pub &'e Event);

impl fmt::Display for PreferredValue<'_> {
    ghost output = { λ value. Some (preferred_value value.0.now) };

    #[tactic(auto, unfolding(crate::specs::Objects::preferred_value))]
    fn fmt<W: fmt::Write>(&self, f: &mut fmt::Formatter<W>) -> fmt::Result {
        match self.0 {
            Event::Preferred(other) => write!(f, "{other}"),
            _ => f.write_str("null"),
        }
    }
}

/// The number of the job that a step ends.
#[derive(Clone, Copy)]
pub struct EndedValue<'e>(pub &'e Event);

impl fmt::Display for EndedValue<'_> {
    ghost output = { λ value. Some (ended_value value.0.now) };

    #[tactic(auto, unfolding(crate::specs::Objects::ended_value))]
    fn fmt<W: fmt::Write>(&self, f: &mut fmt::Formatter<W>) -> fmt::Result {
        match self.0 {
            Event::Finished(record) => write!(f, "{}", record.job_no),
            _ => f.write_str("null"),
        }
    }
}

/// The number of a turn, by the records that it added.
#[derive(Clone, Copy)]
pub struct TurnValue<'r>(pub &'r [Record]);

impl fmt::Display for TurnValue<'_> {
    ghost output = { λ value. Some (turn_value value.0.now) };

    #[tactic(auto, unfolding(crate::specs::Objects::turn_value))]
    fn fmt<W: fmt::Write>(&self, f: &mut fmt::Formatter<W>) -> fmt::Result {
        match self.0 {
            [record, ..] => write!(f, "{}", record.turn),
            [] => f.write_str("null"),
        }
    }
}

/// Adds the record that a turn added.
#[tactic(auto, unfolding(crate::specs::Objects::record_value))]
pub fn add_record(text: &mut String, records: &[Record]) -> Result<(), AllocError>
    ensures { OnOk result (string_bytes text.new ≡ string_bytes text.old ++
        record_value records.now) }
{
    match records {
        [record, ..] => record.add_json(text),
        [] => write!(text, "null"),
    }
}
