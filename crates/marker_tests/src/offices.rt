//! Offices that are driven move by move, as plain data and as desks on shared words, with the same
//! results.

use crate::fixtures::{WITH_BOTH, WITH_REGISTER, WITH_TRUNK, Words, check_words, example, job};
use plain::open_exchange;
use std::alloc::Global;
use std::process::Abort;
use test_tools::check_eq;
use two_desks::open_desks;
use xbar_core::{AssignFault, Event, Given, Kind};
use xbar_equip::Conn;
use xbar_office::Job;
use xbar_plan::Plan;

mod denied;
mod giving_back;
pub mod plain;
mod stories;
mod told_records;
mod two_desks;

/// Two markers that take all jobs.
pub const TWO: &[Kind] = &[Kind::Combined; 2];

/// At least as many steps as a job takes that is never denied a connector.
pub const MOST_STEPS_ALONE: u32 = 128;

/// The outcome of a step, with only the number of a job that is done.
#[derive(Clone, Copy, Debug, PartialEq)]
enum StepOutcome {
    Idle,
    Moved,
    /// The connector that was asked for is held by the marker of this number.
    Refused(Conn, u32),
    Preferred(u32),
    /// The job of this number is done.
    Finished(u32),
}

/// An office whose markers a test can move.
pub trait Driven: Sized + Drop {
    fn assign_to(&mut self, marker: u32, job_no: u32, job: Job) -> Result<(), AssignFault>;

    /// Makes the marker's next step.
    fn go_on(&mut self, marker: u32) -> Event;

    /// Asks the marker to give back what it holds.
    fn ask_back(&mut self, marker: u32) -> Given;

    /// Whether the marker is idle.
    fn has_no_job(&self, marker: u32) -> bool;

    /// Has the markers meet, if they are desks.
    fn meet(&mut self) {}

    /// Shuts the office, and returns its words.
    fn shut(self, rt: &impl Abort, alloc: Global) -> Vec<u64>;
}

/// Assigns the marker a job by its text.
pub fn assign<O: Driven>(rt: &impl Abort, office: &mut O, marker: u32, job_no: u32, text: &str) {
    check_eq!(rt; office.assign_to(marker, job_no, job(rt, text)), Ok(()), text);
}

/// Makes `count` steps of the marker, whatever their outcomes.
pub fn go_on_for<O: Driven>(office: &mut O, marker: u32, count: u32) {
    for _made in 0..count {
        let _event = office.go_on(marker);
    }
}

/// Two lines go off hook: marker 0 makes `first` steps for one, marker 1 `second` steps for the
/// other.
pub fn begin_both<O: Driven>(rt: &impl Abort, office: &mut O, first: u32, second: u32) {
    assign(rt, office, 0, 1, "D 3041");
    assign(rt, office, 1, 2, "D 1000");
    go_on_for(office, 0, first);
    go_on_for(office, 1, second);
}

/// Shuts the office, and checks that of its words only these are not 0.
fn check_shut<O: Driven>(rt: &impl Abort, alloc: Global, name: &str, office: O, wanted: Words<'_>) {
    check_words(rt, alloc, name, &office.shut(rt, alloc), wanted);
}

fn outcome_of(event: &Event) -> StepOutcome {
    match event {
        Event::Idle => StepOutcome::Idle,
        Event::Moved => StepOutcome::Moved,
        Event::Refused { conn, holder } => StepOutcome::Refused(*conn, *holder),
        Event::Preferred(other) => StepOutcome::Preferred(*other),
        Event::Finished(record) => StepOutcome::Finished(record.job_no),
    }
}
