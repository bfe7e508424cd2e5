//! A desk's steps: one at a time, several that ask for no connector, or those of a give back.

ghost use Rattle.std.specs.Prelude.{◌≡◌, ◌≢◌, ◌+◌, ◌<◌, ◌^◌, option_to_list};
ghost use Rattle.desks.specs.Desks.{as_record};
ghost use Rattle.desks.specs.Running.{NothingLeftPastTurn};
ghost use Rattle.desks.specs.Watching.{watched_more};
ghost use Rattle.xbar_moves.specs.Moves.{given_by};
ghost use Rattle.xbar_fabric.specs.Advances.{MarkerHasAdvanced, MarkerHasGivenBack, MarkerHasRun, IsAnswered};
ghost use Rattle.xbar_fabric.specs.Histories.{turned_of};
ghost use Rattle.xbar_fabric.specs.Views.{IsDeskOf, entered};

use crate::desk::Desk;
use crate::fabric::Fabric;
use desk_attempts::asked;
use desks::{JobRecord, Progress, Watch};
use xbar_jobs::{Answer, HELD, Offices, READINGS};
use xbar_moves::{Event, Given};
use xbar_office::{Job, Record, Reply};

/// A job's record in the office's form. Not inlined, so that a step that ends no job carries no
/// record.
#[inline(never)]
fn record_of(reported: JobRecord<Job, Reply>) -> Record
    requires { reported.number < 2 ^ 32 }
    ensures { result ≡ entered (as_record reported) }
{
    Record {
        turn: reported.turn,
        marker: reported.actor,
        job_no: reported.number as u32,
        job: reported.job,
        reply: reported.reply,
    }
}

impl Desk {
    /// Makes the marker's next step, like `advance`, and returns only its answer. None if the
    /// marker is idle. After the last step of a job, `record` returns the job's record.
    #[inline(always)]
    pub fn step(&mut self, fabric: &Fabric) -> Option<Answer>
        requires { IsDeskOf self.old fabric.now }
        ensures same { self.new ≡ record (self.old) { work = self.new.work; seen = self.new.seen } }
        ensures answered { IsAnswered self.old self.new result }
    {
        self.desk.step(&fabric.room, fabric.plan)
    }

    /// Makes next steps of the marker that ask for no connector, and so can't be denied: tests,
    /// the turn, and all steps past the turn. Notifies `watch` before each, and returns their
    /// number.
    pub fn run<W: Watch>(&mut self, fabric: &Fabric, watch: &mut W) -> usize
        requires { IsDeskOf self.old fabric.now }
        ensures same { self.new ≡ record (self.old) { work = self.new.work; seen = self.new.seen } }
        ensures run { MarkerHasRun result self.old self.new }
        ensures to_the_end { result + 1 < 2 ^ 32 → NothingLeftPastTurn self.new.work }
        ensures reported { W.steps_watched watch.new ≡ watched_more result
            (W.steps_watched watch.old) }
    {
        let made = self.desk.run(&fabric.room, fabric.plan, watch);
        // Called only for its contract, that what the desk has seen is legal.
        let _number = self.desk.number();
        made
    }

    /// The record of the marker's job, once it has taken its turn.
    pub fn record(&self) -> Option<Record>
        ensures { option_to_list result ≡ turned_of self.now }
    {
        let reported = self.desk.record()?;
        Some(record_of(reported))
    }

    /// Makes the marker's next step, one atomic operation on the shared words, and returns its
    /// outcome. An idle marker makes none. It always succeeds, and allocates nothing.
    #[inline(always)]
    pub fn advance(&mut self, fabric: &Fabric) -> Event
        requires { IsDeskOf self.old fabric.now }
        ensures same { self.new ≡ record (self.old) { work = self.new.work; seen = self.new.seen } }
        ensures advanced { MarkerHasAdvanced self.old self.new result }
    {
        let Some((_, program)) = self.desk.doing() else {
            return Event::Idle;
        };
        let asked = asked::<Offices, READINGS, HELD>(program);
        match self.desk.advance(&fabric.room, fabric.plan) {
            Progress::Idle => Event::Idle,
            Progress::Moved(answer) => Event::of_answer(asked, answer),
            Progress::Finished(reported) => Event::Finished(record_of(reported)),
        }
    }

    /// Has the marker give back what it holds, unless it is past its turn: it withdraws its
    /// request and frees its connectors, each by one atomic operation. It keeps its job.
    pub fn give_back(&mut self, fabric: &Fabric) -> Given
        requires { IsDeskOf self.old fabric.now }
        ensures same { self.new ≡ record (self.old) { work = self.new.work; seen = self.new.seen } }
        ensures given { result ≡ given_by self.old.work }
        ensures kept { result ≢ Given.Given → self.new ≡ self.old }
        ensures back { result ≡ Given.Given → MarkerHasGivenBack self.old self.new }
    {
        let given = self.given();
        if let Given::Given = given {
            self.desk.give_back(&fabric.room, fabric.plan);
        }
        given
    }
}
