ghost use Rattle.std.specs.Prelude.{◌≡◌, ◌+◌, ◌<◌, ◌≤◌, ℕ, List, Some, length, option_copied, slice_get, slice_set, vec_capacity};
ghost use Rattle.turns.specs.Attempt.{begin_with};
ghost use Rattle.turns.specs.World.{Idle, Does};
ghost use Rattle.xbar_equip.specs.Word.{word_count};
ghost use Rattle.xbar_office.specs.declared.reply.Record.{Record as TheRecord};
ghost use Rattle.xbar_plan.specs.Tables.{Tables};
ghost use Rattle.xbar_jobs.specs.Attempt.{Attempt, next_step};
ghost use Rattle.xbar_jobs.specs.Jobs.{first_conn};
ghost use Rattle.xbar_moves.specs.AtWork.{is_turned, next_step_at};
ghost use Rattle.xbar_moves.specs.Exchange.{Marker as TheMarker, Work as TheWork, is_idle as is_idle_at};
ghost use Rattle.xbar_moves.specs.Moves.{IsAnswered, frees_left_by, event_by, event_of, given_by, refusal_of, after_step, steps, restarted_work};
ghost use Rattle.xbar_core.specs.Standing.{HoldsFew, StandsAt, waits, work_of};

use crate::work::Work;
use std::marker::Model;
use xbar_jobs::{Answer, Step};
use xbar_moves::{AssignFault, Event, Given, Kind};
use xbar_office::{Job, Record};
use xbar_plan::Plan;

/// A marker: its kind, and its job, or the last one that it had.
#[derive(Debug, Drop)]
pub struct Marker {
    kind: Kind,
    work: Option<Work>,
}

impl Model for Marker {
    ghost use Rattle.xbar_moves.specs.Exchange.{Marker as TheMarker};
    ghost use Rattle.xbar_core.specs.Standing.{work_of};

    ghost Value = { TheMarker };

    ghost view = { λ a. record { kind = a.kind; work = work_of a.work } };
}

impl Marker {
    /// An idle marker of this kind.
    pub fn new(kind: Kind) -> Self
        ensures { result ≡ record { kind = kind; work = Idle } }
    {
        Marker { kind, work: None }
    }

    /// Which jobs the marker takes.
    pub fn kind(&self) -> Kind
        ensures { result ≡ self.now.kind }
    {
        self.kind
    }

    /// The marker's job with its attempt, or its last one. None before its first.
    pub fn work(&self) -> Option<&Work>
        ensures { work_of (option_copied result) ≡ self.now.work }
    {
        self.work.as_ref()
    }

    /// Whether the marker has no job, or nothing is left of it.
    pub fn is_idle(&self) -> bool
        ensures { result ≡ is_idle_at self.now.work }
    {
        match &self.work {
            None => true,
            Some(work) => work.program.is_done(),
        }
    }

    /// The marker's next step: `Finished` if it has no job, or nothing is left of it.
    pub fn next_step(&self) -> Step
        ensures { result ≡ next_step_at self.now.work }
    {
        match &self.work {
            None => Step::Finished,
            Some(work) => work.program.next(),
        }
    }

    /// Whether the marker's job has taken its turn.
    pub fn is_past_turn(&self) -> bool
        ensures { result ≡ is_turned self.now.work }
    {
        match &self.work {
            None => false,
            Some(work) => work.program.turn().is_some(),
        }
    }

    /// How many steps give back all that the marker holds. None if it has no job.
    pub fn frees_left(&self) -> u32
        requires { HoldsFew self.now.work }
        ensures { result ≡ frees_left_by self.now.work }
    {
        match &self.work {
            None => 0,
            Some(work) => work.frees_left(),
        }
    }

    /// The outcome of asking the marker to give back.
    pub fn given(&self) -> Given
        ensures { result ≡ given_by self.now.work }
    {
        Given::of(self.is_idle(), self.is_past_turn())
    }

    /// Why the marker can't be assigned the job. None if it can.
    pub fn refuses(&self, job: &Job) -> Option<AssignFault>
        ensures { result ≡ refusal_of self.now job.now }
    {
        self.kind.refuses(self.is_idle(), job)
    }

    /// Gives the marker a job under a number. It is at the job's beginning.
    pub fn begin(&mut self, job_no: u32, job: Job)
        ensures { self.new
            ≡ record self.old { work = Does job_no (begin_with (first_conn job) job) } }
    {
        self.work = Some(Work::begin(job_no, job));
    }

    /// Restarts the job: the next steps give back all that is held, and then it begins anew. Past
    /// the turn nothing changes.
    pub fn restart(&mut self)
        ensures { (plan : Tables) →
            self.new ≡ record self.old { work = restarted_work plan self.old.work } }
    {
        if let Some(work) = &mut self.work {
            work.program.restart();
        }
    }

    /// The outcome of the step that was just made, by its answer.
    fn event_of(&self, number: u32, step: Step, answer: Answer) -> Event
        ensures { (n : ℕ) (a after : Attempt) → step ≡ next_step a → self.now.work ≡ Does n after →
            result ≡ event_of number n a after answer }
    {
        match &self.work {
            None => Event::Idle,
            Some(work) => work.event(number, step, answer),
        }
    }

    /// The outcome of the step that was just made, by what `advance` returned.
    pub fn event(&self, number: u32, step: Step, answer: Option<Answer>) -> Event
        ensures { (plan : Tables) (words : List ℕ) (before : TheWork) → step ≡ next_step_at before →
            IsAnswered plan number words before self.now.work answer →
            result ≡ event_by plan number words before }
    {
        match answer {
            None => Event::Idle,
            Some(answer) => self.event_of(number, step, answer),
        }
    }

    /// Makes the next step as marker `number`, and returns its answer. None if the marker is idle.
    /// `records` must have room for the record of its turn.
    pub fn advance(
        &mut self,
        plan: &Plan,
        number: u32,
        words: &mut [u64],
        records: &mut Vec<Record>,
    ) -> Option<Answer>
        requires plan { StandsAt plan.now self.old.work }
        requires number { number < 48 }
        requires words { length words.old ≡ word_count }
        requires room { length records.old.items + waits self.old.work ≤ vec_capacity records.old }
        ensures step { (markers : List TheMarker) → slice_get markers number ≡ Some self.old →
            record {
              words = words.new;
              markers = slice_set markers number self.new;
              records = records.new.items;
            }
            ≡ after_step plan.now number
            (record { words = words.old; markers = markers; records = records.old.items }) }
        ensures room { vec_capacity records.old ≤ vec_capacity records.new }
        ensures answer { IsAnswered plan.now number words.old self.old.work self.new.work result }
    {
        match &mut self.work {
            None => None,
            Some(work) if work.program.is_done() => None,
            Some(work) => Some(work.step(plan, number, words, records)),
        }
    }

    /// Makes next steps as marker `number`, at most `most`, as far as its job goes on by itself.
    /// Returns their number.
    pub fn run(&mut self, plan: &Plan, number: u32, words: &mut [u64], most: u32) -> u32
        requires plan { StandsAt plan.now self.old.work }
        requires number { number < 48 }
        requires words { length words.old ≡ word_count }
        ensures steps { (markers : List TheMarker) (records : List TheRecord) →
            slice_get markers number ≡ Some self.old →
            record {
              words = words.new;
              markers = slice_set markers number self.new;
              records = records;
            }
            ≡ steps plan.now number result
            (record { words = words.old; markers = markers; records = records }) }
        ensures most { result ≤ most }
    {
        match &mut self.work {
            None => 0,
            Some(work) => work.program.run(plan, number, words, most),
        }
    }
}
