ghost use Rattle.std.specs.Prelude.{◌≡◌, ◌+◌, ◌<◌, ◌≤◌, ◌++◌, ℕ, false, length, option_to_list, vec_capacity};
ghost use Rattle.turns.specs.Attempt.{act, change, request_in};
ghost use Rattle.turns.specs.Runs.{is_finished};
ghost use Rattle.turns.specs.declared.phase.Phase.{Phase};
ghost use Rattle.xbar_equip.specs.Word.{word_count};
ghost use Rattle.xbar_jobs.specs.Attempt.{Attempt, counted, fresh, next_step, with_count};
ghost use Rattle.xbar_jobs.specs.Office.{office};
ghost use Rattle.xbar_jobs.specs.OnWords.{words_after};
ghost use Rattle.xbar_jobs.specs.Standing.{IsValid, most_held};
ghost use Rattle.xbar_moves.specs.AtWork.{conn_asked, answer_to_step};
ghost use Rattle.xbar_moves.specs.Moves.{event_of, own_record, added_record, request_count};
ghost use Rattle.xbar_core.specs.Standing.{waits_in};

use xbar_equip::Conn;
use xbar_jobs::{Answer, Program, Step};
use xbar_moves::Event;
use xbar_office::{Job, Record};
use xbar_plan::Plan;

/// A job that was assigned to a marker, and the marker's attempt at it.
#[derive(Debug, Drop)]
pub struct Work {
    job_no: u32,
    pub(crate) program: Program,
}

/// The connector that a step requests or tries to seize.
fn asked_by(step: Step) -> Option<Conn>
    ensures { result ≡ conn_asked step }
{
    match step {
        Step::Request(conn) | Step::Seize(conn, _) => Some(conn),
        Step::Withdraw(_)
        | Step::Test(_)
        | Step::Turn
        | Step::Close(_, _)
        | Step::Open(_, _)
        | Step::Free(_)
        | Step::Finished => None,
    }
}

impl Work {
    /// The job at its beginning.
    pub fn begin(job_no: u32, job: Job) -> Self
        ensures { result ≡ record { job_no = job_no; program = fresh job } }
    {
        Work {
            job_no,
            program: Program::new(job),
        }
    }

    /// The number under which the job was assigned.
    pub fn job_no(&self) -> u32
        ensures { result ≡ self.now.job_no }
    {
        self.job_no
    }

    /// The marker's attempt at the job.
    pub fn program(&self) -> &Program
        ensures { result.now ≡ self.now.program }
    {
        &self.program
    }

    /// How many steps give back all that the job holds: one withdraws its request, if it has one,
    /// and one frees each connector.
    pub fn frees_left(&self) -> u32
        requires { length self.now.program.attempt.held ≤ most_held }
        ensures { result ≡ request_count (request_in self.now.program.attempt.phase)
            + length self.now.program.attempt.held }
    {
        let held = self.program.held().len() as u32;
        match self.program.requested() {
            Some(_) => 1 + held,
            None => held,
        }
    }

    /// The job's record, once it has taken its turn.
    fn record(&self, marker: u32) -> Option<Record>
        ensures { option_to_list result
            ≡ own_record marker self.now.job_no self.now.program.attempt }
    {
        let turn = self.program.turn()?;
        let reply = self.program.reply()?;
        Some(Record {
            turn,
            marker,
            job_no: self.job_no,
            job: *self.program.job(),
            reply: reply.copy(),
        })
    }

    /// Adds the job's record, if this was the answer to its turn.
    fn enter(&self, marker: u32, answer: Answer, records: &mut Vec<Record>)
        requires turned { (turn : ℕ) → answer ≡ Answer.Turn turn →
            self.now.program.attempt.phase ≡ Phase.Operates turn }
        requires room { length records.old.items
            + length (added_record marker self.now.job_no self.now.program.attempt answer)
            ≤ vec_capacity records.old }
        ensures records { records.new.items
            ≡ records.old.items
            ++ added_record marker self.now.job_no self.now.program.attempt answer }
        ensures room { vec_capacity records.old ≤ vec_capacity records.new }
    {
        if let Answer::Turn(_) = answer {
            if let Some(record) = self.record(marker) {
                records.push(record).unwrap();
            }
        }
    }

    /// The outcome of the step that was just made, by its answer.
    pub fn event(&self, marker: u32, step: Step, answer: Answer) -> Event
        ensures { (a : Attempt) → step ≡ next_step a →
            result ≡ event_of marker self.now.job_no a self.now.program.attempt answer }
    {
        if answer != Answer::Done || !self.program.is_done() {
            return Event::of_answer(asked_by(step), answer);
        }
        match self.record(marker) {
            Some(record) => Event::Finished(record),
            None => Event::Moved,
        }
    }

    /// Makes the job's next step on the words, and returns its answer. A turn adds the job's
    /// record, for which `records` must have room.
    pub fn step(
        &mut self,
        plan: &Plan,
        marker: u32,
        words: &mut [u64],
        records: &mut Vec<Record>,
    ) -> Answer
        requires plan { IsValid plan.now self.old.program.attempt }
        requires goes_on { is_finished (act self.old.program.attempt) ≡ false }
        requires marker { marker < 48 }
        requires words { length words.old ≡ word_count }
        requires room { length records.old.items + waits_in self.old.program.attempt.phase
            ≤ vec_capacity records.old }
        ensures work { self.new ≡ record self.old {
          program = with_count (counted self.old.program.count)
              (change (office plan.now) self.old.program.attempt
              (answer_to_step marker words.old self.old.program.attempt));
        } }
        ensures words { words.new
            ≡ words_after marker (next_step self.old.program.attempt) words.old }
        ensures records { records.new.items ≡ records.old.items
            ++ added_record marker self.old.job_no self.old.program.attempt
            (answer_to_step marker words.old self.old.program.attempt) }
        ensures room { vec_capacity records.old ≤ vec_capacity records.new }
        ensures answer { result ≡ answer_to_step marker words.old self.old.program.attempt }
    {
        let answer = self.program.step(plan, marker, words);
        self.enter(marker, answer, records);
        answer
    }
}
