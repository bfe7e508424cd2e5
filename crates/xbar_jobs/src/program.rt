ghost use Rattle.std.specs.Prelude.{◌≡◌, ◌<◌, ◌≤◌, ◌⊎◌, false, is_some, length, option_copied, true};
ghost use Rattle.attempts.specs.Validity.{AreScripts, ResumePointIsValidIn, IsValid as IsValidAttempt};
ghost use Rattle.attempts.specs.SystemWith.{without_decisions};
ghost use Rattle.turns.specs.declared.lock_sharing.LockSharing.TheVariants.{Preferring};
ghost use Rattle.xbar_equip.specs.Conn.{conn_eq};
ghost use Rattle.xbar_plan.specs.Lawful.{IsLawful};
ghost use Rattle.xbar_jobs.specs.Attempt.{next_step, step_of as step_of_act};
ghost use Rattle.xbar_jobs.specs.Closing.{effects as effects_of};
ghost use Rattle.xbar_jobs.specs.Jobs.{job_line};
ghost use Rattle.xbar_jobs.specs.Keeping.{AreEffects};
ghost use Rattle.xbar_jobs.specs.Office.{office_over};
ghost use Rattle.xbar_jobs.specs.Standing.{IsAttempt, IsNextStep, IsValid, attempt_at, most_readings, most_seizings, reply_of};
ghost use Rattle.xbar_jobs.specs.Tracing.{ResumePointIsValid};
ghost use Rattle.xbar_jobs.specs.Turning.{IsAct, IsStep};
ghost use Rattle.xbar_equip.specs.Word.{word_count};
ghost use Rattle.xbar_jobs.specs.OnWords.{step_word};

use crate::effect::{Effect, OfficeEffect};
use crate::offices::{HELD, OfficeAttempt, Offices, READINGS};
use attempts::{apply, begin, is_done, next, restart, run, step};
use std::marker::Model;
use turns::{Answer, Phase};
use xbar_equip::{Conn, WordNo, conn_word, turn_word};
use xbar_office::laws::job_is_in_range;
use xbar_office::{Job, Reply};
use xbar_plan::Plan;

/// A marker's attempt at a job. It has a fixed size and doesn't borrow the plan: the caller passes
/// the same plan to every call.
#[derive(Debug, Drop)]
pub struct Program {
    attempt: OfficeAttempt,
}

impl Model for Program {
    ghost use Rattle.xbar_jobs.specs.Attempt.{Counted};
    ghost use Rattle.xbar_jobs.specs.Standing.{IsProgram, attempt_at};

    ghost Value = { Counted };

    ghost view = { λ a. record { attempt = attempt_at a.attempt; count = a.attempt.count } };

    ghost invariant = { λ a. IsProgram a.attempt };
}

/// Does nothing. Called for its contract, that the effects that are left are the office's.
fn effects_are(attempt: &OfficeAttempt)
    ensures { AreEffects (attempt_at attempt.now).effects }
{
    match attempt.decision() {
        Some(decided) => decided.is_of_the_office(),
        None => {}
    }
}

/// Does nothing. Called for its contract, that the attempt may go on by its job's script.
fn may_go_on(attempt: &OfficeAttempt, plan: &Plan)
    requires valid { IsValid plan.now (attempt_at attempt.now) }
    requires valid_point { ResumePointIsValidIn
        (λ job point seen. ResumePointIsValid (job_line job) point seen)
        (attempt_at attempt.now) attempt.now.point attempt.now.phase }
    ensures lawful { IsLawful plan.now }
    ensures scripts { AreScripts conn_eq reply_of effects_of
        (without_decisions Preferring (office_over plan.now))
        (λ job point seen. ResumePointIsValid (job_line job) point seen)
        most_readings most_seizings }
    ensures valid { IsValidAttempt conn_eq reply_of effects_of
        (without_decisions Preferring (office_over plan.now))
        (λ job point seen. ResumePointIsValid (job_line job) point seen) most_readings most_seizings
        attempt.now }
{
    let _ = attempt;
    xbar_plan::laws::every_plan_is_lawful(plan);
}

/// The office's step that makes this act.
#[tactic(auto, using(crate::proofs::Programs::act_step))]
#[inline(always)]
fn step_by(next: turns::Act<Conn, OfficeEffect>) -> Step
    requires { IsAct next }
    ensures step { result ≡ step_of_act next }
    ensures range { IsStep result }
{
    match next {
        turns::Act::Finished => Step::Finished,
        turns::Act::Request(conn) => Step::Request(conn),
        turns::Act::Seize(conn, expected) => Step::Seize(conn, expected),
        turns::Act::Withdraw(conn) => Step::Withdraw(conn),
        turns::Act::Free(conn) => Step::Free(conn),
        turns::Act::Test(word) => Step::Test(WordNo::new(word as u16)),
        turns::Act::Turn => Step::Turn,
        turns::Act::Make(effect) => effect.step(),
    }
}

/// The attempt's next step.
#[tactic(auto, using(crate::proofs::Programs::made_range))]
#[inline(always)]
fn step_of(attempt: &OfficeAttempt) -> Step
    requires { IsAttempt (attempt_at attempt.now) }
    ensures { IsNextStep (attempt_at attempt.now) result }
{
    step_by(next::<Offices, READINGS, HELD>(attempt))
}

impl Program {
    ghost use Rattle.std.specs.Prelude.{ℕ};
    ghost use Rattle.turns.specs.Attempt.{act, change, reply_in, request_in, restarted, turn_in, IsAnswerTo};
    ghost use Rattle.turns.specs.Runs.{is_finished};
    ghost use Rattle.attempts.specs.Counting.{counted_by};
    ghost use Rattle.attempts.specs.WalkOnWords.{LeadsTo};
    ghost use Rattle.attempts.specs.Running.{RunsFarEnough};
    ghost use Rattle.xbar_equip.specs.Word.{word_count};
    ghost use Rattle.xbar_plan.specs.Tables.{Tables};
    ghost use Rattle.xbar_jobs.specs.Attempt.{fresh, with_count};
    ghost use Rattle.xbar_jobs.specs.Counting.{after_answer};
    ghost use Rattle.xbar_jobs.specs.Office.{office};
    ghost use Rattle.xbar_jobs.specs.OnWords.{answer_of, step_word, words_after};
    ghost use Rattle.xbar_jobs.specs.Running.{GoesFar, RunsOn};
    ghost use Rattle.xbar_jobs.specs.Turning.{DoesAsOffice};

    /// An attempt that has made no step. It is valid under every lawful plan.
    pub fn new(job: Job) -> Self
        ensures begin { result ≡ fresh job }
        ensures plan { (plan : Tables) → IsLawful plan → IsValid plan result.attempt }
    {
        // Called only for its contract.
        job_is_in_range(&job);
        Program {
            attempt: begin::<Offices, READINGS, HELD>(job),
        }
    }

    /// The attempt's next step.
    pub fn next(&self) -> Step
        ensures step { result ≡ next_step self.now.attempt }
        ensures range { IsStep result }
        ensures word { step_word result < word_count }
    {
        let next = step_of(&self.attempt);
        // Called only for its contract.
        let _word = next.word();
        next
    }

    /// Whether the job is done, and nothing is held: there is no next step.
    pub fn is_done(&self) -> bool
        ensures { result ≡ is_finished (act self.now.attempt) }
    {
        is_done::<Offices, READINGS, HELD>(&self.attempt)
    }

    pub fn job(&self) -> &Job
        ensures { result.now ≡ self.now.attempt.job }
    {
        self.attempt.job()
    }

    /// The connectors held, in the order of seizing.
    pub fn held(&self) -> &[Conn]
        ensures { result.now ≡ self.now.attempt.held }
    {
        self.attempt.held()
    }

    /// The connector that is requested: neither seized yet, nor is the request withdrawn.
    pub fn requested(&self) -> Option<Conn>
        ensures { result ≡ request_in self.now.attempt.phase }
    {
        let phase = self.attempt.phase();
        match phase {
            Phase::Seizes(conn, _) | Phase::Withdraws(conn) => Some(conn),
            _ => None,
        }
    }

    /// The effects that are left to make, in their order. Empty until the job is decided.
    pub fn effects_left(&self) -> &[Effect]
        ensures effects { result.now ≡ self.now.attempt.effects }
        ensures range { AreEffects result.now }
    {
        effects_are(&self.attempt);
        match self.attempt.decision() {
            Some(decided) => decided.effects_from(self.attempt.made()),
            None => &[],
        }
    }

    /// The number of the job's turn, once it is taken.
    pub fn turn(&self) -> Option<u64>
        ensures { result ≡ turn_in self.now.attempt.phase }
    {
        self.attempt.turn()
    }

    /// The job's reply, known from its turn on.
    pub fn reply(&self) -> Option<&Reply>
        ensures reply { option_copied result
            ≡ reply_in self.now.attempt.phase self.now.attempt.reply }
        ensures known { is_some result ≡ is_some (turn_in self.now.attempt.phase) }
    {
        self.attempt.turn()?;
        Some(self.attempt.decision()?.reply())
    }

    /// The reply that the job decided on. The turn gives it its place among the replies.
    pub fn decided(&self) -> Option<&Reply>
        ensures { option_copied result ≡ self.now.attempt.reply }
    {
        Some(self.attempt.decision()?.reply())
    }

    /// The number of atomic steps of this attempt so far. It saturates at `u32::MAX`.
    pub fn count(&self) -> u32
        ensures { result ≡ self.now.count }
    {
        self.attempt.count()
    }

    /// Applies the answer to the attempt's next step. All calls must be given the same plan.
    pub fn take(&mut self, plan: &Plan, answer: Answer)
        requires answer { IsAnswerTo (act self.old.attempt) answer }
        requires plan { IsValid plan.now self.old.attempt }
        ensures change { self.new ≡ after_answer plan.now self.old answer }
        ensures plan { IsValid plan.now self.new.attempt }
        ensures turn { (number : ℕ) → answer ≡ Answer.Turn number
            → DoesAsOffice plan.now self.new.attempt }
    {
        may_go_on(&self.attempt, plan);
        apply::<Offices, READINGS, HELD>(&mut self.attempt, plan, answer);
        effects_are(&self.attempt);
    }

    /// Makes the attempt's next step on the words, as this marker, and returns what it was answered.
    /// All calls must be given the same plan.
    pub fn step(&mut self, plan: &Plan, marker: u32, words: &mut [u64]) -> Answer
        requires goes_on { is_finished (act self.old.attempt) ≡ false }
        requires marker { marker < 48 }
        requires plan { IsValid plan.now self.old.attempt }
        requires words { length words.old ≡ word_count }
        ensures answer { result ≡ answer_of marker (next_step self.old.attempt) words.old }
        ensures change { self.new ≡ after_answer plan.now self.old result }
        ensures words { words.new ≡ words_after marker (next_step self.old.attempt) words.old }
        ensures plan { IsValid plan.now self.new.attempt }
        ensures turn { (number : ℕ) → result ≡ Answer.Turn number
            → DoesAsOffice plan.now self.new.attempt }
    {
        may_go_on(&self.attempt, plan);
        let answer = step::<Offices, READINGS, HELD>(&mut self.attempt, plan, marker, words);
        effects_are(&self.attempt);
        answer
    }

    /// Goes on through its script by at most `most` steps, and returns their number.
    fn walk_on(&mut self, plan: &Plan, marker: u32, words: &mut [u64], most: u32) -> u32
        requires marker { marker < 48 }
        requires plan { IsValid plan.now self.old.attempt }
        ensures runs { RunsOn plan.now marker most result self.old words.old self.new words.new }
        ensures far { RunsFarEnough (office plan.now).lock_word words.new most result
            self.old.attempt.phase self.new.attempt.phase }
    {
        may_go_on(&self.attempt, plan);
        let made = run::<Offices, READINGS, HELD>(&mut self.attempt, plan, marker, words, most);
        effects_are(&self.attempt);
        made
    }

    /// Past its turn: makes the effects, then frees what is held. Returns the number of steps.
    fn close(&mut self, plan: &Plan, marker: u32, words: &mut [u64], most: u32) -> u32
        requires marker { marker < 48 }
        requires plan { IsValid plan.now self.old.attempt }
        requires turned { is_some (turn_in self.old.attempt.phase) ≡ true }
        requires words { length words.old ≡ word_count }
        ensures runs { RunsOn plan.now marker most result self.old words.old self.new words.new }
        ensures far { (result ≡ most) ⊎ (is_finished (act self.new.attempt) ≡ true) }
    {
        // Called only for its contract: it has 32 bits.
        let _count = self.count();
        let mut made = 0;
        while made < most && !self.is_done() {
            self.step(plan, marker, words);
            made += 1;
        }
        made
    }

    /// Makes the attempt's next steps on the words, with no other marker's steps in between, and
    /// returns their number: at most `most`, and none of them the turn. Past its turn it makes all
    /// that are left. In its script it goes on to the turn, or to a connector that isn't free. An
    /// attempt that is about to seize, take its turn or give back makes none. All calls must be
    /// given the same plan.
    pub fn run(&mut self, plan: &Plan, marker: u32, words: &mut [u64], most: u32) -> u32
        requires marker { marker < 48 }
        requires plan { IsValid plan.now self.old.attempt }
        requires words { length words.old ≡ word_count }
        ensures steps { LeadsTo (office plan.now) marker result
            (record { attempt = self.old.attempt; words = words.old })
            (record { attempt = self.new.attempt; words = words.new }) }
        ensures most { result ≤ most }
        ensures far { GoesFar plan.now most result words.new self.old.attempt self.new.attempt
            (turn_in self.old.attempt.phase) }
        ensures count { self.new.count ≡ counted_by result self.old.count }
        ensures plan { IsValid plan.now self.new.attempt }
    {
        if self.turn().is_some() {
            self.close(plan, marker, words, most)
        } else {
            self.walk_on(plan, marker, words, most)
        }
    }

    /// Restarts the job: the next steps give back all that is held, and then it begins anew. Past
    /// the turn nothing changes.
    pub fn restart(&mut self)
        ensures change { (plan : Tables)
            → self.new ≡ with_count self.old.count (restarted (office plan) self.old.attempt) }
        ensures plan { (plan : Tables) → IsLawful plan → IsValid plan self.old.attempt
            → IsValid plan self.new.attempt }
    {
        restart::<Offices, READINGS, HELD>(&mut self.attempt);
    }
}

/// An atomic step: one operation on one word.
#[derive(Clone, Copy, Debug, PartialEq, Eq)]
pub enum Step {
    /// Sets the marker's request bit in the connector's word.
    Request(Conn),
    /// Turns the marker's request into its hold, if the connector's word is still this value.
    Seize(Conn, u64),
    /// Clears the marker's request bit.
    Withdraw(Conn),
    /// Reads the word.
    Test(WordNo),
    /// Adds 1 to the turn word.
    Turn,
    /// Sets these bits in the word.
    Close(WordNo, u64),
    /// Keeps only these bits in the word.
    Open(WordNo, u64),
    /// Clears the holder in the connector's word.
    Free(Conn),
    /// No step: the job is done, and nothing is held.
    Finished,
}

impl Step {
    /// The word of the step. That of `Finished` is the turn word, which stays as it is.
    pub fn word(&self) -> WordNo
        requires { IsStep self.now }
        ensures word { result ≡ step_word self.now }
        ensures range { step_word self.now < word_count }
    {
        match self {
            Step::Request(conn) | Step::Seize(conn, _) | Step::Withdraw(conn) | Step::Free(conn) =>
                conn_word(*conn),
            Step::Test(word) | Step::Close(word, _) | Step::Open(word, _) => *word,
            Step::Turn | Step::Finished => turn_word(),
        }
    }
}
