//! An attempt by its validated readings alone: its next step, its outcome, and what a step makes
//! of it.

ghost use Rattle.std.specs.Prelude.{◌≡◌, ◌<◌, IfNone, IfSome, None};
ghost use Rattle.turns.specs.Attempt.{act, answer_to, asked_in, begin as begin_of, next as next_of, operated, restarted, turn_in};
ghost use Rattle.turns.specs.Runs.{is_finished};
ghost use Rattle.turns.specs.Sharings.{sharing_of};
ghost use Rattle.turns.specs.Outcomes.{IsPastTurn, is_giving_back, outcome_of};
ghost use Rattle.desk_attempts.specs.Of.{MayApply, IsValidSpeculation, now_of};
ghost use Rattle.attempts.specs.Of.{AreScripts, IsValid, attempt_of, system_of};

use crate::answering::{apply_to_prediction, apply_without_prediction, drop_predictions};
use crate::speculation::{Speculation, SpeculationOf};
use attempts::{
    Scripts, apply_past_turn, begin, begin_next, is_done, next, next_past_turn, next_without_lock,
    outcome, restart, step_answer,
};
use turns::{Act, Answer};

/// The attempt's next step: a test of the first predicted word, if there are predictions.
#[inline(always)]
pub(crate) fn next_now<S: Scripts<READINGS, HELD>, const READINGS: usize, const HELD: usize>(
    program: &SpeculationOf<S, READINGS, HELD>,
) -> Act<S::Lock, S::Effect>
    ensures { result ≡ act (now_of S.Scripts program.now) }
{
    match program.prediction() {
        Some(prediction) => Act::Test(prediction.word),
        None => next::<S, READINGS, HELD>(&program.predicted),
    }
}

/// The next step, if it is known at once to be a test or the turn, which ask for no lock.
#[inline(always)]
pub(crate) fn next_without_lock_now<
    S: Scripts<READINGS, HELD>,
    const READINGS: usize,
    const HELD: usize,
>(program: &SpeculationOf<S, READINGS, HELD>) -> Option<Act<S::Lock, S::Effect>>
    ensures next { IfSome result (λ step.
        step ≡ act (now_of S.Scripts program.now)) }
    ensures asks_none { IfSome result (λ step.
        asked_in (now_of S.Scripts program.now).phase ≡ None) }
{
    match program.prediction() {
        Some(prediction) => Some(Act::Test(prediction.word)),
        None => next_without_lock::<S, READINGS, HELD>(&program.predicted),
    }
}

/// The next step, if the attempt is past its turn.
#[inline(always)]
pub(crate) fn next_past_turn_now<
    S: Scripts<READINGS, HELD>,
    const READINGS: usize,
    const HELD: usize,
>(program: &SpeculationOf<S, READINGS, HELD>) -> Option<Act<S::Lock, S::Effect>>
    ensures next { IfSome result (λ step.
        step ≡ act (now_of S.Scripts program.now)) }
    ensures turned { IfSome result (λ step.
        IsPastTurn (now_of S.Scripts program.now).phase) }
    ensures none { IfNone result
        (¬ IsPastTurn (now_of S.Scripts program.now).phase) }
{
    match program.prediction() {
        Some(_) => None,
        None => next_past_turn::<S, READINGS, HELD>(&program.predicted),
    }
}

/// Applies a step past the turn, whatever number it found.
#[inline(always)]
pub(crate) fn apply_past_turn_now<
    S: Scripts<READINGS, HELD>,
    const READINGS: usize,
    const HELD: usize,
>(program: &mut SpeculationOf<S, READINGS, HELD>)
    ensures operates { attempt_of S.Scripts program.new.predicted
        ≡ operated (attempt_of S.Scripts program.old.predicted)
        (attempt_of S.Scripts program.old.predicted).effects }
    ensures phase { program.new.predicted.phase ≡ program.old.predicted.phase }
    ensures validated { program.new.validated ≡ program.old.validated }
{
    apply_past_turn::<S, READINGS, HELD>(&mut program.predicted);
}

/// Whether the attempt has no next step: its job is done, and it holds nothing.
#[inline(always)]
pub(crate) fn has_ended<S: Scripts<READINGS, HELD>, const READINGS: usize, const HELD: usize>(
    program: &SpeculationOf<S, READINGS, HELD>,
) -> bool
    ensures { result ≡ is_finished (act (now_of S.Scripts program.now)) }
{
    match program.prediction() {
        Some(_) => false,
        None => is_done::<S, READINGS, HELD>(&program.predicted),
    }
}

/// Whether the attempt is giving back: it was given up, and has a request to withdraw or locks to
/// free.
pub(crate) fn gives_back<S: Scripts<READINGS, HELD>, const READINGS: usize, const HELD: usize>(
    program: &SpeculationOf<S, READINGS, HELD>,
) -> bool
    ensures { result ≡ is_giving_back (now_of S.Scripts program.now).phase }
{
    match program.prediction() {
        Some(_) => false,
        None => program.predicted.is_giving_back(),
    }
}

/// The number of the attempt's turn, its job and its reply. None before the turn.
pub(crate) fn outcome_now<S: Scripts<READINGS, HELD>, const READINGS: usize, const HELD: usize>(
    program: &SpeculationOf<S, READINGS, HELD>,
) -> Option<(u64, S::Job, S::Reply)>
    ensures { result ≡ outcome_of (now_of S.Scripts program.now) }
{
    match program.prediction() {
        Some(_) => None,
        None => outcome::<S, READINGS, HELD>(&program.predicted),
    }
}

/// The lock that the attempt's next step requests or seizes.
pub fn asked<S: Scripts<READINGS, HELD>, const READINGS: usize, const HELD: usize>(
    program: &SpeculationOf<S, READINGS, HELD>,
) -> Option<S::Lock>
    ensures { result ≡ asked_in (now_of S.Scripts program.now).phase }
{
    match program.prediction() {
        Some(_) => None,
        None => program.predicted.lock_to_acquire(),
    }
}

/// The number of the attempt's turn, once it has taken it.
pub fn turn<S: Scripts<READINGS, HELD>, const READINGS: usize, const HELD: usize>(
    program: &SpeculationOf<S, READINGS, HELD>,
) -> Option<u64>
    ensures { result ≡ turn_in (now_of S.Scripts program.now).phase }
{
    match program.prediction() {
        Some(_) => None,
        None => program.predicted.turn(),
    }
}

/// An attempt that has made no step. It doesn't depend on the setting.
pub(crate) fn begin_now<S: Scripts<READINGS, HELD>, const READINGS: usize, const HELD: usize>(
    job: S::Job,
) -> SpeculationOf<S, READINGS, HELD>
    ensures begins { (setting : S.Setting) →
        now_of S.Scripts result
        ≡ begin_of (system_of S.Lock.eq S.Scripts setting) job }
    ensures valid { (setting : S.Setting) →
        AreScripts S.Lock.eq S.Scripts setting → (S.system setting).IsJob job →
        IsValidSpeculation S.Lock.eq S.Scripts setting result }
{
    Speculation {
        predicted: begin::<S, READINGS, HELD>(job),
        validated: None,
    }
}

/// Like `begin_now`, but overwrites an attempt at another job.
pub(crate) fn begin_next_now<S: Scripts<READINGS, HELD>, const READINGS: usize, const HELD: usize>(
    program: &mut SpeculationOf<S, READINGS, HELD>,
    job: S::Job,
)
    ensures begins { (setting : S.Setting) →
        now_of S.Scripts program.new
        ≡ begin_of (system_of S.Lock.eq S.Scripts setting) job }
    ensures valid { (setting : S.Setting) →
        AreScripts S.Lock.eq S.Scripts setting → (S.system setting).IsJob job →
        IsValidSpeculation S.Lock.eq S.Scripts setting program.new }
{
    begin_next::<S, READINGS, HELD>(&mut program.predicted, job);
    program.validate_all();
}

/// Like `restart_now`, for an attempt without predictions.
fn restart_plain<S: Scripts<READINGS, HELD>, const READINGS: usize, const HELD: usize>(
    program: &mut SpeculationOf<S, READINGS, HELD>,
)
    ensures restarts { (setting : S.Setting) →
        let O = system_of S.Lock.eq S.Scripts setting in
        attempt_of S.Scripts program.new.predicted
        ≡ restarted O (attempt_of S.Scripts program.old.predicted) }
    ensures valid { (setting : S.Setting) →
        AreScripts S.Lock.eq S.Scripts setting →
        IsValid S.Lock.eq S.Scripts setting
        program.old.predicted →
        IsValid S.Lock.eq S.Scripts setting
        program.new.predicted }
    ensures validated { program.new.validated ≡ program.old.validated }
{
    restart::<S, READINGS, HELD>(&mut program.predicted);
}

/// Drops the predictions and gives up, so that the attempt begins anew once its request is
/// withdrawn and its locks are freed. Past the turn nothing changes.
pub(crate) fn restart_now<S: Scripts<READINGS, HELD>, const READINGS: usize, const HELD: usize>(
    program: &mut SpeculationOf<S, READINGS, HELD>,
)
    ensures restarts { (setting : S.Setting) →
        let O = system_of S.Lock.eq S.Scripts setting in
        now_of S.Scripts program.new
        ≡ restarted O (now_of S.Scripts program.old) }
    ensures valid { (setting : S.Setting) →
        AreScripts S.Lock.eq S.Scripts setting →
        IsValidSpeculation S.Lock.eq S.Scripts setting program.old →
        IsValidSpeculation S.Lock.eq S.Scripts setting program.new }
{
    if let Some(prediction) = program.prediction() {
        drop_predictions::<S, READINGS, HELD>(program, prediction.word);
        restart_plain::<S, READINGS, HELD>(program);
    } else {
        program.validate_all();
        restart_plain::<S, READINGS, HELD>(program);
    }
}

/// Applies the number that the pending step found in its word, and returns the answer to that
/// step. `snapshot` is used if the step seized a lock.
#[inline(always)]
pub(crate) fn apply_found<S: Scripts<READINGS, HELD>, const READINGS: usize, const HELD: usize>(
    setting: &S::Setting,
    actor: u32,
    program: &mut SpeculationOf<S, READINGS, HELD>,
    found: u64,
    snapshot: &mut [u64],
) -> Answer
    requires actor { actor < (sharing_of (S.system setting.now).sharing).most }
    requires may { MayApply S.Lock.eq S.Scripts setting.now program.old }
    ensures next { let O = system_of S.Lock.eq S.Scripts setting.now in
        now_of S.Scripts program.new
        ≡ next_of O actor (now_of S.Scripts program.old) found }
    ensures answer { let O = system_of S.Lock.eq S.Scripts setting.now in
        result ≡ answer_to O actor (act (now_of S.Scripts program.old)) found }
    ensures valid { IsValidSpeculation S.Lock.eq S.Scripts setting.now program.new }
{
    match program.prediction() {
        Some(prediction) => {
            apply_to_prediction::<S, READINGS, HELD>(program, setting, prediction, found);
            Answer::Value(found)
        }
        None => {
            let phase = program.predicted.phase();
            let answer = step_answer(S::sharing(setting), actor, phase, found);
            apply_without_prediction::<S, READINGS, HELD>(program, setting, answer, snapshot);
            answer
        }
    }
}
