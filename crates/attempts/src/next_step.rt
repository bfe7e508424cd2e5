//! The next step of an attempt, and its outcome past the turn.

ghost use Rattle.std.specs.Prelude.{◌≡◌, ◌<◌, ◌+◌, ◌∷◌, ◌^◌, [], IfNone, IfSome, None};
ghost use Rattle.turns.specs.Attempt.{act, asked_in, closing_act, free_act};
ghost use Rattle.turns.specs.Runs.{is_finished};
ghost use Rattle.turns.specs.Outcomes.{IsPastTurn, outcome_of};
ghost use Rattle.attempts.specs.Validity.{effects_left};
ghost use Rattle.attempts.specs.Of.{attempt_of};

use crate::attempt::AttemptOf;
use crate::scripts::Scripts;
use turns::{Act, Phase};

/// The step that frees the lock seized first. `Act::Finished` if none is held.
fn next_free<S: Scripts<READINGS, HELD>, const READINGS: usize, const HELD: usize>(
    attempt: &AttemptOf<S, READINGS, HELD>,
) -> Act<S::Lock, S::Effect>
    ensures { result ≡ free_act attempt.now.held }
{
    match attempt.seen.held().first() {
        Some(lock) => Act::Free(*lock),
        None => Act::Finished,
    }
}

/// The first of the decision's effects that isn't made yet. None if there is none left, or no
/// decision.
pub fn next_effect<S: Scripts<READINGS, HELD>, const READINGS: usize, const HELD: usize>(
    attempt: &AttemptOf<S, READINGS, HELD>,
) -> Option<S::Effect>
    ensures some { IfSome result (λ effect.
        effects_left S.effects_of attempt.now.decision attempt.now.made
        ≡ effect ∷ effects_left S.effects_of attempt.now.decision (attempt.now.made + 1)) }
    ensures none { IfNone result
        (effects_left S.effects_of attempt.now.decision attempt.now.made ≡ []) }
    ensures more { IfSome result (λ effect. attempt.now.made + 1 < 2 ^ 64) }
{
    match &attempt.decision {
        Some(decision) => S::effect(decision, attempt.made),
        None => None,
    }
}

/// The next step past the turn: an effect; once all are made, the freeing of a lock; then
/// `Act::Finished`.
fn next_closing<S: Scripts<READINGS, HELD>, const READINGS: usize, const HELD: usize>(
    attempt: &AttemptOf<S, READINGS, HELD>,
) -> Act<S::Lock, S::Effect>
    ensures { result
        ≡ closing_act (attempt_of S.Scripts attempt.now).effects attempt.now.held }
{
    match next_effect::<S, READINGS, HELD>(attempt) {
        Some(effect) => Act::Make(effect),
        None => next_free::<S, READINGS, HELD>(attempt),
    }
}

/// The attempt's next step. `Act::Finished` if there is none.
pub fn next<S: Scripts<READINGS, HELD>, const READINGS: usize, const HELD: usize>(
    attempt: &AttemptOf<S, READINGS, HELD>,
) -> Act<S::Lock, S::Effect>
    ensures { result ≡ act (attempt_of S.Scripts attempt.now) }
{
    let phase = attempt.phase;
    match phase {
        Phase::Requests(lock) => Act::Request(lock),
        Phase::Seizes(lock, expected) => Act::Seize(lock, expected),
        Phase::Tests(word) => Act::Test(word),
        Phase::Turns => Act::Turn,
        Phase::Withdraws(lock) => Act::Withdraw(lock),
        Phase::GivesBack => next_free::<S, READINGS, HELD>(attempt),
        Phase::Operates(_) => next_closing::<S, READINGS, HELD>(attempt),
    }
}

/// The next step, if it is a test or the turn, and None otherwise. Looks at the phase alone.
#[inline(always)]
pub fn next_without_lock<S: Scripts<READINGS, HELD>, const READINGS: usize, const HELD: usize>(
    attempt: &AttemptOf<S, READINGS, HELD>,
) -> Option<Act<S::Lock, S::Effect>>
    ensures next { IfSome result (λ step. step ≡ act (attempt_of S.Scripts attempt.now)) }
    ensures asks_none { IfSome result (λ step. asked_in attempt.now.phase ≡ None) }
{
    let phase = attempt.phase;
    match phase {
        Phase::Tests(word) => Some(Act::Test(word)),
        Phase::Turns => Some(Act::Turn),
        _ => None,
    }
}

/// The next step, if the attempt is past its turn: `Act::Finished` once nothing is left. None
/// before the turn.
#[inline(always)]
pub fn next_past_turn<S: Scripts<READINGS, HELD>, const READINGS: usize, const HELD: usize>(
    attempt: &AttemptOf<S, READINGS, HELD>,
) -> Option<Act<S::Lock, S::Effect>>
    ensures next { IfSome result (λ step. step ≡ act (attempt_of S.Scripts attempt.now)) }
    ensures turned { IfSome result (λ step. IsPastTurn attempt.now.phase) }
    ensures none { IfNone result (¬ IsPastTurn attempt.now.phase) }
{
    let phase = attempt.phase;
    if let Phase::Operates(_) = phase {
        Some(next_closing::<S, READINGS, HELD>(attempt))
    } else {
        None
    }
}

fn holds_none<S: Scripts<READINGS, HELD>, const READINGS: usize, const HELD: usize>(
    attempt: &AttemptOf<S, READINGS, HELD>,
) -> bool
    ensures { result ≡ is_finished (free_act {Effect = S.Effect} attempt.now.held) }
{
    attempt.seen.holds_none()
}

/// Whether there is neither an effect left to make nor a lock to free.
fn is_closed<S: Scripts<READINGS, HELD>, const READINGS: usize, const HELD: usize>(
    attempt: &AttemptOf<S, READINGS, HELD>,
) -> bool
    ensures { result ≡ is_finished
        (closing_act (attempt_of S.Scripts attempt.now).effects attempt.now.held) }
{
    match next_effect::<S, READINGS, HELD>(attempt) {
        Some(_) => false,
        None => holds_none::<S, READINGS, HELD>(attempt),
    }
}

/// Whether the attempt has no next step: its job is done, and it holds nothing. This is asked
/// after each step, so the phase alone decides wherever it can. (An attempt in `GivesBack`
/// with no lock left would have no next step either, but `apply` and `restart` never leave one.)
#[inline]
pub fn is_done<S: Scripts<READINGS, HELD>, const READINGS: usize, const HELD: usize>(
    attempt: &AttemptOf<S, READINGS, HELD>,
) -> bool
    ensures { result ≡ is_finished (act (attempt_of S.Scripts attempt.now)) }
{
    let phase = attempt.phase;
    match phase {
        Phase::GivesBack => holds_none::<S, READINGS, HELD>(attempt),
        Phase::Operates(_) => is_closed::<S, READINGS, HELD>(attempt),
        _ => false,
    }
}

/// The number of the attempt's turn, its job and its reply. None before the turn.
pub fn outcome<S: Scripts<READINGS, HELD>, const READINGS: usize, const HELD: usize>(
    attempt: &AttemptOf<S, READINGS, HELD>,
) -> Option<(u64, S::Job, S::Reply)>
    ensures { result ≡ outcome_of (attempt_of S.Scripts attempt.now) }
{
    let turn = attempt.turn()?;
    match &attempt.decision {
        Some(decision) => Some((turn, attempt.job, S::reply(decision))),
        None => None,
    }
}
