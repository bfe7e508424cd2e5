//! How an attempt makes predictions: once it has seized a lock, its walk goes on at once by a
//! snapshot, and what it reads there is predicted.

ghost use Rattle.std.specs.Prelude.{◌≡◌, ◌<◌, ◌++◌, ◌∷◌, [], ℕ, IfNone, IfSome, None, false, is_some, length, take};
ghost use Rattle.turns.specs.Attempt.{asked_in, change};
ghost use Rattle.desk_attempts.specs.Speculation.{MayRollBack};
ghost use Rattle.desk_attempts.specs.Of.{HasWalkedSnapshot, HasPredicted, MayPredict, MayApply, IsValidSpeculation, now_of};
ghost use Rattle.attempts.specs.Of.{AreScripts, CanWalk, IsValid, attempt_of, system_of};

use crate::speculation::SpeculationOf;
use attempts::{AttemptOf, Scripts, apply, to_acquire, walk_by_steps, walk_on};
use turns::{Answer, Wanted};

/// Walks on by the snapshot `words`. Afterwards `roll_back` may return to the first `_readings`
/// readings, which the attempt had before.
#[inline(always)]
fn walk_snapshot<S: Scripts<READINGS, HELD>, const READINGS: usize, const HELD: usize>(
    predicted: &mut AttemptOf<S, READINGS, HELD>,
    setting: &S::Setting,
    words: &mut [u64],
    _readings: usize,
) -> Result<S::Decision, Wanted<S::Lock, usize>>
    requires may { MayPredict S.Lock.eq S.Scripts setting.now predicted.old }
    requires readings { _readings ≡ length predicted.old.readings }
    ensures seen { HasWalkedSnapshot S.Lock.eq S.Scripts setting.now predicted.old predicted.new
        result }
    ensures back { MayRollBack (S.system setting.now) _readings predicted.new }
{
    let mut left = u32::MAX;
    walk_by_steps::<S, READINGS, HELD>(predicted, setting, words, &mut left, 1)
}

/// Keeps the first `readings` readings and `locks` locks, with a new resume point, so that the
/// attempt can walk again.
fn roll_back<S: Scripts<READINGS, HELD>, const READINGS: usize, const HELD: usize>(
    predicted: &mut AttemptOf<S, READINGS, HELD>,
    _setting: &S::Setting,
    readings: usize,
    locks: usize,
)
    requires { MayRollBack (S.system _setting.now) readings predicted.old }
    ensures back { predicted.new
        ≡ record predicted.old {
          readings = take readings predicted.old.readings;
          held = take locks predicted.old.held;
          point = predicted.new.point;
        } }
    ensures walk { CanWalk S.Lock.eq S.Scripts _setting.now predicted.new }
{
    let start = S::start(predicted.job());
    predicted.truncate(readings, locks, start);
}

/// Walks on by the snapshot `words`, and returns how many readings are validated: the rest are
/// predictions. A walk that seizes a lock on its way is undone, and repeated without the snapshot;
/// then there are no predictions (None).
#[inline(always)]
fn predict_by_walk<S: Scripts<READINGS, HELD>, const READINGS: usize, const HELD: usize>(
    predicted: &mut AttemptOf<S, READINGS, HELD>,
    setting: &S::Setting,
    words: &mut [u64],
) -> Option<usize>
    requires { MayPredict S.Lock.eq S.Scripts setting.now predicted.old }
    ensures { HasPredicted S.Lock.eq S.Scripts setting.now
        predicted.old (record { predicted = predicted.new; validated = result }) }
{
    let (readings, locks) = predicted.counts();
    let found = walk_snapshot::<S, READINGS, HELD>(predicted, setting, words, readings);
    let (_, locks_after) = predicted.counts();
    if locks_after == locks {
        predicted.continue_with(found);
        Some(readings)
    } else {
        drop(found);
        roll_back::<S, READINGS, HELD>(predicted, setting, readings, locks);
        walk_on::<S, READINGS, HELD>(predicted, setting);
        None
    }
}

/// Like `predict_by_walk`, for an attempt without predictions.
#[inline(always)]
fn predict<S: Scripts<READINGS, HELD>, const READINGS: usize, const HELD: usize>(
    program: &mut SpeculationOf<S, READINGS, HELD>,
    setting: &S::Setting,
    words: &mut [u64],
)
    requires { MayPredict S.Lock.eq S.Scripts setting.now program.old.predicted }
    ensures { HasPredicted S.Lock.eq S.Scripts setting.now
        program.old.predicted program.new }
{
    let validated = predict_by_walk::<S, READINGS, HELD>(&mut program.predicted, setting, words);
    program.validated = validated;
}

/// The lock that the attempt's next step requests or seizes, and for which it has room. None in
/// other phases.
fn lock_to_acquire<S: Scripts<READINGS, HELD>, const READINGS: usize, const HELD: usize>(
    program: &SpeculationOf<S, READINGS, HELD>,
    setting: &S::Setting,
) -> Option<S::Lock>
    requires scripts { AreScripts S.Lock.eq S.Scripts setting.now }
    requires valid { IsValid S.Lock.eq S.Scripts setting.now program.now.predicted }
    ensures lock { result ≡ asked_in program.now.predicted.phase }
    ensures room { IfSome result (λ lock. length program.now.predicted.held < HELD) }
    ensures walk { IfSome result (λ lock.
        CanWalk S.Lock.eq S.Scripts setting.now
        (record program.now.predicted { held = program.now.predicted.held ++ lock ∷ [] })) }
{
    to_acquire::<S, READINGS, HELD>(&program.predicted, setting)
}

/// Applies the answer to the pending step, for an attempt without predictions.
pub(crate) fn apply_plain<S: Scripts<READINGS, HELD>, const READINGS: usize, const HELD: usize>(
    program: &mut SpeculationOf<S, READINGS, HELD>,
    setting: &S::Setting,
    answer: Answer,
)
    requires setting { S.IsSetting setting.now }
    requires scripts { AreScripts S.Lock.eq S.Scripts setting.now }
    requires valid { IsValid S.Lock.eq S.Scripts setting.now program.old.predicted }
    ensures change { let O = system_of S.Lock.eq S.Scripts setting.now in
        attempt_of S.Scripts program.new.predicted
        ≡ change O (attempt_of S.Scripts program.old.predicted) answer }
    ensures valid { IsValid S.Lock.eq S.Scripts setting.now program.new.predicted }
    ensures validated { program.new.validated ≡ program.old.validated }
{
    apply::<S, READINGS, HELD>(&mut program.predicted, setting, answer);
}

/// Does nothing. Called for its contract, that an attempt without predictions is valid.
fn valid_without_predictions<S: Scripts<READINGS, HELD>, const READINGS: usize, const HELD: usize>(
    _program: &SpeculationOf<S, READINGS, HELD>,
    _setting: &S::Setting,
)
    requires may { MayApply S.Lock.eq S.Scripts _setting.now _program.now }
    requires none { _program.now.validated ≡ None }
    ensures setting { S.IsSetting _setting.now }
    ensures scripts { AreScripts S.Lock.eq S.Scripts _setting.now }
    ensures valid { IsValid S.Lock.eq S.Scripts _setting.now _program.now.predicted }
{}

/// Adds the lock that the step has seized, and counts that step. The attempt may then predict.
#[inline(always)]
fn hold_seized<S: Scripts<READINGS, HELD>, const READINGS: usize, const HELD: usize>(
    program: &mut SpeculationOf<S, READINGS, HELD>,
    setting: &S::Setting,
    lock: S::Lock,
)
    requires setting { S.IsSetting setting.now }
    requires scripts { AreScripts S.Lock.eq S.Scripts setting.now }
    requires undecided { false ≡ is_some program.old.predicted.decision }
    requires room { length program.old.predicted.held < HELD }
    requires walk { CanWalk S.Lock.eq S.Scripts setting.now
        (record program.old.predicted { held = program.old.predicted.held ++ lock ∷ [] }) }
    ensures held { program.new.predicted
        ≡ record (record program.old.predicted { held = program.old.predicted.held ++ lock ∷ [] }) {
          count = program.new.predicted.count;
        } }
    ensures look { MayPredict S.Lock.eq S.Scripts setting.now program.new.predicted }
{
    let _ = setting;
    program.hold(lock);
}

/// The lock was seized: the attempt holds it, walks on, and makes predictions by the snapshot
/// `words`. Not inlined, so that a step that seizes no lock doesn't pay for a walk's locals.
#[inline(never)]
pub(crate) fn apply_seized<S: Scripts<READINGS, HELD>, const READINGS: usize, const HELD: usize>(
    program: &mut SpeculationOf<S, READINGS, HELD>,
    setting: &S::Setting,
    words: &mut [u64],
)
    requires may { MayApply S.Lock.eq S.Scripts setting.now program.old }
    requires none { program.old.validated ≡ None }
    ensures change { let O = system_of S.Lock.eq S.Scripts setting.now in
        now_of S.Scripts program.new
        ≡ change O (now_of S.Scripts program.old) Answer.Seized }
    ensures valid { IsValidSpeculation S.Lock.eq S.Scripts setting.now program.new }
{
    // Called for its contract alone.
    valid_without_predictions::<S, READINGS, HELD>(program, setting);
    // An attempt that seizes a lock has no decision. If it had one, it wouldn't need to predict.
    if program.has_decided() {
        apply_plain::<S, READINGS, HELD>(program, setting, Answer::Seized);
    } else if let Some(lock) = lock_to_acquire::<S, READINGS, HELD>(program, setting) {
        hold_seized::<S, READINGS, HELD>(program, setting, lock);
        predict::<S, READINGS, HELD>(program, setting, words);
    }
}
