//! How the answer to its next step changes an attempt. Some of the functions take the setting, the
//! word or the value for their contracts alone.

ghost use Rattle.std.specs.Prelude.{◌≡◌, ◌<◌, ◌++◌, ◌∷◌, [], ℕ, IfNone, IfSome, length};
ghost use Rattle.turns.specs.Attempt.{asked_in, change, denied_request, giving_back, operated, rest_of};
ghost use Rattle.attempts.specs.Counting.{count_in, counted, counted_by};
ghost use Rattle.attempts.specs.WalkOnWords.{walk_on_words};
ghost use Rattle.attempts.specs.Points.{GoesOnTo};
ghost use Rattle.attempts.specs.Running.{WalksBySteps};
ghost use Rattle.attempts.specs.Applied.{MayAskNext, MayWalk};
ghost use Rattle.attempts.specs.Of.{AreScripts, CanWalk, MayContinue, MayRead, ResumePointHolds, IsValid, Applies, WalksOn, attempt_of, system_of};

use crate::attempt::AttemptOf;
use crate::next_step::next_effect;
use crate::scripts::Scripts;
use crate::seen::Seen;
use crate::starting::{give_back, roll_back};
use turns::{Answer, Phase, Reading, Wanted};

/// Calls `Scripts::walk`, with its requirements gathered into one clause.
fn walk_by<S: Scripts<READINGS, HELD>, const READINGS: usize, const HELD: usize>(
    setting: &S::Setting,
    job: &S::Job,
    point: &mut S::ResumePoint,
    seen: &mut Seen<S::Lock, READINGS, HELD>,
    words: &mut [u64],
) -> Result<S::Decision, Wanted<S::Lock, usize>>
    requires { MayWalk (S.IsSetting setting.now) (S.system setting.now)
        (S.ResumePointIsValid setting.now)
        job.now point.old seen.old.seen }
    ensures walk { record { found = result; state = seen.new; words = words.new }
        ≡ walk_on_words S.Lock.eq (S.system setting.now).lock_word READINGS HELD (λ _ value. value)
        ((S.system setting.now).script job.now) seen.old words.old }
    ensures valid_point { S.ResumePointIsValid setting.now job.now point.new seen.new.seen }
{
    S::walk(setting, job, point, seen, words)
}

/// Runs the job's script on what the attempt has seen, with at most `left` steps of its own on
/// `words`, and subtracts the steps made from `left`. It reads words, and seizes free locks by
/// writing `held_word`. Changes what was seen and the resume point, but not the phase: for that,
/// pass the result to `continue_with`.
#[inline(always)]
pub fn walk_by_steps<S: Scripts<READINGS, HELD>, const READINGS: usize, const HELD: usize>(
    attempt: &mut AttemptOf<S, READINGS, HELD>,
    setting: &S::Setting,
    words: &mut [u64],
    left: &mut u32,
    held_word: u64,
) -> Result<S::Decision, Wanted<S::Lock, usize>>
    requires setting { S.IsSetting setting.now }
    requires walk { CanWalk S.Lock.eq S.Scripts setting.now attempt.old }
    ensures { WalksBySteps S.Lock.eq (S.system setting.now)
        (S.ResumePointIsValid setting.now) READINGS HELD
        left.old held_word attempt.old words.old attempt.new words.new result left.new }
{
    attempt.seen.allow(*left, held_word);
    let found = walk_by::<S, READINGS, HELD>(
        setting,
        &attempt.job,
        &mut attempt.point,
        &mut attempt.seen,
        words,
    );
    *left = attempt.seen.left();
    found
}

/// Runs the job's script on what the attempt has seen, and sets the phase from the result. Not
/// inlined, so that a step without a walk doesn't pay for a walk's locals.
#[inline(never)]
pub fn walk_on<S: Scripts<READINGS, HELD>, const READINGS: usize, const HELD: usize>(
    attempt: &mut AttemptOf<S, READINGS, HELD>,
    setting: &S::Setting,
)
    requires setting { S.IsSetting setting.now }
    requires walk { CanWalk S.Lock.eq S.Scripts setting.now attempt.old }
    ensures { WalksOn S.Lock.eq S.Scripts setting.now attempt.old attempt.new }
{
    // The walk is allowed no steps of its own. The result is matched here and not in
    // `continue_with`, so that a walk that stops early doesn't move a `Result` as large as a
    // decision.
    match walk_by_steps::<S, READINGS, HELD>(attempt, setting, &mut [], &mut 0, 0) {
        Ok(decision) => attempt.decide(decision),
        Err(wanted) => attempt.want(wanted),
    }
}

/// The arguments of `Scripts::following` for an attempt that tests this word.
#[inline(always)]
fn walk_inputs<'a, S: Scripts<READINGS, HELD>, const READINGS: usize, const HELD: usize>(
    attempt: &'a AttemptOf<S, READINGS, HELD>,
    _setting: &S::Setting,
    _word: usize,
) -> (
    &'a S::Job,
    &'a S::ResumePoint,
    &'a Seen<S::Lock, READINGS, HELD>,
)
    requires setting { S.IsSetting _setting.now }
    requires valid { IsValid S.Lock.eq S.Scripts _setting.now attempt.now }
    requires tests { attempt.now.phase ≡ Phase.Tests _word }
    ensures may { MayAskNext (S.IsSetting _setting.now) S.Lock.eq (S.system _setting.now)
        (S.ResumePointIsValid _setting.now) result.0.now result.1.now result.2.now.seen _word }
    ensures job { result.0.now ≡ attempt.now.job }
    ensures seen { result.2.now.seen
        ≡ record { held = attempt.now.held; readings = attempt.now.readings } }
{
    (&attempt.job, &attempt.point, &attempt.seen)
}

/// The word that the attempt tests after this one, if that is known without a walk.
fn following<S: Scripts<READINGS, HELD>, const READINGS: usize, const HELD: usize>(
    attempt: &AttemptOf<S, READINGS, HELD>,
    setting: &S::Setting,
    word: usize,
) -> Option<usize>
    requires setting { S.IsSetting setting.now }
    requires valid { IsValid S.Lock.eq S.Scripts setting.now attempt.now }
    requires tests { attempt.now.phase ≡ Phase.Tests word }
    ensures { IfSome result
        (GoesOnTo S.Lock.eq (record { held = attempt.now.held; readings = attempt.now.readings })
        ((S.system setting.now).script attempt.now.job) word) }
{
    let (job, point, seen) = walk_inputs::<S, READINGS, HELD>(attempt, setting, word);
    S::following(setting, job, point, seen, word)
}

/// The request was made, and the lock's word is `word` now: the seize is next.
fn apply_requested<S: Scripts<READINGS, HELD>, const READINGS: usize, const HELD: usize>(
    attempt: &mut AttemptOf<S, READINGS, HELD>,
    setting: &S::Setting,
    word: u64,
)
    requires valid { IsValid S.Lock.eq S.Scripts setting.now attempt.old }
    ensures { Applies S.Lock.eq S.Scripts setting.now
        (Answer.Asked word) attempt.old attempt.new }
{
    let phase = attempt.phase;
    if let Phase::Requests(lock) = phase {
        attempt.phase = Phase::Seizes(lock, word);
    }
}

/// The lock's word was not as expected: the seize is tried again, with `word` expected.
fn apply_changed<S: Scripts<READINGS, HELD>, const READINGS: usize, const HELD: usize>(
    attempt: &mut AttemptOf<S, READINGS, HELD>,
    setting: &S::Setting,
    word: u64,
)
    requires valid { IsValid S.Lock.eq S.Scripts setting.now attempt.old }
    ensures { Applies S.Lock.eq S.Scripts setting.now
        (Answer.Again word) attempt.old attempt.new }
{
    let phase = attempt.phase;
    if let Phase::Seizes(lock, _) = phase {
        attempt.phase = Phase::Seizes(lock, word);
    }
}

/// The request for the lock was denied: withdraws it next. Where requests seize at once there is
/// nothing to withdraw, and the attempt gives back.
fn deny_request<S: Scripts<READINGS, HELD>, const READINGS: usize, const HELD: usize>(
    attempt: &mut AttemptOf<S, READINGS, HELD>,
    setting: &S::Setting,
    lock: S::Lock,
)
    ensures denied { let O = system_of S.Lock.eq S.Scripts setting.now in
        attempt_of S.Scripts attempt.new
        ≡ denied_request O (attempt_of S.Scripts attempt.old) lock }
    ensures point { ResumePointHolds S.Scripts setting.now attempt.new }
    ensures count { attempt.new.count ≡ attempt.old.count }
{
    if S::sharing(setting).asks() {
        attempt.deny(lock);
    } else {
        roll_back::<S, READINGS, HELD>(attempt);
    }
}

/// The lock was denied: another actor holds it, or is preferred.
fn apply_denied<S: Scripts<READINGS, HELD>, const READINGS: usize, const HELD: usize>(
    attempt: &mut AttemptOf<S, READINGS, HELD>,
    setting: &S::Setting,
)
    requires valid { IsValid S.Lock.eq S.Scripts setting.now attempt.old }
    ensures held { (holder : ℕ) → Applies S.Lock.eq S.Scripts setting.now
        (Answer.Held holder) attempt.old attempt.new }
    ensures preferred { (other : ℕ) → Applies S.Lock.eq S.Scripts setting.now
        (Answer.Preferred other) attempt.old attempt.new }
{
    let phase = attempt.phase;
    match phase {
        Phase::Requests(lock) => deny_request::<S, READINGS, HELD>(attempt, setting, lock),
        Phase::Seizes(lock, _) => attempt.deny(lock),
        _ => {}
    }
}

/// The lock that the attempt's next step requests or seizes. A valid attempt has room for it. None
/// in other phases.
pub fn to_acquire<S: Scripts<READINGS, HELD>, const READINGS: usize, const HELD: usize>(
    attempt: &AttemptOf<S, READINGS, HELD>,
    setting: &S::Setting,
) -> Option<S::Lock>
    requires scripts { AreScripts S.Lock.eq S.Scripts setting.now }
    requires valid { IsValid S.Lock.eq S.Scripts setting.now attempt.now }
    ensures lock { result ≡ asked_in attempt.now.phase }
    ensures room { IfSome result (λ lock. length attempt.now.held < HELD) }
    ensures walk { IfSome result (λ lock. CanWalk S.Lock.eq S.Scripts setting.now
        (record attempt.now { held = attempt.now.held ++ lock ∷ [] })) }
{
    let _ = setting;
    attempt.lock_to_acquire()
}

/// The lock was seized: the attempt holds it and walks on.
fn apply_seized<S: Scripts<READINGS, HELD>, const READINGS: usize, const HELD: usize>(
    attempt: &mut AttemptOf<S, READINGS, HELD>,
    setting: &S::Setting,
)
    requires { MayContinue S.Lock.eq S.Scripts setting.now attempt.old }
    ensures { Applies S.Lock.eq S.Scripts setting.now Answer.Seized attempt.old attempt.new }
{
    if let Some(lock) = to_acquire::<S, READINGS, HELD>(attempt, setting) {
        attempt.hold(lock);
        walk_on::<S, READINGS, HELD>(attempt, setting);
    }
}

/// The word that the attempt's next step tests. None in other phases.
fn to_test<S: Scripts<READINGS, HELD>, const READINGS: usize, const HELD: usize>(
    attempt: &AttemptOf<S, READINGS, HELD>,
    setting: &S::Setting,
    value: u64,
) -> Option<usize>
    requires { MayContinue S.Lock.eq S.Scripts setting.now attempt.now }
    ensures reads { IfSome result (λ word.
        MayRead S.Lock.eq S.Scripts setting.now
        (record { word = word; value = value }) attempt.now) }
    ensures none { IfNone result ((word : ℕ) → attempt.now.phase ≡ Phase.Tests word → ⊥) }
{
    let phase = attempt.phase;
    if let Phase::Tests(word) = phase {
        Some(word)
    } else {
        None
    }
}

/// Adds the reading and walks on.
fn read_on<S: Scripts<READINGS, HELD>, const READINGS: usize, const HELD: usize>(
    attempt: &mut AttemptOf<S, READINGS, HELD>,
    setting: &S::Setting,
    reading: Reading<usize>,
)
    requires setting { S.IsSetting setting.now }
    requires reads { MayRead S.Lock.eq S.Scripts setting.now reading attempt.old }
    ensures { WalksOn S.Lock.eq S.Scripts setting.now
        (record attempt.old { readings = attempt.old.readings ++ reading ∷ [] }) attempt.new }
{
    attempt.add_reading(reading);
    walk_on::<S, READINGS, HELD>(attempt, setting);
}

/// Adds the reading and goes straight on to testing `next`, without a walk.
fn read_up_to<S: Scripts<READINGS, HELD>, const READINGS: usize, const HELD: usize>(
    attempt: &mut AttemptOf<S, READINGS, HELD>,
    setting: &S::Setting,
    reading: Reading<usize>,
    next: usize,
)
    requires reads { MayRead S.Lock.eq S.Scripts setting.now reading attempt.old }
    ensures { attempt.new
        ≡ record attempt.old {
          readings = attempt.old.readings ++ reading ∷ [];
          phase = Phase.Tests next;
        } }
{
    attempt.add_reading(reading);
    attempt.phase = Phase::Tests(next);
}

/// Adds the reading and goes on, without a walk if `following` knows the next word.
fn read<S: Scripts<READINGS, HELD>, const READINGS: usize, const HELD: usize>(
    attempt: &mut AttemptOf<S, READINGS, HELD>,
    setting: &S::Setting,
    reading: Reading<usize>,
)
    requires may { MayContinue S.Lock.eq S.Scripts setting.now attempt.old }
    requires reads { MayRead S.Lock.eq S.Scripts setting.now reading attempt.old }
    ensures { Applies S.Lock.eq S.Scripts setting.now
        (Answer.Value reading.value) attempt.old attempt.new }
{
    match following::<S, READINGS, HELD>(attempt, setting, reading.word) {
        Some(next) => read_up_to::<S, READINGS, HELD>(attempt, setting, reading, next),
        None => read_on::<S, READINGS, HELD>(attempt, setting, reading),
    }
}

/// The tested word has this value: the attempt reads it and goes on.
fn apply_value<S: Scripts<READINGS, HELD>, const READINGS: usize, const HELD: usize>(
    attempt: &mut AttemptOf<S, READINGS, HELD>,
    setting: &S::Setting,
    value: u64,
)
    requires { MayContinue S.Lock.eq S.Scripts setting.now attempt.old }
    ensures { Applies S.Lock.eq S.Scripts setting.now (Answer.Value value) attempt.old attempt.new }
{
    if let Some(word) = to_test::<S, READINGS, HELD>(attempt, setting, value) {
        read::<S, READINGS, HELD>(attempt, setting, Reading { word, value });
    }
}

/// The turn was taken and has this number: next are the effects, and the freeing of locks.
fn apply_turn<S: Scripts<READINGS, HELD>, const READINGS: usize, const HELD: usize>(
    attempt: &mut AttemptOf<S, READINGS, HELD>,
    setting: &S::Setting,
    number: u64,
)
    requires valid { IsValid S.Lock.eq S.Scripts setting.now attempt.old }
    ensures { Applies S.Lock.eq S.Scripts setting.now (Answer.Turn number) attempt.old attempt.new }
{
    let phase = attempt.phase;
    if let Phase::Turns = phase {
        attempt.phase = Phase::Operates(number);
    }
}

/// Past the turn: the next effect was made, or, if none is left, the first lock was freed.
fn operate<S: Scripts<READINGS, HELD>, const READINGS: usize, const HELD: usize>(
    attempt: &mut AttemptOf<S, READINGS, HELD>,
)
    ensures operates { attempt_of S.Scripts attempt.new
        ≡ operated (attempt_of S.Scripts attempt.old) (attempt_of S.Scripts attempt.old).effects }
    ensures phase { attempt.new.phase ≡ attempt.old.phase }
    ensures count { attempt.new.count ≡ attempt.old.count }
{
    match next_effect::<S, READINGS, HELD>(attempt) {
        Some(_) => attempt.made += 1,
        None => attempt.drop_first_lock(),
    }
}

/// While giving back, the first lock was freed: frees the rest next, or begins anew.
fn free_on<S: Scripts<READINGS, HELD>, const READINGS: usize, const HELD: usize>(
    attempt: &mut AttemptOf<S, READINGS, HELD>,
)
    ensures frees { (setting : S.Setting) → let O = system_of S.Lock.eq S.Scripts setting in
        attempt_of S.Scripts attempt.new
        ≡ giving_back O (attempt_of S.Scripts attempt.old) (rest_of attempt.old.held) }
    ensures point { (setting : S.Setting) → ResumePointHolds S.Scripts setting attempt.new }
    ensures count { attempt.new.count ≡ attempt.old.count }
{
    attempt.drop_first_lock();
    give_back::<S, READINGS, HELD>(attempt);
}

/// A withdrawal or an effect was made, or a lock was freed. `Done` says no more.
fn apply_done<S: Scripts<READINGS, HELD>, const READINGS: usize, const HELD: usize>(
    attempt: &mut AttemptOf<S, READINGS, HELD>,
    setting: &S::Setting,
)
    requires valid { IsValid S.Lock.eq S.Scripts setting.now attempt.old }
    ensures { Applies S.Lock.eq S.Scripts setting.now Answer.Done attempt.old attempt.new }
{
    let phase = attempt.phase;
    match phase {
        Phase::Withdraws(_) => give_back::<S, READINGS, HELD>(attempt),
        Phase::GivesBack => free_on::<S, READINGS, HELD>(attempt),
        Phase::Operates(_) => operate::<S, READINGS, HELD>(attempt),
        _ => {}
    }
}

/// Like `apply`, but doesn't count the step.
#[inline(always)]
fn apply_uncounted<S: Scripts<READINGS, HELD>, const READINGS: usize, const HELD: usize>(
    attempt: &mut AttemptOf<S, READINGS, HELD>,
    setting: &S::Setting,
    answer: Answer,
)
    requires { MayContinue S.Lock.eq S.Scripts setting.now attempt.old }
    ensures { Applies S.Lock.eq S.Scripts setting.now answer attempt.old attempt.new }
{
    match answer {
        Answer::Asked(word) => apply_requested::<S, READINGS, HELD>(attempt, setting, word),
        Answer::Again(word) => apply_changed::<S, READINGS, HELD>(attempt, setting, word),
        Answer::Held(_) => apply_denied::<S, READINGS, HELD>(attempt, setting),
        Answer::Preferred(_) => apply_denied::<S, READINGS, HELD>(attempt, setting),
        Answer::Seized => apply_seized::<S, READINGS, HELD>(attempt, setting),
        Answer::Value(value) => apply_value::<S, READINGS, HELD>(attempt, setting, value),
        Answer::Turn(number) => apply_turn::<S, READINGS, HELD>(attempt, setting, number),
        Answer::Done => apply_done::<S, READINGS, HELD>(attempt, setting),
    }
}

/// Applies the answer to the attempt's next step, and counts that step. The count is 0 again once
/// the attempt begins anew. An answer that doesn't fit the step changes nothing but the count.
pub fn apply<S: Scripts<READINGS, HELD>, const READINGS: usize, const HELD: usize>(
    attempt: &mut AttemptOf<S, READINGS, HELD>,
    setting: &S::Setting,
    answer: Answer,
)
    requires setting { S.IsSetting setting.now }
    requires scripts { AreScripts S.Lock.eq S.Scripts setting.now }
    requires valid { IsValid S.Lock.eq S.Scripts setting.now attempt.old }
    ensures change { let O = system_of S.Lock.eq S.Scripts setting.now in
        attempt_of S.Scripts attempt.new ≡ change O (attempt_of S.Scripts attempt.old) answer }
    ensures count { attempt.new.count
        ≡ count_in attempt.new.phase attempt.new.held (counted attempt.old.count) }
    ensures valid { IsValid S.Lock.eq S.Scripts setting.now attempt.new }
{
    apply_uncounted::<S, READINGS, HELD>(attempt, setting, answer);
    attempt.count_step();
}

/// Applies a step past the turn: the next effect was made, or, if none is left, the first lock was
/// freed. This is `apply` with `Answer::Done` in that phase, without looking at the phase.
pub fn apply_past_turn<S: Scripts<READINGS, HELD>, const READINGS: usize, const HELD: usize>(
    attempt: &mut AttemptOf<S, READINGS, HELD>,
)
    ensures operates { attempt_of S.Scripts attempt.new
        ≡ operated (attempt_of S.Scripts attempt.old) (attempt_of S.Scripts attempt.old).effects }
    ensures phase { attempt.new.phase ≡ attempt.old.phase }
    ensures count { attempt.new.count ≡ counted_by 1 attempt.old.count }
{
    operate::<S, READINGS, HELD>(attempt);
    attempt.count_steps(1);
}
