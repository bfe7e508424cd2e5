//! How an attempt begins, gives back what it holds, and begins anew.

ghost use Rattle.std.specs.Prelude.{◌≡◌};
ghost use Rattle.turns.specs.Attempt.{begin as begin_of, forgotten, giving_back, restarted};
ghost use Rattle.turns.specs.Seen.{Seen};
ghost use Rattle.attempts.specs.Counting.{count_in};
ghost use Rattle.attempts.specs.Of.{AreScripts, ResumePointHolds, IsValid, attempt_of, system_of};

use crate::attempt::{Attempt, AttemptOf};
use crate::scripts::Scripts;
use turns::Phase;

/// An attempt that has made no step. It doesn't depend on the setting.
pub fn begin<S: Scripts<READINGS, HELD>, const READINGS: usize, const HELD: usize>(
    job: S::Job,
) -> AttemptOf<S, READINGS, HELD>
    ensures begins { (setting : S.Setting) → attempt_of S.Scripts result
        ≡ begin_of (system_of S.Lock.eq S.Scripts setting) job }
    ensures count { result.count ≡ 0 }
    ensures valid { (setting : S.Setting) →
        AreScripts S.Lock.eq S.Scripts setting → (S.system setting).IsJob job →
        IsValid S.Lock.eq S.Scripts setting result }
    ensures point { (setting : S.Setting) (seen : Seen S.Lock) →
        S.ResumePointIsValid setting job result.point seen }
{
    let lock = S::first(&job);
    let point = S::start(&job);
    Attempt::new(job, lock, point)
}

/// Like `begin`, but overwrites an attempt at another job.
pub fn begin_next<S: Scripts<READINGS, HELD>, const READINGS: usize, const HELD: usize>(
    attempt: &mut AttemptOf<S, READINGS, HELD>,
    job: S::Job,
)
    ensures begins { (setting : S.Setting) → attempt_of S.Scripts attempt.new
        ≡ begin_of (system_of S.Lock.eq S.Scripts setting) job }
    ensures count { attempt.new.count ≡ 0 }
    ensures valid { (setting : S.Setting) →
        AreScripts S.Lock.eq S.Scripts setting → (S.system setting).IsJob job →
        IsValid S.Lock.eq S.Scripts setting attempt.new }
{
    let lock = S::first(&job);
    let point = S::start(&job);
    attempt.begin_job(job, lock, point);
}

/// Begins the same job anew, from its first lock and its first resume point.
fn start_over<S: Scripts<READINGS, HELD>, const READINGS: usize, const HELD: usize>(
    attempt: &mut AttemptOf<S, READINGS, HELD>,
)
    ensures begins { (setting : S.Setting) → let O = system_of S.Lock.eq S.Scripts setting in
        attempt_of S.Scripts attempt.new ≡ begin_of O attempt.old.job }
    ensures point { (setting : S.Setting) (seen : Seen S.Lock) →
        S.ResumePointIsValid setting attempt.new.job attempt.new.point seen }
    ensures count { attempt.new.count ≡ attempt.old.count }
{
    let lock = S::first(&attempt.job);
    let point = S::start(&attempt.job);
    attempt.start_over(lock, point);
}

/// Frees the locks next, or begins anew at once if none is held.
pub(crate) fn give_back<S: Scripts<READINGS, HELD>, const READINGS: usize, const HELD: usize>(
    attempt: &mut AttemptOf<S, READINGS, HELD>,
)
    ensures frees { (setting : S.Setting) → let O = system_of S.Lock.eq S.Scripts setting in
        attempt_of S.Scripts attempt.new
        ≡ giving_back O (attempt_of S.Scripts attempt.old) attempt.old.held }
    ensures point { (setting : S.Setting) → ResumePointHolds S.Scripts setting attempt.new }
    ensures count { attempt.new.count ≡ attempt.old.count }
{
    if attempt.seen.holds_none() {
        start_over::<S, READINGS, HELD>(attempt);
    } else {
        attempt.phase = Phase::GivesBack;
    }
}

/// Gives up an attempt that is before its turn and has no request pending: drops its readings and
/// its decision, and gives its locks back.
pub(crate) fn roll_back<S: Scripts<READINGS, HELD>, const READINGS: usize, const HELD: usize>(
    attempt: &mut AttemptOf<S, READINGS, HELD>,
)
    ensures frees { (setting : S.Setting) → let O = system_of S.Lock.eq S.Scripts setting in
        attempt_of S.Scripts attempt.new
        ≡ giving_back O (forgotten (attempt_of S.Scripts attempt.old)) attempt.old.held }
    ensures point { (setting : S.Setting) → ResumePointHolds S.Scripts setting attempt.new }
    ensures count { attempt.new.count ≡ attempt.old.count }
{
    attempt.clear_readings();
    give_back::<S, READINGS, HELD>(attempt);
}

/// Like `restart`, but keeps the count.
fn restart_uncounted<S: Scripts<READINGS, HELD>, const READINGS: usize, const HELD: usize>(
    attempt: &mut AttemptOf<S, READINGS, HELD>,
)
    ensures restarts { (setting : S.Setting) → let O = system_of S.Lock.eq S.Scripts setting in
        attempt_of S.Scripts attempt.new ≡ restarted O (attempt_of S.Scripts attempt.old) }
    ensures point { (setting : S.Setting) → ResumePointHolds S.Scripts setting attempt.old →
        ResumePointHolds S.Scripts setting attempt.new }
    ensures count { attempt.new.count ≡ attempt.old.count }
{
    let phase = attempt.phase;
    match phase {
        Phase::Requests(_) | Phase::Tests(_) | Phase::Turns => {
            roll_back::<S, READINGS, HELD>(attempt);
        }
        Phase::Seizes(lock, _) => attempt.deny(lock),
        Phase::Withdraws(_) | Phase::GivesBack | Phase::Operates(_) => {}
    }
}

/// Gives the attempt up: its next steps withdraw its request and free its locks, and then it
/// begins anew. Past the turn, changes nothing.
pub fn restart<S: Scripts<READINGS, HELD>, const READINGS: usize, const HELD: usize>(
    attempt: &mut AttemptOf<S, READINGS, HELD>,
)
    ensures restarts { (setting : S.Setting) → let O = system_of S.Lock.eq S.Scripts setting in
        attempt_of S.Scripts attempt.new ≡ restarted O (attempt_of S.Scripts attempt.old) }
    ensures count { attempt.new.count
        ≡ count_in attempt.new.phase attempt.new.held attempt.old.count }
    ensures point { (setting : S.Setting) → ResumePointHolds S.Scripts setting attempt.old →
        ResumePointHolds S.Scripts setting attempt.new }
    ensures valid { (setting : S.Setting) → AreScripts S.Lock.eq S.Scripts setting →
        IsValid S.Lock.eq S.Scripts setting attempt.old → IsValid S.Lock.eq S.Scripts setting
        attempt.new }
{
    restart_uncounted::<S, READINGS, HELD>(attempt);
    attempt.count_beginning();
}
