//! Makes an attempt's steps on plain words that nobody else changes meanwhile: one step, or many by
//! one walk.

ghost use Rattle.std.specs.Prelude.{◌≡◌, ◌<◌, ◌≤◌, ℕ, IfNone, IfSome, List, ◌≢◌, length};
ghost use Rattle.turns.specs.Sharing.{with_request};
ghost use Rattle.turns.specs.Sharings.{preferring, seized_by as seized_by_of, sharing_of};
ghost use Rattle.turns.specs.System.{AreWords};
ghost use Rattle.attempts.specs.Counting.{counted_by, count_in, counted};
ghost use Rattle.attempts.specs.WalkOnWords.{LeadsTo, WantsNext, answer_at, stepped};
ghost use Rattle.attempts.specs.Running.{RunsFarEnough, Runs};
ghost use Rattle.attempts.specs.Of.{AreScripts, CanWalk, MayContinue, IsValid, attempt_of, system_of};
ghost use Rattle.turns.specs.Attempt.{IsAnswer, act};
ghost use Rattle.turns.specs.declared.act.Act.TheVariants.{Finished};

use crate::answering::{apply, walk_by_steps};
use crate::attempt::AttemptOf;
use crate::next_step::next;
use crate::on_words::{OnWords, step_answer, step_operation, step_word};
use crate::scripts::Scripts;
use turns::lock_word::{asked_by, seized_by};
use turns::{Answer, LockSharing, Wanted};

/// Does nothing. Called for its contract: each word fits in 64 bits.
fn are_words(_words: &[u64])
    ensures { AreWords _words.now }
{}

/// The word of a lock that nobody held or requested, once the actor has requested and seized it.
fn seized_word(actor: u32) -> u64
    requires { actor < 48 }
    ensures { result ≡ seized_by_of actor (with_request preferring actor 0) }
{
    seized_by(actor, asked_by(actor, 0))
}

/// The lock that the attempt requests next, or the word that it tests next. None in other phases,
/// in which it can't walk.
fn to_walk<S: Scripts<READINGS, HELD>, const READINGS: usize, const HELD: usize>(
    attempt: &AttemptOf<S, READINGS, HELD>,
    _setting: &S::Setting,
) -> Option<Wanted<S::Lock, usize>>
    requires may { MayContinue S.Lock.eq S.Scripts _setting.now attempt.now }
    ensures walk { IfSome result (λ wanted. CanWalk S.Lock.eq S.Scripts _setting.now attempt.now) }
    ensures wants { IfSome result (λ wanted. WantsNext attempt.now.phase) }
    ensures none { IfNone result ((lock_word : S.Lock → ℕ) (words : List ℕ) (most : ℕ) →
        RunsFarEnough lock_word words most 0 attempt.now.phase attempt.now.phase) }
{
    attempt.wants()
}

/// Like `run`, but doesn't count the steps.
fn make_steps<S: Scripts<READINGS, HELD>, const READINGS: usize, const HELD: usize>(
    attempt: &mut AttemptOf<S, READINGS, HELD>,
    setting: &S::Setting,
    actor: u32,
    words: &mut [u64],
    most: u32,
) -> u32
    requires may { MayContinue S.Lock.eq S.Scripts setting.now attempt.old }
    requires sharing { (S.system setting.now).sharing ≡ LockSharing.Preferring }
    requires actor { actor < 48 }
    ensures { Runs S.Lock.eq S.reply_of S.effects_of (S.system setting.now)
        (S.ResumePointIsValid setting.now)
        READINGS HELD actor most result attempt.old words.old attempt.new words.new }
{
    let Some(_) = to_walk::<S, READINGS, HELD>(attempt, setting) else {
        return 0;
    };
    // Called for its contract alone.
    are_words(words);
    let mut left = most;
    let word = seized_word(actor);
    let found = walk_by_steps::<S, READINGS, HELD>(attempt, setting, words, &mut left, word);
    attempt.continue_with(found);
    most - left
}

/// Makes the attempt's next steps on the words, at most `most`, and returns how many it made.
/// Nobody else may change the words meanwhile. `actor` is the number of the attempt's actor. The
/// locks have to be shared by preference, for which an actor's number is below 48.
///
/// One walk makes all of the steps. It stops at the turn, at a lock that anyone holds or
/// requests, at a word past the end of `words`, or when too few steps are left: a lock takes two, a
/// word one. If the next step neither requests a lock nor tests a word, `run` makes no step.
pub fn run<S: Scripts<READINGS, HELD>, const READINGS: usize, const HELD: usize>(
    attempt: &mut AttemptOf<S, READINGS, HELD>,
    setting: &S::Setting,
    actor: u32,
    words: &mut [u64],
    most: u32,
) -> u32
    requires setting { S.IsSetting setting.now }
    requires scripts { AreScripts S.Lock.eq S.Scripts setting.now }
    requires valid { IsValid S.Lock.eq S.Scripts setting.now attempt.old }
    requires sharing { (S.system setting.now).sharing ≡ LockSharing.Preferring }
    requires actor { actor < 48 }
    ensures steps { let O = system_of S.Lock.eq S.Scripts setting.now in
        LeadsTo O actor result
        (record { attempt = attempt_of S.Scripts attempt.old; words = words.old })
        (record { attempt = attempt_of S.Scripts attempt.new; words = words.new }) }
    ensures most { result ≤ most }
    ensures far { RunsFarEnough (S.system setting.now).lock_word words.new most result
        attempt.old.phase attempt.new.phase }
    ensures count { attempt.new.count ≡ counted_by result attempt.old.count }
    ensures valid { IsValid S.Lock.eq S.Scripts setting.now attempt.new }
{
    let made = make_steps::<S, READINGS, HELD>(attempt, setting, actor, words, most);
    attempt.count_steps(made);
    made
}

/// Makes the attempt's next step on the words, and returns what it was answered. `actor` is the
/// number of the attempt's actor. Without a next step, nothing changes but the count.
pub fn step<S: OnWords<READINGS, HELD>, const READINGS: usize, const HELD: usize>(
    attempt: &mut AttemptOf<S, READINGS, HELD>,
    setting: &S::Setting,
    actor: u32,
    words: &mut [u64],
) -> Answer
    requires setting { S.IsSetting setting.now }
    requires scripts { AreScripts S.Lock.eq S.Scripts setting.now }
    requires valid { IsValid S.Lock.eq S.Scripts setting.now attempt.old }
    requires actor { actor < (sharing_of (S.system setting.now).sharing).most }
    requires words { length words.old ≡ (S.system setting.now).size }
    ensures answer { let O = system_of S.Lock.eq S.Scripts setting.now in
        result ≡ answer_at O actor
        (record { attempt = attempt_of S.Scripts attempt.old; words = words.old }) }
    ensures kind { let O = system_of S.Lock.eq S.Scripts setting.now in
        act (attempt_of S.Scripts attempt.old) ≢ Finished →
        IsAnswer O (act (attempt_of S.Scripts attempt.old)) result }
    ensures steps { let O = system_of S.Lock.eq S.Scripts setting.now in
        stepped O actor (record { attempt = attempt_of S.Scripts attempt.old; words = words.old })
        ≡ record { attempt = attempt_of S.Scripts attempt.new; words = words.new } }
    ensures count { attempt.new.count
        ≡ count_in attempt.new.phase attempt.new.held (counted attempt.old.count) }
    ensures valid { IsValid S.Lock.eq S.Scripts setting.now attempt.new }
{
    // Called for its contract alone.
    are_words(words);
    let act = next::<S, READINGS, HELD>(attempt);
    let place = step_word::<S, READINGS, HELD>(setting, act);
    let found = words[place];
    words[place] = step_operation::<S, READINGS, HELD>(setting, actor, act).apply(found);
    let answer = step_answer(S::sharing(setting), actor, attempt.phase, found);
    apply::<S, READINGS, HELD>(attempt, setting, answer);
    answer
}
