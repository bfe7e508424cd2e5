ghost use Rattle.std.specs.Prelude.{◌≡◌, ◌<◌, ◌+◌, ◌^◌, Err, List, IfSome, slice_get};

use crate::seen::Seen;
use turns::{LockSharing, Wanted};

/// Jobs given as code. No script tests more than `READINGS` words or seizes more than `HELD`
/// locks.
///
/// A script is written as a walk: code without loops that asks `Seen` for each lock and each word,
/// and returns early by `?` when one is missing. The attempt's next steps seize or read it; then
/// the walk runs again, from the script's start. A walk may keep intermediate results in its resume
/// point, so that later walks needn't compute them again. If nobody else makes steps meanwhile, a
/// walk can be given the words themselves; then it seizes and reads by itself what is missing.
pub trait Scripts<const READINGS: usize, const HELD: usize> {
    ghost use Rattle.turns.specs.Script.{walk};
    ghost use Rattle.turns.specs.Seen.{AreReadWords, Seen as WhatIsSeen};
    ghost use Rattle.attempts.specs.WalkOnWords.{walk_on_words};
    ghost use Rattle.attempts.specs.Points.{GoesOnTo};
    ghost use Rattle.attempts.specs.SystemWith.{SystemWith};

    /// What a system depends on, like an office's plan. `()` if there is only one system.
    type Setting;

    type Lock: Copy + Default + PartialEq + Drop;

    type Job: Copy + Drop;

    type Reply: Drop;

    /// A write that a job makes after its turn, on one word.
    type Effect: Copy + Drop;

    /// What a script ends with: the reply and the effects follow from it.
    type Decision: Drop;

    /// What a walk keeps for the next one, which then needn't compute it again. `()` if each walk
    /// computes everything anew.
    type ResumePoint: Drop;

    // The system of `turns` for a setting, without its equality of locks and its maps from
    // decisions: those are `PartialEq`, `reply_of` and `effects_of`.
    ghost system: { Self.Setting
        → SystemWith Self.Lock Self.Job Self.Reply Self.Effect Self.Decision };

    ghost reply_of: { Self.Decision → Self.Reply };

    ghost effects_of: { Self.Decision → List Self.Effect };

    // The settings under which walks may be run.
    ghost IsSetting: { Self.Setting → Type 0 };

    // Whether what a resume point says of its job is true, given what the attempt holds and has
    // read. By default it says nothing, as for `()`.
    ghost ResumePointIsValid: { Self.Setting → Self.Job → Self.ResumePoint → WhatIsSeen Self.Lock
        → Type 0 } = { λ _ _ _ _. Unit {0} };

    /// How actors share the words of locks.
    fn sharing(setting: &Self::Setting) -> LockSharing
        ensures { result ≡ (system setting.now).sharing };

    /// The lock that the job seizes first. It doesn't depend on the setting.
    fn first(job: &Self::Job) -> Self::Lock
        ensures { (setting : Self.Setting) → result ≡ (system setting).first job.now };

    /// The resume point of a walk that has found nothing yet. It is valid whatever was seen.
    fn start(job: &Self::Job) -> Self::ResumePoint
        ensures { (setting : Self.Setting) (seen : WhatIsSeen Self.Lock)
            → ResumePointIsValid setting job.now result seen };

    /// Runs the job's script from its start on what the attempt has seen, to its decision or to
    /// the lock or word that it needs next (`Err`). As long as `seen` allows steps, the walk
    /// seizes free locks and reads words by itself, in `words`. It may update `point` for the next
    /// walk.
    fn walk(
        setting: &Self::Setting,
        job: &Self::Job,
        point: &mut Self::ResumePoint,
        seen: &mut Seen<Self::Lock, READINGS, HELD>,
        words: &mut [u64],
    ) -> Result<Self::Decision, Wanted<Self::Lock, usize>>
        requires setting { IsSetting setting.now }
        requires job { (system setting.now).IsJob job.now }
        requires read { AreReadWords seen.old.seen.readings }
        requires valid_point { ResumePointIsValid setting.now job.now point.old seen.old.seen }
        ensures walk { record { found = result; state = seen.new; words = words.new }
            ≡ walk_on_words Self.Lock.eq (system setting.now).lock_word READINGS HELD
            (λ _ value. value)
            ((system setting.now).script job.now) seen.old words.old }
        ensures valid_point { ResumePointIsValid setting.now job.now point.new seen.new.seen };

    /// Called when the walk needs `word` next. Returns the word that it tests after `word`, if that
    /// doesn't depend on the value of `word` and is known without a walk. None, as by default, is
    /// always safe, only slower.
    fn following(
        setting: &Self::Setting,
        job: &Self::Job,
        point: &Self::ResumePoint,
        seen: &Seen<Self::Lock, READINGS, HELD>,
        word: usize,
    ) -> Option<usize>
        requires setting { IsSetting setting.now }
        requires job { (system setting.now).IsJob job.now }
        requires valid_point { ResumePointIsValid setting.now job.now point.now seen.now.seen }
        requires wants { walk Self.Lock.eq seen.now.seen ((system setting.now).script job.now)
            ≡ Err (Wanted.Test word) }
        ensures { IfSome result
            (GoesOnTo Self.Lock.eq seen.now.seen ((system setting.now).script job.now) word) }
    {
        None
    }

    fn reply(decision: &Self::Decision) -> Self::Reply
        ensures { result ≡ reply_of decision.now };

    /// The effect at `place` among those of the decision, counted from 0. None past the last one.
    fn effect(decision: &Self::Decision, place: usize) -> Option<Self::Effect>
        ensures effect { result ≡ slice_get (effects_of decision.now) place }
        ensures more { IfSome result (λ effect. place + 1 < 2 ^ 64) };
}
