//! What is proved of attempts as a whole. The function does nothing: its contract is the law.

ghost use Rattle.std.specs.Prelude.{◌≡◌, ◌<◌, ◌≤◌, ◌+◌, ◌*◌, ◌^◌, ℕ, List, length};
ghost use Rattle.turns.specs.Attempt.{begin};
ghost use Rattle.turns.specs.Bounds.{AreSteady, AllEndsHave};
ghost use Rattle.turns.specs.declared.answer.Answer.{Answer};
ghost use Rattle.attempts.specs.Counting.{after_answers, fresh};
ghost use Rattle.attempts.specs.Of.{AreScripts, system_of};

use crate::scripts::Scripts;

/// An attempt that is never denied a lock and never retries a seize is short. If no decision has
/// more than `effects` effects, it ends within three steps for each lock that its job may seize,
/// one for each word that it may test, one for each effect, and one for its turn. Its count is the
/// number of steps that it has made, as long as that is below 2^32.
pub fn steady_attempts_are_short<
    S: Scripts<READINGS, HELD>,
    const READINGS: usize,
    const HELD: usize,
>()
    ensures short { (setting : S.Setting) (effects : ℕ) (job : S.Job) (answers : List Answer) →
        let O = system_of S.Lock.eq S.Scripts setting in
        AreScripts S.Lock.eq S.Scripts setting → ((other : S.Job) → O.IsJob other
        → AllEndsHave (λ decision. length (S.effects_of decision) ≤ effects) (O.script other))
        → O.IsJob job → AreSteady O (begin O job) answers
        → length answers ≤ 3 * HELD + READINGS + effects + 1 }
    ensures count { (setting : S.Setting) (job : S.Job) (answers : List Answer) →
        let O = system_of S.Lock.eq S.Scripts setting in
        AreSteady O (begin O job) answers → length answers < 2 ^ 32
        → (after_answers O (fresh O job) answers).count ≡ length answers }
{}
