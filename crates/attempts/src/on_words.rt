//! Jobs on shared words: each step of an attempt has its word, the operation that makes it there,
//! and the answer to the number found.

ghost use Rattle.std.specs.Prelude.{◌≡◌, ◌<◌};
ghost use Rattle.turns.specs.Sharings.{sharing_of};
ghost use Rattle.turns.specs.World.{operation as operation_of, place as place_of};
ghost use Rattle.attempts.specs.Answers.{answer_in};
ghost use Rattle.attempts.specs.Of.{system_of};

use crate::scripts::Scripts;
use turns::{Act, Answer, Clock, LockSharing, Operation, Phase};

/// Jobs given as `Scripts` on words that actors share: which words there are, and which belong to
/// locks, effects and the turn. By these, each step of an attempt is an operation on its word.
pub trait OnWords<const READINGS: usize, const HELD: usize>: Scripts<READINGS, HELD> {
    /// How many words there are.
    fn size(setting: &Self::Setting) -> usize
        ensures { result ≡ (Self.system setting.now).size };

    /// The number of a lock's own word.
    fn lock_word(setting: &Self::Setting, lock: Self::Lock) -> usize
        ensures { result ≡ (Self.system setting.now).lock_word lock };

    /// The number of the word on which turns are taken.
    fn turn_word(setting: &Self::Setting) -> usize
        ensures { result ≡ (Self.system setting.now).turn_word };

    /// What tells turns apart.
    fn clock(setting: &Self::Setting) -> Clock
        ensures { result ≡ (Self.system setting.now).clock };

    /// The number of the word that an effect is made on.
    fn effect_word(setting: &Self::Setting, effect: Self::Effect) -> usize
        ensures { result ≡ (Self.system setting.now).effect_word effect };

    /// The operation by which an effect is made on its word.
    fn effect_operation(setting: &Self::Setting, effect: Self::Effect) -> Operation
        ensures { result ≡ (Self.system setting.now).operation_of effect };
}

/// The number of the word that a step is made on.
pub fn step_word<S: OnWords<READINGS, HELD>, const READINGS: usize, const HELD: usize>(
    setting: &S::Setting,
    step: Act<S::Lock, S::Effect>,
) -> usize
    ensures { let O = system_of S.Lock.eq S.Scripts setting.now in
        result ≡ place_of O step }
{
    match step {
        Act::Request(lock) => S::lock_word(setting, lock),
        Act::Seize(lock, _) => S::lock_word(setting, lock),
        Act::Withdraw(lock) => S::lock_word(setting, lock),
        Act::Free(lock) => S::lock_word(setting, lock),
        Act::Test(word) => word,
        Act::Turn => S::turn_word(setting),
        Act::Finished => S::turn_word(setting),
        Act::Make(effect) => S::effect_word(setting, effect),
    }
}

/// The operation by which an actor makes a step on its word.
pub fn step_operation<S: OnWords<READINGS, HELD>, const READINGS: usize, const HELD: usize>(
    setting: &S::Setting,
    actor: u32,
    step: Act<S::Lock, S::Effect>,
) -> Operation
    requires { actor < (sharing_of (S.system setting.now).sharing).most }
    ensures { let O = system_of S.Lock.eq S.Scripts setting.now in
        result ≡ operation_of O actor step }
{
    match step {
        Act::Request(_) => S::sharing(setting).request(actor),
        Act::Seize(_, expected) => S::sharing(setting).seize(actor, expected),
        Act::Withdraw(_) => S::sharing(setting).withdrawal(actor),
        Act::Free(_) => S::sharing(setting).freeing(),
        Act::Test(_) => Operation::Load,
        Act::Turn => S::clock(setting).turning(),
        Act::Finished => Operation::Load,
        Act::Make(effect) => S::effect_operation(setting, effect),
    }
}

/// The answer to the actor's next step in this phase, which found this number in its word.
#[inline(always)]
pub fn step_answer<L: Copy>(
    sharing: LockSharing,
    actor: u32,
    phase: Phase<L, usize>,
    found: u64,
) -> Answer
    requires { actor < (sharing_of sharing).most }
    ensures { result ≡ answer_in (sharing_of sharing) phase actor found }
{
    match phase {
        Phase::Requests(_) => Answer::to_request(sharing, actor, found),
        Phase::Seizes(_, expected) => Answer::to_seize(sharing, actor, expected, found),
        Phase::Tests(_) => Answer::Value(found),
        Phase::Turns => Answer::Turn(found),
        Phase::Withdraws(_) => Answer::Done,
        Phase::GivesBack => Answer::Done,
        Phase::Operates(_) => Answer::Done,
    }
}
