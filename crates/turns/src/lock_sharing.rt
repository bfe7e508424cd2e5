ghost use Rattle.std.specs.Prelude.{◌≡◌, ◌<◌};
ghost use Rattle.turns.specs.Sharing.{held_by};
ghost use Rattle.turns.specs.Sharings.{sharing_of};
ghost use Rattle.turns.specs.declared.operation.Operation.TheVariants.{CompareExchange};

use crate::judgement::Judgement;
use crate::lock_word;
use crate::operation::Operation;

/// How actors share the words of locks. Which one to take: `Plain` for short jobs, and for more
/// actors than 48; `Preferring` where it should be seen who waits for a lock, and where an actor
/// of a lower number should come first.
#[derive(Clone, Copy, Debug, PartialEq, Eq)]
pub enum LockSharing {
    /// Up to 48 actors. An actor first requests a lock and then seizes it, by two operations; the
    /// lock's word shows who holds it and who requests it, and of those that request a free lock
    /// the lowest is preferred (see [`lock_word`]).
    Preferring,
    /// Up to 2^32 - 1 actors. An actor seizes a free lock by one operation; the lock's word is 0,
    /// or one more than the number of the actor that holds it.
    Plain,
}

impl LockSharing {
    /// Whether a request is a step of its own, before the one that seizes the lock.
    pub fn asks(self) -> bool
        ensures { result ≡ (sharing_of self).asks }
    {
        match self {
            LockSharing::Preferring => true,
            LockSharing::Plain => false,
        }
    }

    /// The operation by which the actor requests a lock, on the lock's word.
    pub fn request(self, actor: u32) -> Operation
        requires { actor < (sharing_of self).most }
        ensures { result ≡ (sharing_of self).request actor }
    {
        match self {
            LockSharing::Preferring => Operation::Or(lock_word::request_bit(actor)),
            LockSharing::Plain => Operation::CompareExchange {
                expected: 0,
                new: 1 + u64::from(actor),
            },
        }
    }

    /// The operation by which the actor withdraws its request.
    pub fn withdrawal(self, actor: u32) -> Operation
        requires { actor < (sharing_of self).most }
        ensures { result ≡ (sharing_of self).withdrawal actor }
    {
        match self {
            LockSharing::Preferring => Operation::And(!lock_word::request_bit(actor)),
            LockSharing::Plain => Operation::Load,
        }
    }

    /// The operation by which the actor seizes a lock that it has requested, if the lock's word is
    /// as expected.
    pub fn seize(self, actor: u32, expected: u64) -> Operation
        requires { actor < (sharing_of self).most }
        ensures { result ≡ CompareExchange expected ((sharing_of self).taken actor expected) }
    {
        let new = match self {
            LockSharing::Preferring => lock_word::seized_by(actor, expected),
            LockSharing::Plain => 1 + u64::from(actor),
        };
        Operation::CompareExchange { expected, new }
    }

    /// The operation by which its holder frees a lock.
    pub fn freeing(self) -> Operation
        ensures { result ≡ (sharing_of self).freeing }
    {
        match self {
            LockSharing::Preferring => Operation::And(!63),
            LockSharing::Plain => Operation::Store(0),
        }
    }

    /// Whether the actor, which requests the lock, may seize it by this word.
    pub fn judge(self, actor: u32, word: u64) -> Judgement
        requires { actor < (sharing_of self).most }
        ensures { result ≡ (sharing_of self).judged actor word }
    {
        match self {
            LockSharing::Preferring => Judgement::of(actor, word),
            LockSharing::Plain => Judgement::plain(word),
        }
    }

    /// The actor that holds a lock, by the lock's word.
    pub fn holder(self, word: u64) -> Option<u32>
        ensures { result ≡ held_by (sharing_of self) word }
    {
        match self {
            LockSharing::Preferring => lock_word::holder(word),
            LockSharing::Plain => match Judgement::plain(word) {
                Judgement::Held(holder) => Some(holder),
                _ => None,
            },
        }
    }
}
