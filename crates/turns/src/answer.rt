ghost use Rattle.std.specs.Prelude.{◌≡◌, ◌<◌};
ghost use Rattle.turns.specs.Attempt.{answer_to_request, answer_to_seize, unless_denied as unless_denied_by};
ghost use Rattle.turns.specs.Sharings.{sharing_of};

use crate::judgement::Judgement;
use crate::lock_sharing::LockSharing;
use crate::lock_word::asked_by;

/// The answer to a step. Whether a request or a seize is denied depends on the lock's own word
/// alone.
#[derive(Clone, Copy, Debug, PartialEq, Eq)]
pub enum Answer {
    /// The request is made, and this is the lock's word with it.
    Asked(u64),
    /// The lock is seized.
    Seized,
    /// The lock is denied: this actor holds it.
    Held(u32),
    /// The lock is denied: nobody holds it, but this actor of a lower number requests it too.
    Preferred(u32),
    /// The lock isn't seized: its word was not as expected but this one, by which it may still be
    /// seized.
    Again(u64),
    /// The value of the tested word.
    Value(u64),
    /// The number of the turn, as found in the turn word.
    Turn(u64),
    /// A step of another kind was made.
    Done,
}

impl Answer {
    /// This answer if the judgement lets the actor go on; otherwise that the lock is denied.
    fn unless_denied(self, judgement: Judgement) -> Self
        ensures { result ≡ unless_denied_by self judgement }
    {
        match judgement {
            Judgement::Free => self,
            Judgement::Held(holder) => Answer::Held(holder),
            Judgement::Preferred(other) => Answer::Preferred(other),
        }
    }

    /// The answer to an actor's request, which found this number in the lock's word.
    pub fn to_request(sharing: LockSharing, actor: u32, found: u64) -> Self
        requires { actor < (sharing_of sharing).most }
        ensures { result ≡ answer_to_request (sharing_of sharing) actor found }
    {
        match sharing {
            LockSharing::Preferring => {
                let word = asked_by(actor, found);
                Answer::Asked(word).unless_denied(Judgement::of(actor, word))
            }
            LockSharing::Plain => Answer::Seized.unless_denied(Judgement::plain(found)),
        }
    }

    /// The answer to an actor's step that seizes a lock: it expected one number in the lock's
    /// word, and found the other.
    pub fn to_seize(sharing: LockSharing, actor: u32, expected: u64, found: u64) -> Self
        requires { actor < (sharing_of sharing).most }
        ensures { result ≡ answer_to_seize (sharing_of sharing) actor expected found }
    {
        if found == expected {
            Answer::Seized
        } else {
            Answer::Again(found).unless_denied(sharing.judge(actor, found))
        }
    }
}
