//! The word of a lock that up to 48 actors share by requests and preference: the lowest six bits
//! are 0, or one more than the number of the actor that holds the lock, and bit 8 + `actor` is the
//! actor's request.

ghost use Rattle.std.specs.Prelude.{◌≡◌, ◌<◌};
ghost use Rattle.turns.specs.Sharing.{held_by, with_request, without_holder as freed_word, without_request};
ghost use Rattle.turns.specs.Sharings.{preferring, request_bit as request_bit_of, seized_by as seized_by_of};

/// The bit of an actor's request.
pub fn request_bit(actor: u32) -> u64
    requires { actor < 48 }
    ensures { result ≡ request_bit_of actor }
{
    1 << (8 + actor)
}

/// The word with the actor's request.
pub fn asked_by(actor: u32, word: u64) -> u64
    requires { actor < 48 }
    ensures { result ≡ with_request preferring actor word }
{
    word | request_bit(actor)
}

/// The word without the actor's request.
pub fn withdrawn_by(actor: u32, word: u64) -> u64
    requires { actor < 48 }
    ensures { result ≡ without_request preferring actor word }
{
    word & !request_bit(actor)
}

/// The word once the actor has seized the lock, which nobody held: its request is cleared, and it
/// is the holder.
pub fn seized_by(actor: u32, word: u64) -> u64
    requires { actor < 48 }
    ensures { result ≡ seized_by_of actor word }
{
    withdrawn_by(actor, word) | u64::from(1 + actor)
}

/// The word once its holder has freed the lock.
pub fn freed(word: u64) -> u64
    ensures { result ≡ freed_word preferring word }
{
    word & !63
}

/// The actor that holds the lock, by its word.
pub fn holder(word: u64) -> Option<u32>
    ensures { result ≡ held_by preferring word }
{
    let holder = (word % 64) as u32;
    if holder > 0 { Some(holder - 1) } else { None }
}
