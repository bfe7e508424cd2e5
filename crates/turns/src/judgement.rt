ghost use Rattle.std.specs.Prelude.{◌≡◌, ◌<◌, ◌%◌, ◌^◌, None};
ghost use Rattle.turns.specs.Sharings.{by_holder, judged, lower_request as lower_request_of};

/// Whether an actor that requests a lock may seize it, by the lock's word.
#[derive(Clone, Copy, Debug, PartialEq, Eq)]
pub enum Judgement {
    /// It may seize the lock.
    Free,
    /// This actor holds the lock.
    Held(u32),
    /// Nobody holds it, but this actor of a lower number requests it too.
    Preferred(u32),
}

/// The lowest actor below this one that has a request in the word.
fn lower_request(actor: u32, word: u64) -> Option<u32>
    requires { actor < 48 }
    ensures { result ≡ lower_request_of actor word }
{
    // The bits 8 to 8 + actor - 1.
    let below = word & ((1 << (8 + actor)) - (1 << 8));
    if below == 0 {
        None
    } else {
        Some(below.trailing_zeros() - 8)
    }
}

impl Judgement {
    /// Judges the word of a lock that is shared by requests and preference (see `lock_word`), for
    /// an actor below 48.
    #[tactic(auto, unfolding(crate::specs::Sharings::judged))]
    pub fn of(actor: u32, word: u64) -> Self
        requires { actor < 48 }
        ensures { result ≡ judged actor word }
    {
        let holder = (word % 64) as u32;
        if holder > 0 {
            return Judgement::Held(holder - 1);
        }
        match lower_request(actor, word) {
            None => Judgement::Free,
            Some(other) => Judgement::Preferred(other),
        }
    }

    /// Judges the word of a lock that is shared without requests, for any actor: its lowest 32
    /// bits are 0, or one more than the number of the holder.
    pub fn plain(word: u64) -> Self
        ensures { result ≡ by_holder (word % 2 ^ 32) None }
    {
        let holder = (word % (1 << 32)) as u32;
        if holder > 0 {
            Judgement::Held(holder - 1)
        } else {
            Judgement::Free
        }
    }
}
