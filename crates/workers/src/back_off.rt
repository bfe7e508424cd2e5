//! When a worker stops trying to end a job, and how it waits between tries.

ghost use Rattle.std.specs.Prelude.{◌≡◌, ◌+◌, ◌*◌, ◌%◌, nat_lt};

use std::hint::spin_loop;
use std::thread;

/// A policy of workers: how long a try at a job may last, and what comes between tries.
pub trait BackOff {
    ghost use Rattle.std.specs.Prelude.{ℕ, Bool, Option, ⊤};

    // How patient a desk of this number may be.
    ghost Patience: { Self → ℕ → ℕ → Type 0 } = { λ _ _ _. ⊤ };

    // What the policy may answer after a number of tries, of which the last was denied this lock.
    ghost Answers: { Self → ℕ → Option ℕ → Bool → Type 0 } = { λ _ _ _ _. ⊤ };

    /// The most times that a desk of this number goes on in one try, before it gives back what it
    /// holds. Each time it makes a step, and then all steps that ask for no lock.
    fn patience(&self, desk: u32) -> u32
        ensures { Patience self.now desk result };

    /// Returns whether to try again after `made` tries in vain. The desk has given back what it
    /// held, so others may go on meanwhile: this may yield, sleep or spin. `denied` is the word of
    /// the lock that the last try was denied; None if that try took too long.
    fn try_again(&self, made: u64, denied: Option<usize>) -> bool
        ensures { Answers self.now made denied result };
}

/// The number of tries after which `Pausing` gives up.
const TRIES: u64 = 100_000_000;

/// Spins between tries, each time twice as long as before, and once that would be too long lets
/// other threads run. Gives up after a very large number of tries.
#[derive(Clone, Copy, Debug, PartialEq, Eq)]
pub struct Pausing {
    /// How many pauses of the processor follow the first try.
    pub shortest: u32,
    /// The most pauses that follow a try.
    pub longest: u32,
}

impl Pausing {
    /// For most jobs.
    pub const SHORT: Pausing = Pausing {
        shortest: 2,
        longest: 512,
    };

    /// For locks that are held nearly all the time.
    pub const LONG: Pausing = Pausing {
        shortest: 512,
        longest: 8192,
    };

    /// Never spins, but lets other threads run after each try.
    pub const YIELDING: Pausing = Pausing {
        shortest: 1,
        longest: 0,
    };

    /// How many pauses follow this number of tries, or None if they would be too many.
    fn pauses(self, made: u64) -> Option<u64> {
        let doublings = made.saturating_sub(1).min(31) as u32;
        let pauses = u64::from(self.shortest) << doublings;
        (pauses <= u64::from(self.longest)).then_some(pauses)
    }

    /// Waits as after this number of tries.
    pub fn pause(self, made: u64) {
        match self.pauses(made) {
            Some(pauses) => {
                for _ in 0..pauses {
                    spin_loop();
                }
            }
            None => thread::yield_now(),
        }
    }
}

impl Default for Pausing {
    fn default() -> Self {
        Pausing::SHORT
    }
}

impl BackOff for Pausing {
    ghost use Rattle.workers.specs.Tries.{AnswersPausing, PatiencePausing};

    ghost Patience = { λ _ desk patience. PatiencePausing desk patience };

    ghost Answers = { λ _ made denied again. AnswersPausing made denied again };

    /// Each of up to eight desks has a patience of its own, so that no two stay in lockstep.
    fn patience(&self, desk: u32) -> u32
        ensures { result ≡ 30 + 7 * (desk % 8) }
    {
        30 + 7 * (desk % 8)
    }

    fn try_again(&self, made: u64, _denied: Option<usize>) -> bool
        ensures { result ≡ nat_lt made 100000000 }
    {
        self.pause(made);
        made < TRIES
    }
}
