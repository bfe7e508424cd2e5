//! Which accounts transfers are between.

use bank::SHARD_SIZE;
use rand_core::{Rng, SeedableRng};
use rand_xoshiro::SplitMix64;

/// Which shards the transfers of threads touch.
#[derive(Clone, Copy)]
pub enum Traffic {
    /// All of them, at random.
    Mixed,
    /// Each thread has shards of its own, as long as there are enough, and so many of a hundred
    /// transfers go to shard 0, which no thread has.
    Apart { hot: u32 },
}

/// Chooses a thread's transfers. Without a shard of their own threads share all but shard 0; with
/// a single one every transfer goes to shard 0.
#[derive(Drop)]
pub struct Chooser {
    random: SplitMix64,
    /// The first of the shards that transfers come from, and how many there are.
    first: u8,
    count: u8,
    /// How many of a hundred transfers go to shard 0.
    hot: u32,
}

impl Chooser {
    /// A chooser for this of so many threads, of a bank with so many shards.
    pub fn new(traffic: Traffic, shards: u8, threads: u8, thread: u8) -> Chooser {
        let (first, count, hot) = match traffic {
            Traffic::Mixed => (0, shards, 0),
            Traffic::Apart { hot } => match shards.saturating_sub(1) / threads.max(1) {
                0 => (1, shards.saturating_sub(1), hot),
                own => (thread.saturating_mul(own).saturating_add(1), own, hot),
            },
        };
        Chooser {
            random: SplitMix64::seed_from_u64(u64::from(thread)),
            first,
            count: count.max(1),
            hot,
        }
    }

    /// A number below this one, which isn't 0.
    fn below(&mut self, bound: u8) -> u8 {
        (self.random.next_u64() % u64::from(bound.max(1))) as u8
    }

    /// An account of a shard.
    fn account_of(&mut self, shard: u8) -> u32 {
        u32::from(shard) * SHARD_SIZE + u32::from(self.below(4))
    }

    /// The accounts of the next transfer: two of two shards.
    pub fn choose(&mut self) -> (u32, u32) {
        let place = self.below(self.count);
        let is_hot = u32::from(self.below(100)) < self.hot || self.count == 1;
        let to = if is_hot {
            0
        } else {
            let other = self.below(self.count.saturating_sub(1));
            let next = u32::from(place) + 1 + u32::from(other);
            self.first
                .saturating_add((next % u32::from(self.count.max(1))) as u8)
        };
        let from = self.first.saturating_add(place);
        (self.account_of(from), self.account_of(to))
    }
}
