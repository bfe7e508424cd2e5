//! The bank's accounts as plain data behind locks.

use super::with_work::{BankWithWork, work};
use crate::timing::sum;
use bank::SHARD_SIZE;
use crossbeam_utils::CachePadded;
use std::alloc::{AllocError, Global};
use std::sync::{Mutex, Wait};

/// The number of accounts of a shard.
const SIZE: usize = SHARD_SIZE as usize;

/// Two balances after 1 was moved from the first to the second, if the first had it and the second
/// had room.
fn moved(from: u64, to: u64) -> (u64, u64) {
    if from == 0 || to == u64::MAX {
        (from, to)
    } else {
        (from - 1, to + 1)
    }
}

/// All accounts, for one lock around them.
#[derive(Drop)]
pub struct Ledger {
    balances: Vec<u64>,
    rounds: u32,
    /// What the work made, lest a compiler leave the work out.
    made: u64,
}

impl Ledger {
    /// The accounts of a bank.
    pub fn open(alloc: Global, bank: &BankWithWork) -> Result<Ledger, AllocError> {
        let BankWithWork { opening, rounds } = *bank;
        let balances = vec![in alloc; opening.balance; opening.account_count()]?;
        Ok(Ledger {
            balances,
            rounds,
            made: 0,
        })
    }

    /// Does the work of a job, and moves 1 between two accounts. None if they aren't there.
    pub fn transfer(&mut self, from: u32, to: u32) -> Option<()> {
        let (left, has) = (
            *self.balances.get(from as usize)?,
            *self.balances.get(to as usize)?,
        );
        self.made = work(self.rounds, self.made);
        let (left, has) = moved(left, has);
        *self.balances.get_mut(from as usize)? = left;
        *self.balances.get_mut(to as usize)? = has;
        Some(())
    }

    /// The sum of all balances.
    pub fn sum(&self) -> u64 {
        sum(&self.balances)
    }
}

/// The accounts of a shard.
#[derive(Drop)]
struct Shard {
    balances: [u64; SIZE],
    /// What the work made, lest a compiler leave the work out.
    made: u64,
}

impl Shard {
    /// Does the work of a job, and moves 1 from an account here to one of another shard.
    fn move_to(&mut self, from: usize, other: &mut Shard, to: usize, rounds: u32) {
        let (left, has) = (self.balances[from % SIZE], other.balances[to % SIZE]);
        self.made = work(rounds, self.made);
        let (left, has) = moved(left, has);
        self.balances[from % SIZE] = left;
        other.balances[to % SIZE] = has;
    }
}

/// All accounts, with a lock around each shard's. No two shards share a cache line.
#[derive(Drop)]
pub struct Shards {
    shards: Vec<CachePadded<Mutex<Shard>>>,
    rounds: u32,
}

impl Shards {
    /// The accounts of a bank.
    pub fn open(alloc: Global, bank: &BankWithWork) -> Result<Shards, AllocError> {
        let BankWithWork { opening, rounds } = *bank;
        let mut shards = Vec::new(alloc);
        for _shard in 0..opening.shards {
            let balances = [opening.balance; SIZE];
            shards.push(CachePadded::new(Mutex::new(Shard { balances, made: 0 })))?;
        }
        Ok(Shards { shards, rounds })
    }

    /// Does the work of a job, and moves 1 between accounts of two shards. It holds both locks
    /// meanwhile, of which it acquires the lower first. None if the shards aren't two.
    pub fn transfer<R: Wait>(&self, rt: &R, from: u32, to: u32) -> Option<()> {
        let (from, to) = (from as usize, to as usize);
        let (one, other) = (from / SIZE, to / SIZE);
        let (first, second) = (
            self.shards.get(one.min(other))?,
            self.shards.get(one.max(other))?,
        );
        if one == other {
            return None;
        }
        let (mut first, mut second) = (first.lock(rt), second.lock(rt));
        if one < other {
            first.move_to(from, &mut second, to, self.rounds);
        } else {
            second.move_to(from, &mut first, to, self.rounds);
        }
        Some(())
    }

    /// The sum of all balances.
    pub fn sum<R: Wait>(&self, rt: &R) -> u64 {
        let mut all: u64 = 0;
        for shard in &self.shards {
            all = all.saturating_add(sum(&shard.lock(rt).balances));
        }
        all
    }
}
