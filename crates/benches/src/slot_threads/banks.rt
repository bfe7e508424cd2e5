//! The allocator of slots as plain data.

ghost use Rattle.std.specs.Prelude.{◌<◌};

use crossbeam_utils::CachePadded;
use slots::bank::{BANK_SIZE, lowest_free};
use slots::{Effect, Job, UpToTwo};
use std::sync::{Mutex, Wait};

/// Makes an effect on the word of its bank.
fn make(bank: &mut u64, effect: Effect) {
    *bank = effect.operation().apply(*bank);
}

/// Takes the lowest free slot of a bank, if there is one.
fn take(bank: u32, word: &mut u64) -> Option<u32>
    requires { bank < 2 }
{
    let slot = lowest_free(bank, *word)?;
    make(word, Effect::Mark(slot));
    Some(slot)
}

/// Takes the lowest free slot of each bank, if both have one.
fn take_both(lower: &mut u64, upper: &mut u64) -> UpToTwo<u32> {
    match (lowest_free(0, *lower), lowest_free(1, *upper)) {
        (Some(slot), Some(other)) => {
            make(lower, Effect::Mark(slot));
            make(upper, Effect::Mark(other));
            UpToTwo::Two(slot, other)
        }
        _ => UpToTwo::Empty,
    }
}

fn one_or_none(slot: Option<u32>) -> UpToTwo<u32> {
    slot.map_or(UpToTwo::Empty, UpToTwo::One)
}

/// The busy bits of the two banks, on which each job is done whole.
#[derive(Default, Drop)]
pub struct Banks {
    lower: u64,
    upper: u64,
}

impl Banks {
    /// Does a job, and returns the slots that it took.
    pub fn do_job(&mut self, job: Job) -> UpToTwo<u32> {
        match job {
            Job::Take => one_or_none(take(0, &mut self.lower).or_else(|| take(1, &mut self.upper))),
            Job::TakeBoth => take_both(&mut self.lower, &mut self.upper),
            Job::Give(slot) => {
                let bank = if slot < BANK_SIZE {
                    &mut self.lower
                } else {
                    &mut self.upper
                };
                make(bank, Effect::Clear(slot));
                UpToTwo::Empty
            }
        }
    }
}

/// The same bits, each bank's behind a lock of its own.
#[derive(Default, Drop)]
pub struct LockedBanks {
    lower: CachePadded<Mutex<u64>>,
    upper: CachePadded<Mutex<u64>>,
}

impl LockedBanks {
    /// Takes the lowest free slot. As on one word for both banks, a slot of the upper one is taken
    /// only while the lower one is full.
    fn take<R: Wait>(&self, rt: &R) -> Option<u32> {
        let mut lower = self.lower.lock(rt);
        if let Some(slot) = take(0, &mut lower) {
            return Some(slot);
        }
        take(1, &mut self.upper.lock(rt))
    }

    /// Does a job while it holds the locks of the banks that it looks at, of which it acquires the
    /// lower first, and returns the slots that it took.
    pub fn do_job<R: Wait>(&self, rt: &R, job: Job) -> UpToTwo<u32> {
        match job {
            Job::Take => one_or_none(self.take(rt)),
            Job::TakeBoth => {
                let mut lower = self.lower.lock(rt);
                take_both(&mut lower, &mut self.upper.lock(rt))
            }
            Job::Give(slot) => {
                let bank = if slot < BANK_SIZE {
                    &self.lower
                } else {
                    &self.upper
                };
                make(&mut bank.lock(rt), Effect::Clear(slot));
                UpToTwo::Empty
            }
        }
    }
}
