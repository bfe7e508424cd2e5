//! Limits on calls under way, and on waiting.

use std::sync::atomic::{AtomicU64, Ordering};
use std::thread;

/// The number of registers of the example plan.
pub const REGISTERS: usize = 3;

/// The number of times that a waiting thread lets others run before it goes on all the same; also
/// the number of steps that a marker is given for a job.
pub const PATIENCE: u32 = 1_000_000;

/// A limit on the calls under way: those whose dialling has begun, and that aren't yet completed.
#[derive(Drop)]
pub struct Pace {
    under_way: AtomicU64,
    most: u64,
}

impl Pace {
    pub fn new(most: usize) -> Pace {
        Pace {
            under_way: AtomicU64::new(0),
            most: most as u64,
        }
    }

    /// Waits until fewer than the most calls are under way, and counts one more. After a long
    /// wait, goes on without counting it.
    pub fn begin(&self) {
        for _time in 0..PATIENCE {
            if self.under_way.fetch_add(1, Ordering::SeqCst) < self.most {
                return;
            }
            self.end();
            thread::yield_now();
        }
    }

    /// Counts one call less as under way.
    pub fn end(&self) {
        let _before = self.under_way.fetch_sub(1, Ordering::SeqCst);
    }
}
