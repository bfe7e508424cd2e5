//! Counts of work done, and times per event.

use std::time::Duration;

/// The time of an event in nanoseconds, if `threads` threads at once had `events` together.
pub fn nanoseconds_each(time: Duration, threads: u32, events: u64) -> u128 {
    time.as_nanos().saturating_mul(u128::from(threads)) / u128::from(events.max(1))
}

/// The sum of numbers.
pub fn sum(numbers: &[u64]) -> u64 {
    numbers
        .iter()
        .fold(0, |sum: u64, number| sum.saturating_add(*number))
}

/// How much work was done: jobs ended, and steps made.
#[derive(Clone, Copy, Default)]
pub struct Tally {
    pub jobs: u64,
    pub steps: u64,
}

impl Tally {
    /// Counts `steps` more steps, and one more job if these ended one.
    pub fn count(&mut self, steps: u64, has_ended: bool) {
        self.jobs = self.jobs.saturating_add(u64::from(has_ended));
        self.steps = self.steps.saturating_add(steps);
    }

    /// The sum of all tallies.
    pub fn of_all(tallies: &[Tally]) -> Tally {
        let mut all = Tally::default();
        for tally in tallies {
            all.jobs = all.jobs.saturating_add(tally.jobs);
            all.steps = all.steps.saturating_add(tally.steps);
        }
        all
    }

    /// How long a step takes its thread, and how much time passes for a job, by whichever thread, if
    /// `threads` threads at once did this together. In nanoseconds.
    pub fn paces(self, time: Duration, threads: u32) -> (u128, u128) {
        let step = nanoseconds_each(time, threads, self.steps);
        (step, nanoseconds_each(time, 1, self.jobs))
    }
}
