//! A line on a terminal that says how long a task has taken so far.

use std::io::IsTerminal;
use std::sync::atomic::{AtomicBool, Ordering};
use std::thread::sleep;
use std::time::Duration;

/// The milliseconds between two checks whether the task is done.
const PAUSE_MILLISECONDS: u64 = 10;

/// The number of checks in a second.
const PAUSES_IN_A_SECOND: u32 = 100;

/// The seconds that pass before the first line.
const QUIET_SECONDS: u32 = 2;

/// What two threads share on a task: one does the task, the other reports its progress.
#[derive(Drop)]
pub struct Progress {
    /// Whether a task has begun.
    has_begun: AtomicBool,
    /// Whether all that is to be reported is done.
    is_done: AtomicBool,
    /// Whether the reporting thread has started.
    is_watched: AtomicBool,
    /// Whether the reporting thread has ended its line.
    is_reported: AtomicBool,
}

impl Progress {
    /// No task has begun, and no thread reports.
    pub fn new() -> Self {
        Progress {
            has_begun: AtomicBool::new(false),
            is_done: AtomicBool::new(false),
            is_watched: AtomicBool::new(false),
            is_reported: AtomicBool::new(false),
        }
    }

    /// Whether progress is shown: only where standard error is a terminal, and neither standard
    /// input nor standard output is one. So it disturbs neither what a user types nor the output.
    pub fn is_shown(rt: &HostRuntime) -> bool {
        rt.stderr().is_terminal() && !rt.stdin().is_terminal() && !rt.stdout().is_terminal()
    }

    /// Called when a task begins.
    pub fn begin(&self) {
        self.has_begun.store(true, Ordering::SeqCst);
    }

    /// Called when all is done. Waits until the reporting thread, if it has started, has ended its
    /// line.
    pub fn end(&self, rt: &HostRuntime) {
        self.is_done.store(true, Ordering::SeqCst);
        for _ in 0..u32::MAX {
            let is_watched = self.is_watched.load(Ordering::SeqCst);
            if !is_watched || self.is_reported.load(Ordering::SeqCst) {
                return;
            }
            pause(rt);
        }
    }

    /// Reports the seconds of a task on standard error until all is done.
    pub fn report(&self, rt: &HostRuntime) {
        self.is_watched.store(true, Ordering::SeqCst);
        end_line(rt, self.watch(rt));
        self.is_reported.store(true, Ordering::SeqCst);
    }

    /// Reports until all is done. Returns the number of pauses since a task began.
    fn watch(&self, rt: &HostRuntime) -> u32 {
        let mut pauses = 0u32;
        for _ in 0..u32::MAX {
            pause(rt);
            if self.is_done.load(Ordering::SeqCst) {
                return pauses;
            }
            if self.has_begun.load(Ordering::SeqCst) {
                pauses = pauses.saturating_add(1);
                report_at(rt, pauses);
            }
        }
        pauses
    }
}

fn pause(rt: &HostRuntime) {
    sleep(rt, Duration::from_millis(PAUSE_MILLISECONDS));
}

/// Writes the seconds over those before, if a second has passed. A failed write is ignored.
fn report_at(rt: &HostRuntime, pauses: u32) {
    let seconds = pauses / PAUSES_IN_A_SECOND;
    if pauses % PAUSES_IN_A_SECOND == 0 && seconds >= QUIET_SECONDS {
        let _written = eprint!(rt; "\rcrossbar5: working, {seconds} seconds");
    }
}

/// Ends the line after this many pauses, if one was written.
fn end_line(rt: &HostRuntime, pauses: u32) {
    if pauses >= QUIET_SECONDS * PAUSES_IN_A_SECOND {
        let _written = eprintln!(rt);
    }
}
