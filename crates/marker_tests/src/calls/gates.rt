//! Gates at which markers wait for one another.

use std::sync::atomic::{AtomicU64, Ordering};
use std::thread;
use xbar_markers::Gate;

/// How often a gate yields before it gives up waiting: half a minute and more, since a machine
/// with much else to do may keep a thread from running for a second.
const PATIENCE: u32 = 100_000_000;

/// How far a marker is: it has come to its gate for this number of steps, and has ended this
/// number of jobs.
#[derive(Clone, Copy)]
pub struct Point {
    pub steps: u64,
    pub jobs: u64,
}

/// A marker that has come to the first point waits until the marker of this number has come to the
/// second.
#[derive(Clone, Copy)]
pub struct Meeting(pub Point, pub u32, pub Point);

/// How far one marker is, for the gates of the others to see.
#[derive(Default, Drop)]
struct Progress {
    steps: AtomicU64,
    jobs: AtomicU64,
}

impl Progress {
    fn has_come_to(&self, point: Point) -> bool {
        self.steps.load(Ordering::SeqCst) >= point.steps
            && self.jobs.load(Ordering::SeqCst) >= point.jobs
    }
}

/// What the gates of a run share, and what they count.
#[derive(Default, Drop)]
pub struct Board {
    markers: [Progress; 3],
    kept: AtomicU64,
    missed: AtomicU64,
    miscounted: AtomicU64,
    jobs: AtomicU64,
}

/// How often markers met, how often one waited in vain, how often a gate was called with a wrong
/// number, and the numbers of all jobs that gates were notified of, as the bits of a word.
#[derive(Debug, Drop, PartialEq)]
pub struct Tally {
    pub kept: u64,
    pub missed: u64,
    pub miscounted: u64,
    pub jobs: u64,
}

impl Board {
    fn progress(&self, marker: u32) -> Option<&Progress> {
        self.markers.get(marker as usize)
    }

    pub fn tally(&self) -> Tally {
        Tally {
            kept: self.kept.load(Ordering::SeqCst),
            missed: self.missed.load(Ordering::SeqCst),
            miscounted: self.miscounted.load(Ordering::SeqCst),
            jobs: self.jobs.load(Ordering::SeqCst),
        }
    }

    /// Waits until another marker has come to a point, or gives up.
    fn wait(&self, other: u32, until: Point) {
        for _turn in 0..PATIENCE {
            if self
                .progress(other)
                .is_some_and(|other| other.has_come_to(until))
            {
                let _kept = self.kept.fetch_add(1, Ordering::SeqCst);
                return;
            }
            thread::yield_now();
        }
        let _missed = self.missed.fetch_add(1, Ordering::SeqCst);
    }
}

/// Reports to the board how far its marker is, and waits at one point at most.
#[derive(Drop)]
pub struct MeetingGate<'a> {
    board: &'a Board,
    marker: u32,
    meeting: Option<Meeting>,
}

impl<'a> MeetingGate<'a> {
    pub fn new(board: &'a Board, marker: u32, meeting: Option<Meeting>) -> Self {
        MeetingGate {
            board,
            marker,
            meeting,
        }
    }

    /// Counts a call of the gate with a wrong number.
    fn count_mistake(&self) {
        let _mistakes = self.board.miscounted.fetch_add(1, Ordering::SeqCst);
    }
}

impl Gate for MeetingGate<'_> {
    fn pass(&mut self, marker: u32, step: u64) {
        let Some(own) = self.board.progress(marker) else {
            return self.count_mistake();
        };
        if marker != self.marker || own.steps.fetch_add(1, Ordering::SeqCst) != step {
            self.count_mistake();
        }
        if let Some(Meeting(at, other, until)) = self.meeting {
            if own.has_come_to(at) {
                self.meeting = None;
                self.board.wait(other, until);
            }
        }
    }

    fn finished(&mut self, marker: u32, job_no: u32) {
        let Some(own) = self.board.progress(marker) else {
            return self.count_mistake();
        };
        if marker != self.marker {
            self.count_mistake();
        }
        let told = 1_u64.checked_shl(job_no).unwrap_or(0);
        let _told = self.board.jobs.fetch_or(told, Ordering::SeqCst);
        let _jobs = own.jobs.fetch_add(1, Ordering::SeqCst);
    }
}
