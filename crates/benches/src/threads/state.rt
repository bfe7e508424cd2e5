//! The state of a marker at work.

use crate::timing::Tally;
use workers::Pausing;
use xbar_equip::Len;
use xbar_office::Job;

/// The number of steps without the end of a job after which a marker gives back. A job that is
/// never denied a connector takes fewer.
const PATIENCE: u64 = 150;

/// The work that a marker has done, and how long it has waited.
#[derive(Default, Drop)]
pub struct State {
    pub tally: Tally,
    /// The number of steps since the marker last ended a job or gave back.
    waited: u64,
    /// How often the marker was denied a connector since it last ended a job.
    denials: u64,
}

impl State {
    /// The next job: a line of the marker's own dials, or if it has dialled gives up its register,
    /// so that registers suffice.
    pub fn next_job(&self, marker: u32) -> Job {
        let line = Len::new((marker % 10) as u8, 0, 0);
        if self.tally.jobs % 2 == 0 {
            Job::Dial(line)
        } else {
            Job::Release(line)
        }
    }

    /// Counts `steps` more steps, which ended the job or did not. Returns whether the marker has
    /// waited so long that it is to give back; the wait then begins anew.
    pub fn count(&mut self, steps: u64, has_ended: bool) -> bool {
        self.tally.count(steps, has_ended);
        self.waited = self.waited.saturating_add(steps);
        let gives_up = !has_ended && self.waited > PATIENCE;
        if has_ended || gives_up {
            self.waited = 0;
        }
        if has_ended {
            self.denials = 0;
        }
        gives_up
    }

    /// Waits once the marker was denied a connector and has given back all.
    pub fn wait(&mut self) {
        self.denials = self.denials.saturating_add(1);
        Pausing::LONG.pause(self.denials);
    }
}
