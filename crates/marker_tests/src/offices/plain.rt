use super::*;
use crate::fixtures::kinds_of;
use xbar_core::Exchange;
use xbar_walk::Unobserved;

pub fn open_exchange<'p>(
    rt: &impl Abort,
    alloc: Global,
    plan: &'p Plan,
    kinds: &[Kind],
) -> Exchange<'p> {
    Exchange::open(alloc, plan, &kinds_of(rt, kinds)).expect(rt, "an office is opened")
}

/// Settles the office, unobserved, which never fails.
pub fn settle(office: &mut Exchange<'_>) {
    match xbar_walk::settle(office, &mut Unobserved) {
        Ok(()) => {}
        Err(_) => unreachable!(),
    }
}

/// An office does nothing for a marker that it doesn't have.
impl Driven for Exchange<'_> {
    fn assign_to(&mut self, marker: u32, job_no: u32, job: Job) -> Result<(), AssignFault> {
        self.assign(marker, job_no, job)
    }

    fn go_on(&mut self, marker: u32) -> Event {
        if marker < self.marker_count() {
            self.step(marker)
        } else {
            Event::Idle
        }
    }

    fn ask_back(&mut self, marker: u32) -> Given {
        if marker < self.marker_count() {
            self.give_back(marker)
        } else {
            Given::Idle
        }
    }

    fn has_no_job(&self, marker: u32) -> bool {
        marker < self.marker_count() && self.is_idle(marker)
    }

    fn shut(self, rt: &impl Abort, alloc: Global) -> Vec<u64> {
        self.words()
            .to_vec(alloc)
            .expect(rt, "there is memory for the words")
    }
}
