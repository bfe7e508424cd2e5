use super::*;
use crate::fixtures::{last_desk, open_fabric};
use std::marker::Model;
use xbar_fabric::{Desk, Fabric, meet, shut};

/// Shared words, with the last two of their desks.
#[derive(Drop)]
pub struct TwoDesks<'p> {
    fabric: Fabric<'p>,
    last_but_one: Desk,
    last: Desk,
}

impl<'p> Model for TwoDesks<'p> {
    ghost use Rattle.xbar_fabric.specs.Views.{FabricView, IsDeskOf};

    ghost Value = { FabricView };

    ghost view = { λ o. o.fabric };

    ghost invariant = { λ o. IsDeskOf o.last_but_one o.fabric × IsDeskOf o.last o.fabric };
}

/// Opens shared words with a desk of each of these kinds.
pub fn open_desks<'p>(
    rt: &impl Abort,
    alloc: Global,
    plan: &'p Plan,
    kinds: &[Kind],
) -> TwoDesks<'p> {
    let (fabric, mut desks) = open_fabric(rt, alloc, plan, kinds);
    let last = last_desk(rt, &fabric, &mut desks);
    let last_but_one = last_desk(rt, &fabric, &mut desks);
    check_eq!(rt; last.marker() as usize + 1, kinds.len(), "the last desk");
    TwoDesks {
        fabric,
        last_but_one,
        last,
    }
}

impl TwoDesks<'_> {
    fn is_last(&self, marker: u32) -> bool {
        marker == self.last.marker()
    }
}

impl Driven for TwoDesks<'_> {
    fn assign_to(&mut self, marker: u32, job_no: u32, job: Job) -> Result<(), AssignFault> {
        if self.is_last(marker) {
            self.last.assign(job_no, job)
        } else {
            self.last_but_one.assign(job_no, job)
        }
    }

    fn go_on(&mut self, marker: u32) -> Event {
        if self.is_last(marker) {
            self.last.advance(&self.fabric)
        } else {
            self.last_but_one.advance(&self.fabric)
        }
    }

    fn ask_back(&mut self, marker: u32) -> Given {
        if self.is_last(marker) {
            self.last.give_back(&self.fabric)
        } else {
            self.last_but_one.give_back(&self.fabric)
        }
    }

    fn has_no_job(&self, marker: u32) -> bool {
        if self.is_last(marker) {
            self.last.is_idle()
        } else {
            self.last_but_one.is_idle()
        }
    }

    fn meet(&mut self) {
        meet(&self.fabric, &mut self.last_but_one, &mut self.last);
    }

    fn shut(self, rt: &impl Abort, alloc: Global) -> Vec<u64> {
        let TwoDesks {
            fabric,
            last_but_one: _,
            last,
        } = self;
        let Ok(words) = shut(alloc, fabric, last) else {
            panic!(rt; "there is memory for the words");
        };
        words
    }
}
