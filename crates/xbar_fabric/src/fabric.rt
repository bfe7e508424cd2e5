ghost use Rattle.std.specs.Prelude.{◌≡◌, ◌≤◌, ◌<◌, IfOk, [], length, vec_capacity};
ghost use Rattle.desks.specs.Views.{AreNew};
ghost use Rattle.xbar_fabric.specs.Meetings.{AreAllIdle};
ghost use Rattle.xbar_fabric.specs.Views.{AreDesksOf, new_desks};

use crate::desk::Desk;
use crate::office::Office;
use desks::Room;
use std::alloc::{AllocError, Global};
use std::marker::Model;
use xbar_moves::{Kind, Kinds};
use xbar_plan::Plan;

/// The office's shared words, under a plan. Threads share it by reference.
#[derive(Drop)]
pub struct Fabric<'p> {
    pub(crate) plan: &'p Plan,
    pub(crate) room: Room<Office>,
}

impl<'p> Model for Fabric<'p> {
    ghost use Rattle.std.specs.Prelude.{◌≡◌, ◌<◌};
    ghost use Rattle.xbar_plan.specs.Lawful.{IsLawful};
    ghost use Rattle.xbar_fabric.specs.Views.{FabricView};

    ghost Value = { FabricView };

    ghost view = { λ f. record { table = f.room.table; plan = f.plan.now; count = f.room.count } };

    ghost invariant = { λ f. (f.room.setting ≡ f.plan.now) × (0 < f.room.count)
        × IsLawful f.plan.now };
}

/// Makes the office's desks of a room's new desks, with these kinds.
fn assort(room: &Room<Office>, rest: Vec<desks::Desk<Office>>, kinds: &[Kind], all: &mut Vec<Desk>)
    requires new { AreNew rest.items room.now }
    requires count { room.now.count ≡ length kinds.now }
    requires none { (all.old.items ≡ []) × (length kinds.now ≤ vec_capacity all.old) }
    ensures { all.new.items ≡ new_desks
        (record { table = room.now.table; plan = room.now.setting; count = room.now.count })
        0 kinds.now }
{
    let mut rest = rest.into_iter();
    for kind in kinds {
        let Some(desk) = rest.next() else {
            unreachable!()
        };
        all.push_reserved(Desk { desk, kind: *kind });
    }
}

impl<'p> Fabric<'p> {
    /// Opens the shared words, all of them 0, with an idle desk of each of these kinds: desk `k`
    /// is that of marker `k`.
    #[tactic(auto, using(crate::proofs::NewDesks::new_are_theirs))]
    pub fn open(
        alloc: Global,
        plan: &'p Plan,
        kinds: &Kinds,
    ) -> Result<(Self, Vec<Desk>), AllocError>
        ensures fabric { IfOk result
            (λ opened. (opened.0.plan ≡ plan.now) × (opened.0.count ≡ length kinds.now)) }
        ensures desks { IfOk result (λ opened. opened.1.items ≡ new_desks opened.0 0 kinds.now) }
        ensures theirs { IfOk result (λ opened. AreDesksOf opened.1.items opened.0) }
        ensures idle { IfOk result (λ opened. AreAllIdle opened.1.items opened.0) }
    {
        let kinds = kinds.as_slice();
        // Called only for its contract.
        xbar_plan::laws::every_plan_is_lawful(plan);
        let (room, rest) = Room::open(alloc, plan, kinds.len() as u32)?;
        let mut all = Vec::with_capacity(alloc, kinds.len())?;
        assort(&room, rest, kinds, &mut all);
        Ok((Fabric { plan, room }, all))
    }
}
