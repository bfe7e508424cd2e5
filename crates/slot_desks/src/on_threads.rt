//! Desks that take slots on threads at the same time, and the shutting of their room.

ghost use Rattle.std.specs.List.{list_all};
ghost use Rattle.std.specs.Prelude.{◌≡◌, ◌<◌, ℕ, [], IfErr, IfOk, IfSome, map, slice_get, true, vec_capacity, vec_len};
ghost use Rattle.desks.specs.Reports.{HaveLogs};
ghost use Rattle.desks.specs.Views.{AreNew, IsDeskOf};
ghost use Rattle.slot_desks.specs.Driving.{CantGoOn, HasDoneRounds, IsFree};
ghost use Rattle.slot_desks.specs.Ended.{AllGiveOwn, GivesOwn, HaveEnded};
ghost use Rattle.slots.specs.System.{slots};
ghost use Rattle.turns.specs.Runs.{is_available};
ghost use Rattle.workers.specs.Workers.{AreAtWork, IsLogOf, records};

use crate::driving::{Shift, SlotDesk, SlotRoom, take_and_give};
use crate::jobs::SlotJobs;
use crate::laws::no_slot_is_taken_twice;
use std::alloc::{AllocError, Global};
use std::thread::Threads;
use workers::{NotShut, at_once, shut_if_idle};

/// Has all desks take slots and free them, each on a thread of its own if one can be made.
/// Returns them in their order, with their logs. A worker stops early if it can't go on.
pub fn take_and_give_at_once<R: Threads + Sync>(
    rt: &R,
    alloc: Global,
    room: &SlotRoom,
    desks: Vec<SlotDesk>,
    rounds: u64,
) -> Result<Vec<Shift>, AllocError>
    requires { AreNew desks.items room.now }
    ensures desks { IfOk result (λ shifts.
        AreAtWork room.now tt (map (λ shift. shift.desk) shifts.items)) }
    ensures logs { IfOk result (λ shifts. HaveLogs slots
        (map (λ shift. shift.desk) shifts.items)
        (map (λ shift. records shift.log.items) shifts.items)) }
    ensures own { IfOk result (λ shifts.
        AllGiveOwn (map (λ shift. records shift.log.items) shifts.items)) }
    ensures rounds { IfOk result (λ shifts. (i : ℕ) → IfSome (slice_get shifts.items i)
        (λ shift. HasDoneRounds rounds shift.log.items
        (CantGoOn (vec_len shift.log) (vec_capacity shift.log) shift.desk))) }
    ensures len { IfOk result (λ shifts. vec_len shifts ≡ vec_len desks) }
{
    at_once(
        rt,
        alloc,
        room,
        &(),
        desks,
        &|shift: Shift| -> Shift
            requires desk { IsDeskOf shift.desk room.now tt }
            requires log { IsLogOf slots shift.desk shift.log.items }
            requires own { GivesOwn [] (records shift.log.items) }
            ensures desk { IsDeskOf result.desk room.entry.now tt }
            ensures number { result.desk.number ≡ shift.desk.number }
            ensures log { IsLogOf slots result.desk result.log.items }
            ensures own { GivesOwn [] (records result.log.items) }
            ensures rounds { shift.log.items ≡ [] → IsFree shift.desk →
                HasDoneRounds rounds result.log.items
                (CantGoOn (vec_len result.log) (vec_capacity result.log) result.desk) }
        { take_and_give(room, shift, rounds) },
    )
}

/// Shuts the room with the desks of shifts, and returns its words. If a desk is still at a job, or
/// if memory runs out, returns the room and the shifts instead. No slot was taken twice unless it
/// was freed in between, and each job is in a log.
pub fn shut_shifts(
    alloc: Global,
    room: SlotRoom,
    shifts: Vec<Shift>,
) -> Result<Vec<u64>, NotShut<SlotJobs>>
    requires work { AreAtWork room tt (map (λ shift. shift.desk) shifts.items) }
    requires logs { HaveLogs slots (map (λ shift. shift.desk) shifts.items)
        (map (λ shift. records shift.log.items) shifts.items) }
    requires all { (vec_len shifts ≡ room.count) × (0 < vec_len shifts) }
    ensures ended { IfOk result (λ words.
        HaveEnded (map (λ shift. records shift.log.items) shifts.items) words.items) }
    ensures idle { IfOk result (λ words.
        list_all (λ shift. is_available slots shift.desk.actor) shifts.items ≡ true) }
    ensures back { IfErr result (λ back. (back.room ≡ room) × (back.shifts ≡ shifts)) }
    ensures why { IfErr result (λ back. back.were_idle
        ≡ list_all (λ shift. is_available slots shift.desk.actor) shifts.items) }
{
    no_slot_is_taken_twice();
    shut_if_idle(alloc, room, &(), shifts)
}
