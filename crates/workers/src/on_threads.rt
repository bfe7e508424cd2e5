//! Desks that work on threads at the same time.

ghost use Rattle.std.specs.Prelude.{◌≡◌, ℕ, [], IfOk, IfSome, map, slice_get, vec_len};
ghost use Rattle.desks.specs.Reports.{HaveLogs};
ghost use Rattle.desks.specs.Views.{AreNew, IsDeskOf, new_desk};
ghost use Rattle.turns.specs.System.{system_of};
ghost use Rattle.workers.specs.Workers.{AreAtWork, IsLogOf, records};

use crate::shift::Shift;
use desks::{Desk, Jobs, Room};
use std::alloc::{AllocError, Global};
use std::marker::{Send, Sync};
use std::thread::{Threads, map_vec};

/// What a worker does from the beginning of its shift to the end; all workers of a room share it.
/// `S` is the type of their shifts.
pub trait Routine<S> {
    // Which shifts a worker may begin.
    ghost Begins: { Self → S → Type 0 };

    // What the routine promises of a shift, given as it began and as it ended.
    ghost Ends: { Self → S → S → Type 0 };

    fn run(&self, shift: S) -> S
        requires { Begins self.now shift }
        ensures { Ends self.now shift result };
}

/// A closure is a routine too.
impl<S, C: Fn(S) -> S> Routine<S> for C {
    ghost Begins = { λ work shift. C.pre work shift };

    ghost Ends = { λ work shift after. C.post work shift after };

    fn run(&self, shift: S) -> S {
        self(shift)
    }
}

/// Has a worker at each desk of a new room do the routine, from an empty log on, each on a thread
/// of its own if one can be made. Returns their shifts in the order of the desks. A job may still
/// be under way at the end of a shift.
pub fn at_once<F: Jobs + Sync, W: Routine<Shift<F>> + Sync, R: Threads + Sync>(
    rt: &R,
    alloc: Global,
    _room: &Room<F>,
    _setting: &F::Setting,
    desks: Vec<Desk<F>>,
    routine: &W,
) -> Result<Vec<Shift<F>>, AllocError>
where
    F::Kept: Send,
    F::Program: Send,
    F::Job: Send,
    F::Reply: Send,
    requires desks { AreNew desks.items _room.now }
    requires setting { _room.now.setting ≡ _setting.now }
    requires begins { (shift : _) → IsDeskOf shift.desk _room.now _setting.now
        → IsLogOf (system_of (F.system _setting.now)) shift.desk shift.log.items
        → shift.log.items ≡ [] → W.Begins routine.now shift }
    requires keeps { (shift after : _) → W.Ends routine.now shift after
        → IsDeskOf after.desk _room.now _setting.now
        × (after.desk.number ≡ shift.desk.number)
        × IsLogOf (system_of (F.system _setting.now)) after.desk after.log.items }
    ensures desks { IfOk result (λ shifts.
        AreAtWork _room.now _setting.now (map (λ shift. shift.desk) shifts.items)) }
    ensures logs { IfOk result (λ shifts. HaveLogs (system_of (F.system _setting.now))
        (map (λ shift. shift.desk) shifts.items)
        (map (λ shift. records shift.log.items) shifts.items)) }
    ensures each { IfOk result (λ shifts. (i : ℕ) → IfSome (slice_get shifts.items i)
        (λ after. (shift : _) × (shift.desk ≡ new_desk _room.now i) × (shift.log.items ≡ [])
        × W.Ends routine.now shift after)) }
    ensures len { IfOk result (λ shifts. vec_len shifts ≡ vec_len desks) }
{
    let shifts = map_vec(
        rt,
        desks,
        &|desk: Desk<F>| -> Shift<F>
            requires { (shift : _) → shift.desk ≡ desk → shift.log.items ≡ []
                → W.Begins routine.now shift }
            ensures { (shift : _) × (shift.desk ≡ desk) × (shift.log.items ≡ [])
                × W.Ends routine.entry.now shift result }
        { routine.run(Shift::new(alloc, desk)) },
    )?;
    Ok(shifts)
}
