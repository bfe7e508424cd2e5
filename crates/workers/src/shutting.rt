//! The shutting of a room with the desks of shifts.

ghost use Rattle.std.specs.List.{list_all};
ghost use Rattle.std.specs.Prelude.{◌≡◌, ◌≤◌, ◌<◌, [], IfErr, IfOk, is_ok, map, true, vec_capacity, vec_len};
ghost use Rattle.desks.specs.Met.{AreIdle};
ghost use Rattle.desks.specs.Reports.{HaveLogs};
ghost use Rattle.turns.specs.Runs.{is_available};
ghost use Rattle.turns.specs.System.{system_of};
ghost use Rattle.workers.specs.Workers.{AreAtWork, HaveShut, records};

use crate::shift::Shift;
use desks::{Desk, Jobs, Room, laws, shut_all_into};
use std::alloc::{AllocError, Global};

/// A room that was not shut, and its shifts, so that they can go on.
#[derive(Drop)]
pub struct NotShut<F: Jobs> {
    pub room: Room<F>,
    pub shifts: Vec<Shift<F>>,
    /// Whether all desks were idle, so that only memory was missing.
    pub were_idle: bool,
}

/// Whether none of these shifts' desks is at a job.
pub fn are_idle<F: Jobs>(shifts: &[Shift<F>]) -> bool
    ensures { result ≡ list_all (λ shift.
        is_available (system_of (F.system shift.desk.setting)) shift.desk.actor) shifts.now }
{
    shifts.iter().all(|shift| shift.desk.is_idle())
}

/// The desks of shifts, in their order and in the memory of `desks`; drops the logs.
fn desks_of<F: Jobs>(mut desks: Vec<Desk<F>>, shifts: Vec<Shift<F>>) -> Vec<Desk<F>>
    requires memory { (desks.items ≡ []) × (vec_len shifts ≤ vec_capacity desks) }
    ensures { result.items ≡ map (λ shift. shift.desk) shifts.items }
{
    for shift in shifts {
        desks.push_reserved(shift.desk);
    }
    desks
}

/// The desks of shifts, in their order and in the memory of `desks`. If one of them is still at a
/// job, returns the shifts instead.
pub fn idle_desks<F: Jobs>(
    desks: Vec<Desk<F>>,
    _room: &Room<F>,
    _setting: &F::Setting,
    shifts: Vec<Shift<F>>,
) -> Result<Vec<Desk<F>>, Vec<Shift<F>>>
    requires memory { (desks.items ≡ []) × (vec_len shifts ≤ vec_capacity desks) }
    requires work { AreAtWork _room.now _setting.now (map (λ shift. shift.desk) shifts.items) }
    ensures idle { IfOk result (λ desks. AreIdle (system_of (F.system _setting.now))
        _room.now.table _setting.now desks.items) }
    ensures desks { IfOk result (λ desks. desks.items ≡ map (λ shift. shift.desk) shifts.items) }
    ensures ok { is_ok result ≡ list_all (λ shift.
        is_available (system_of (F.system shift.desk.setting)) shift.desk.actor) shifts.items }
    ensures len { IfOk result (λ desks. vec_len desks ≡ vec_len shifts) }
    ensures back { IfErr result (λ back. back ≡ shifts) }
{
    if !are_idle(shifts.as_slice()) {
        return Err(shifts);
    }
    Ok(desks_of(desks, shifts))
}

/// Memory for the words of a room, and for its desks.
fn memory<F: Jobs>(
    alloc: Global,
    setting: &F::Setting,
    count: usize,
) -> Result<(Vec<u64>, Vec<Desk<F>>), AllocError>
    ensures words { IfOk result (λ r. (r.0.items ≡ [])
        × ((F.system setting.now).size ≤ vec_capacity r.0)) }
    ensures desks { IfOk result (λ r. (r.1.items ≡ []) × (count ≤ vec_capacity r.1)) }
{
    let words = Vec::with_capacity(alloc, F::size(setting))?;
    let desks = Vec::with_capacity(alloc, count)?;
    Ok((words, desks))
}

/// Shuts the room with the desks of shifts, if none of them is at a job, and returns its words. If
/// one is, or if memory runs out, returns the room and the shifts instead.
pub fn shut_if_idle<F: Jobs>(
    alloc: Global,
    room: Room<F>,
    setting: &F::Setting,
    shifts: Vec<Shift<F>>,
) -> Result<Vec<u64>, NotShut<F>>
    requires setting { room.setting ≡ setting.now }
    requires work { AreAtWork room setting.now (map (λ shift. shift.desk) shifts.items) }
    requires logs { HaveLogs (system_of (F.system setting.now))
        (map (λ shift. shift.desk) shifts.items)
        (map (λ shift. records shift.log.items) shifts.items) }
    requires all { (vec_len shifts ≡ room.count) × (0 < vec_len shifts) }
    ensures shut { IfOk result (λ words. HaveShut (system_of (F.system setting.now))
        (map (λ shift. shift.desk) shifts.items)
        (map (λ shift. records shift.log.items) shifts.items) words.items) }
    ensures idle { IfOk result (λ words. list_all (λ shift.
        is_available (system_of (F.system shift.desk.setting)) shift.desk.actor)
        shifts.items ≡ true) }
    ensures back { IfErr result (λ back. (back.room ≡ room) × (back.shifts ≡ shifts)) }
    ensures why { IfErr result (λ back. back.were_idle ≡ list_all (λ shift.
        is_available (system_of (F.system shift.desk.setting)) shift.desk.actor) shifts.items) }
{
    laws::reports_make_up_the_order::<F>();
    let Ok((words, desks)) = memory::<F>(alloc, setting, shifts.len()) else {
        let were_idle = are_idle(shifts.as_slice());
        return Err(NotShut {
            room,
            shifts,
            were_idle,
        });
    };
    match idle_desks(desks, &room, setting, shifts) {
        Ok(desks) => Ok(shut_all_into(words, room, setting, desks)),
        Err(shifts) => Err(NotShut {
            room,
            shifts,
            were_idle: false,
        }),
    }
}
