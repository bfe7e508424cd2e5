//! Desks whose workers do jobs one after another, on threads at the same time.

ghost use Rattle.std.specs.Prelude.{◌≡◌, ℕ, [], IfOk, IfSome, map, slice_get, true, vec_capacity, vec_len};
ghost use Rattle.desks.specs.Reports.{HaveLogs};
ghost use Rattle.desks.specs.Views.{AreNew, IsDeskOf};
ghost use Rattle.turns.specs.Runs.{is_available};
ghost use Rattle.turns.specs.System.{system_of};
ghost use Rattle.workers.specs.Tries.{HasStopped};
ghost use Rattle.workers.specs.Workers.{AreAssigned, AreAtWork, AssignsJobs, IsLogOf, records};

use crate::back_off::BackOff;
use crate::lends::Lends;
use crate::on_threads::at_once;
use crate::shift::Shift;
use desks::{Desk, Jobs, Room};
use std::alloc::{AllocError, Global};
use std::marker::{Send, Sync};
use std::thread::Threads;

/// Does the jobs that `next_job` names, one after another, and logs each, until it names none or
/// the worker is stuck.
fn do_jobs<F: Jobs, N: Fn(u32, u64) -> Option<F::Job>, B: BackOff>(
    room: &Room<F>,
    setting: &F::Setting,
    mut shift: Shift<F>,
    next_job: &N,
    back_off: &B,
) -> Shift<F>
    requires desk { IsDeskOf shift.desk room.now setting.now }
    requires log { IsLogOf (system_of (F.system setting.now)) shift.desk shift.log.items }
    requires empty { shift.log.items ≡ [] }
    requires jobs { AssignsJobs (F.system setting.now).IsJob (N.pre next_job.now)
        (N.post next_job.now) }
    ensures desk { IsDeskOf result.desk room.now setting.now }
    ensures number { result.desk.number ≡ shift.desk.number }
    ensures log { IsLogOf (system_of (F.system setting.now)) result.desk result.log.items }
    ensures assigned { AreAssigned (N.post next_job.now result.desk.number) result.log.items }
    ensures stopped { is_available (system_of (F.system setting.now)) shift.desk.actor ≡ true →
        HasStopped (system_of (F.system setting.now)) (B.Answers back_off.now)
        (N.post next_job.now result.desk.number) (vec_len result.log) (vec_capacity result.log)
        result.desk.actor }
{
    let desk = shift.desk.number();
    for ended in 0..u64::MAX {
        let Some(job) = next_job(desk, ended) else {
            break;
        };
        if !shift.work(room, setting, ended, job, back_off) {
            break;
        }
    }
    shift
}

/// `do_all` for whatever lends the room.
fn do_all_in<F, X, N, B, R>(
    rt: &R,
    alloc: Global,
    room: &X,
    setting: &F::Setting,
    desks: Vec<Desk<F>>,
    next_job: &N,
    back_off: &B,
) -> Result<Vec<Shift<F>>, AllocError>
where
    F: Jobs + Sync,
    F::Setting: Sync,
    F::Kept: Send,
    F::Program: Send,
    F::Job: Send,
    F::Reply: Send,
    X: Lends<Room<F>> + Sync,
    N: Fn(u32, u64) -> Option<F::Job> + Sync,
    B: BackOff + Sync,
    R: Threads + Sync,
    requires desks { AreNew desks.items (X.lent room.now) }
    requires setting { (X.lent room.now).setting ≡ setting.now }
    requires jobs { AssignsJobs (F.system setting.now).IsJob (N.pre next_job.now)
        (N.post next_job.now) }
    ensures desks { IfOk result (λ shifts.
        AreAtWork (X.lent room.now) setting.now (map (λ shift. shift.desk) shifts.items)) }
    ensures logs { IfOk result (λ shifts. HaveLogs (system_of (F.system setting.now))
        (map (λ shift. shift.desk) shifts.items)
        (map (λ shift. records shift.log.items) shifts.items)) }
    ensures assigned { IfOk result (λ shifts. (i : ℕ) → IfSome (slice_get shifts.items i)
        (λ shift. AreAssigned (N.post next_job.now shift.desk.number) shift.log.items)) }
    ensures stopped { IfOk result (λ shifts. (i : ℕ) → IfSome (slice_get shifts.items i)
        (λ shift. HasStopped (system_of (F.system setting.now)) (B.Answers back_off.now)
        (N.post next_job.now shift.desk.number) (vec_len shift.log) (vec_capacity shift.log)
        shift.desk.actor)) }
    ensures len { IfOk result (λ shifts. vec_len shifts ≡ vec_len desks) }
{
    at_once(
        rt,
        alloc,
        room.lend(),
        setting,
        desks,
        &|shift: Shift<F>| -> Shift<F>
            requires desk { IsDeskOf shift.desk (X.lent room.now) setting.now }
            requires log { IsLogOf (system_of (F.system setting.now)) shift.desk shift.log.items }
            requires empty { shift.log.items ≡ [] }
            requires jobs { AssignsJobs (F.system setting.now).IsJob (N.pre next_job.now)
                (N.post next_job.now) }
            ensures desk { IsDeskOf result.desk (X.lent room.entry.now) setting.entry.now }
            ensures number { result.desk.number ≡ shift.desk.number }
            ensures log { IsLogOf (system_of (F.system setting.entry.now)) result.desk
                result.log.items }
            ensures assigned { AreAssigned (N.post next_job.entry.now result.desk.number)
                result.log.items }
            ensures stopped { is_available (system_of (F.system setting.entry.now))
                shift.desk.actor ≡ true → HasStopped (system_of (F.system setting.entry.now))
                (B.Answers back_off.entry.now) (N.post next_job.entry.now result.desk.number)
                (vec_len result.log) (vec_capacity result.log) result.desk.actor }
        { do_jobs(room.lend(), setting, shift, next_job, back_off) },
    )
}

/// Has a worker at each desk of a new room do jobs, one after another, each worker on a thread of
/// its own if one can be made. `next_job` is told a desk's number and how many jobs its worker has
/// ended, and returns the worker's next job, or None once its work is done. Returns the shifts in
/// the order of the desks. A worker stops early if it is stuck: if the policy gives up, or its log
/// has no room.
pub fn do_all<F, N, B, R>(
    rt: &R,
    alloc: Global,
    room: &Room<F>,
    setting: &F::Setting,
    desks: Vec<Desk<F>>,
    next_job: &N,
    back_off: &B,
) -> Result<Vec<Shift<F>>, AllocError>
where
    F: Jobs + Sync,
    F::Setting: Sync,
    F::Kept: Send,
    F::Program: Send,
    F::Job: Send,
    F::Reply: Send,
    N: Fn(u32, u64) -> Option<F::Job> + Sync,
    B: BackOff + Sync,
    R: Threads + Sync,
    requires desks { AreNew desks.items room.now }
    requires setting { room.now.setting ≡ setting.now }
    requires jobs { AssignsJobs (F.system setting.now).IsJob (N.pre next_job.now)
        (N.post next_job.now) }
    ensures desks { IfOk result (λ shifts.
        AreAtWork room.now setting.now (map (λ shift. shift.desk) shifts.items)) }
    ensures logs { IfOk result (λ shifts. HaveLogs (system_of (F.system setting.now))
        (map (λ shift. shift.desk) shifts.items)
        (map (λ shift. records shift.log.items) shifts.items)) }
    ensures assigned { IfOk result (λ shifts. (i : ℕ) → IfSome (slice_get shifts.items i)
        (λ shift. AreAssigned (N.post next_job.now shift.desk.number) shift.log.items)) }
    ensures stopped { IfOk result (λ shifts. (i : ℕ) → IfSome (slice_get shifts.items i)
        (λ shift. HasStopped (system_of (F.system setting.now)) (B.Answers back_off.now)
        (N.post next_job.now shift.desk.number) (vec_len shift.log) (vec_capacity shift.log)
        shift.desk.actor)) }
    ensures len { IfOk result (λ shifts. vec_len shifts ≡ vec_len desks) }
{
    do_all_in(rt, alloc, room, setting, desks, next_job, back_off)
}
