//! A desk at work, with a log of its records.

ghost use Rattle.std.specs.Prelude.{◌≡◌, ◌<◌, ◌+◌, ℕ, [], IfNone, IfSome, MatchOption, Some, false, true, vec_capacity, vec_len};
ghost use Rattle.desks.specs.Met.{AreIdle, IsIdleDesk};
ghost use Rattle.desks.specs.Parts.{Begins};
ghost use Rattle.desks.specs.Reports.{job_of};
ghost use Rattle.desks.specs.Views.{IsDeskOf, new_desk};
ghost use Rattle.turns.specs.System.{system_of};
ghost use Rattle.workers.specs.Tries.{HasDone, HasLogged, HasPersisted};
ghost use Rattle.workers.specs.Workers.{AreNewDesks, HasLast, IsLogOf, LogsOne};

use crate::back_off::BackOff;
use crate::driving::persist;
use desks::{Desk, JobRecord, Jobs, Room, laws};
use std::alloc::Global;

/// A desk at work, and a log of all records that it has reported.
#[derive(Drop)]
pub struct Shift<F: Jobs> {
    pub desk: Desk<F>,
    pub log: Vec<JobRecord<F::Job, F::Reply>>,
}

impl<F: Jobs> Shift<F> {
    /// A shift with an empty log.
    pub fn new(alloc: Global, desk: Desk<F>) -> Shift<F>
        ensures desk { result.desk ≡ desk }
        ensures log { result.log.items ≡ [] }
    {
        Shift {
            desk,
            log: Vec::new(alloc),
        }
    }

    /// Brings the job under way to its end, and logs its record as the last. Returns false if the
    /// log has no room, there is no such job, or the policy gives up.
    pub fn go_on<B: BackOff>(&mut self, room: &Room<F>, setting: &F::Setting, back_off: &B) -> bool
        requires desk { IsDeskOf self.old.desk room.now setting.now }
        requires log { IsLogOf (system_of (F.system setting.now)) self.old.desk
            self.old.log.items }
        ensures desk { IsDeskOf self.new.desk room.now setting.now }
        ensures number { self.new.desk.number ≡ self.old.desk.number }
        ensures log { IsLogOf (system_of (F.system setting.now)) self.new.desk self.new.log.items }
        ensures seen { Begins self.old.desk.seen self.new.desk.seen }
        ensures done { result ≡ true → (number : ℕ) (job : F.Job)
            → job_of (system_of (F.system setting.now)) self.old.desk.actor ≡ Some (number, job)
            → LogsOne self.old.log.items self.new.log.items number job }
        ensures none { result ≡ false → self.new.log.items ≡ self.old.log.items }
        ensures logged { HasLogged (system_of (F.system setting.now))
            (HasPersisted (system_of (F.system setting.now)) (B.Answers back_off.now)
            (B.Patience back_off.now) self.old.desk self.new.desk)
            ((vec_len self.old.log ≡ vec_capacity self.old.log)
            × (vec_capacity self.new.log ≡ vec_capacity self.old.log)
            × (self.new.desk ≡ self.old.desk))
            self.old.log.items self.new.log.items result }
    {
        laws::desks_report_their_records::<F>();
        // The job goes on only if its record has room.
        if self.log.reserve(1).is_err() {
            return false;
        }
        let Some(reported) = persist(room, setting, &mut self.desk, back_off) else {
            return false;
        };
        self.log.push_reserved(reported);
        true
    }

    /// Does one job and logs its record, as the last. Returns false if the log has no room, the
    /// desk is at another job, or the policy gives up.
    pub fn work<B: BackOff>(
        &mut self,
        room: &Room<F>,
        setting: &F::Setting,
        number: u64,
        job: F::Job,
        back_off: &B,
    ) -> bool
        requires desk { IsDeskOf self.old.desk room.now setting.now }
        requires job { (F.system setting.now).IsJob job }
        requires log { IsLogOf (system_of (F.system setting.now)) self.old.desk
            self.old.log.items }
        ensures desk { IsDeskOf self.new.desk room.now setting.now }
        ensures number { self.new.desk.number ≡ self.old.desk.number }
        ensures log { IsLogOf (system_of (F.system setting.now)) self.new.desk self.new.log.items }
        ensures seen { Begins self.old.desk.seen self.new.desk.seen }
        ensures done { result ≡ true →
            LogsOne self.old.log.items self.new.log.items number job }
        ensures none { result ≡ false → self.new.log.items ≡ self.old.log.items }
        ensures logged { HasLogged (system_of (F.system setting.now))
            (HasDone (system_of (F.system setting.now)) (B.Answers back_off.now)
            (B.Patience back_off.now) self.old.desk self.new.desk number job)
            ((vec_len self.old.log ≡ vec_capacity self.old.log)
            × (vec_capacity self.new.log ≡ vec_capacity self.old.log)
            × (self.new.desk ≡ self.old.desk))
            self.old.log.items self.new.log.items result }
    {
        laws::desks_report_their_records::<F>();
        laws::reports_are_of_assigned_jobs::<F>();
        // A job is begun only if its record has room.
        if self.log.reserve(1).is_err() {
            return false;
        }
        if !self.desk.assign(number, job) {
            return false;
        }
        self.go_on(room, setting, back_off)
    }

    /// The record that was logged last.
    pub fn last(&self) -> Option<&JobRecord<F::Job, F::Reply>>
        ensures { MatchOption result (self.now.log.items ≡ [])
            (λ reported. HasLast self.now.log.items reported.now) }
    {
        self.log.as_slice().last()
    }
}

/// Takes the last desk out of those that a room opened with, at the index of its number. None if
/// there are none.
pub fn last_desk<F: Jobs>(_room: &Room<F>, desks: &mut Vec<Desk<F>>) -> Option<Desk<F>>
    requires { AreNewDesks _room.now desks.old.items }
    ensures rest { AreNewDesks _room.now desks.new.items }
    ensures desk { IfSome result (λ desk. desk ≡ new_desk _room.now (vec_len desks.new)) }
    ensures len { IfSome result (λ desk. vec_len desks.old ≡ vec_len desks.new + 1) }
    ensures none { IfNone result (vec_len desks.old ≡ 0) }
{
    desks.pop()
}

/// Appends an idle desk, whose number is its index, to those with which a room is to be shut.
pub fn put_desk<F: Jobs>(
    _room: &Room<F>,
    _setting: &F::Setting,
    desks: &mut Vec<Desk<F>>,
    desk: Desk<F>,
)
    requires desks { AreIdle (system_of (F.system _setting.now)) _room.now.table _setting.now
        desks.old.items }
    requires desk { IsIdleDesk (system_of (F.system _setting.now)) _room.now.table _setting.now
        (vec_len desks.old) desk }
    requires room { vec_len desks.old < vec_capacity desks.old }
    ensures desks { AreIdle (system_of (F.system _setting.now)) _room.now.table _setting.now
        desks.new.items }
    ensures len { vec_len desks.new ≡ vec_len desks.old + 1 }
    ensures capacity { vec_capacity desks.new ≡ vec_capacity desks.old }
{
    desks.push_reserved(desk);
}
