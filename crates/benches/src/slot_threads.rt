//! Threads that take slots and free them: at desks of the slots, and for comparison behind one lock
//! around both banks, and behind a lock around each.

ghost use Rattle.std.specs.Prelude.{◌≤◌};
ghost use Rattle.desks.specs.Views.{IsDeskOf};
ghost use Rattle.slots.specs.System.{IsJob};

mod banks;

use crate::timing::{nanoseconds_each, sum};
use banks::{Banks, LockedBanks};
use desks::Room;
use slot_desks::SlotJobs;
use slot_desks::driving::{SlotDesk, SlotRoom};
use slots::bank::SLOT_COUNT;
use slots::{Job, UpToTwo};
use std::alloc::Global;
use std::rt::Clock;
use std::sync::{Mutex, Wait};
use std::thread::Threads;
use std::time::Instant;
use std::{io, thread};
use workers::{Pausing, persist};

/// A worker that does jobs of the slots.
trait Clerk {
    /// Does a job, and returns the slots that it took. None if the job has not ended.
    fn do_job(&mut self, number: u64, job: Job) -> Option<UpToTwo<u32>>
        requires { IsJob job };
}

/// The next job of a clerk: to free a slot that it has, if there is one, and otherwise to take one
/// slot, or one of each bank.
fn next_job(held: UpToTwo<u32>, takes_both: bool) -> Job
    ensures { IsJob result }
{
    match held {
        UpToTwo::One(slot) | UpToTwo::Two(slot, _) if slot < SLOT_COUNT => Job::Give(slot),
        _ if takes_both => Job::TakeBoth,
        _ => Job::Take,
    }
}

/// Has the clerk do `jobs` jobs: it takes one slot, or the next time one of each bank, frees what
/// it took, and so on. Returns the number of jobs done.
fn work(clerk: &mut impl Clerk, jobs: u32) -> u64 {
    let mut held = UpToTwo::Empty;
    let mut takes_both = false;
    for number in 0..u64::from(jobs) {
        let Some(taken) = clerk.do_job(number, next_job(held, takes_both)) else {
            return number;
        };
        held = match held {
            UpToTwo::Empty => {
                takes_both = !takes_both;
                taken
            }
            UpToTwo::One(_) => UpToTwo::Empty,
            UpToTwo::Two(_, other) => UpToTwo::One(other),
        };
    }
    u64::from(jobs)
}

/// A clerk with a desk of the slots.
#[derive(Drop)]
struct AtDesk<'a> {
    room: &'a SlotRoom,
    desk: SlotDesk,
    ghost theirs: { IsDeskOf desk room.now tt },
}

impl Clerk for AtDesk<'_> {
    fn do_job(&mut self, number: u64, job: Job) -> Option<UpToTwo<u32>> {
        self.desk.assign(number, job);
        let told = persist(self.room, &(), &mut self.desk, &Pausing::LONG)?;
        Some(told.reply.slots())
    }
}

/// A clerk that shares the banks behind a lock.
impl<R: Wait> Clerk for (&R, &Mutex<Banks>) {
    fn do_job(&mut self, _number: u64, job: Job) -> Option<UpToTwo<u32>> {
        let (rt, banks) = *self;
        Some(banks.lock(rt).do_job(job))
    }
}

/// A clerk that shares the banks, each behind a lock of its own.
impl<R: Wait> Clerk for (&R, &LockedBanks) {
    fn do_job(&mut self, _number: u64, job: Job) -> Option<UpToTwo<u32>> {
        let (rt, banks) = *self;
        Some(banks.do_job(rt, job))
    }
}

/// Has `count` desks do `jobs` jobs each, on threads of their own. Returns the number of jobs
/// done.
fn at_desks<R: Threads + Sync>(rt: &R, alloc: Global, count: u32, jobs: u32) -> io::Result<u64>
    requires { count ≤ 8 }
{
    let (room, desks) = Room::<SlotJobs>::open(alloc, &(), count)?;
    let done = thread::map_vec(
        rt,
        desks,
        &|desk: SlotDesk| -> u64
            requires { IsDeskOf desk room tt }
        {
            let room = &room;
            work(&mut AtDesk { room, desk }, jobs)
        },
    )?;
    Ok(sum(&done))
}

/// Has `count` threads do `jobs` jobs each, under one lock. Returns the number of jobs done.
fn behind_lock<R: Threads + Wait + Sync>(
    rt: &R,
    alloc: Global,
    count: u32,
    jobs: u32,
) -> io::Result<u64> {
    let banks = Mutex::new(Banks::default());
    let done = thread::map_indices(
        rt,
        alloc,
        count as usize,
        &|_| -> u64 { work(&mut (rt, &banks), jobs) },
    )?;
    Ok(sum(&done))
}

/// Has `count` threads do `jobs` jobs each, under a lock for each bank. Returns the number of jobs
/// done.
fn behind_locks<R: Threads + Wait + Sync>(
    rt: &R,
    alloc: Global,
    count: u32,
    jobs: u32,
) -> io::Result<u64> {
    let banks = LockedBanks::default();
    let done = thread::map_indices(
        rt,
        alloc,
        count as usize,
        &|_| -> u64 { work(&mut (rt, &banks), jobs) },
    )?;
    Ok(sum(&done))
}

/// Measures all three, with 1000 * `thousands` jobs for each thread, and prints the times.
pub fn measure<R: Eprint + Clock + Threads + Wait + Sync>(
    rt: &R,
    alloc: Global,
    thousands: u32,
) -> io::Result<()>
    requires { thousands ≤ 100000 }
{
    let jobs = thousands * 1000;
    for count in [1_u32, 2, 4, 8] {
        let start = Instant::now(rt)?;
        let done = at_desks(rt, alloc, count, jobs)?;
        let job = nanoseconds_each(start.elapsed(rt)?, 1, done);
        eprintln!(rt; "{count} desks: {job} ns a job of {done}")?;
        let start = Instant::now(rt)?;
        let done = behind_lock(rt, alloc, count, jobs)?;
        let job = nanoseconds_each(start.elapsed(rt)?, 1, done);
        eprintln!(rt; "{count} threads behind one lock: {job} ns a job of {done}")?;
        let start = Instant::now(rt)?;
        let done = behind_locks(rt, alloc, count, jobs)?;
        let job = nanoseconds_each(start.elapsed(rt)?, 1, done);
        eprintln!(rt; "{count} threads, a lock for each bank: {job} ns a job of {done}")?;
    }
    Ok(())
}
