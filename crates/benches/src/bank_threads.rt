//! Threads that make transfers: at desks of the bank, and for comparison behind one lock around all
//! accounts, and behind a lock around each shard's.

ghost use Rattle.std.specs.Prelude.{◌≡◌, ◌<◌, ◌≤◌, ◌^◌};
ghost use Rattle.desks.specs.Views.{IsDeskOf};

mod ledgers;
mod traffic;
mod with_work;

use crate::timing::{nanoseconds_each, sum};
use bank::{Job, Opening};
use desks::{Desk, Room, shut};
use ledgers::{Ledger, Shards};
use std::alloc::Global;
use std::rt::Clock;
use std::sync::{Mutex, Wait};
use std::thread::Threads;
use std::time::Instant;
use std::{io, thread};
use traffic::{Chooser, Traffic};
use turns::LockSharing;
use with_work::{BankWithWork, JobsWithWork, work};
use workers::{Pausing, last_desk, persist};

/// Transfers on threads.
#[derive(Clone, Copy)]
struct Workload {
    shards: u8,
    /// How many rounds of work a transfer does.
    rounds: u32,
    traffic: Traffic,
    /// How a desk waits that was denied a lock.
    waits: Pausing,
    threads: u8,
    /// The number of transfers of each thread.
    jobs: u32,
}

impl Workload {
    /// Transfers between the sixteen accounts of four shards, at random.
    fn mixed(threads: u8, jobs: u32) -> Workload {
        Workload {
            shards: 4,
            rounds: 0,
            traffic: Traffic::Mixed,
            waits: Pausing::LONG,
            threads,
            jobs,
        }
    }

    /// Transfers in shards of each thread's own, and so many of a hundred at shard 0.
    fn apart(shards: u8, hot: u32, rounds: u32, threads: u8) -> Workload {
        Workload {
            shards,
            rounds,
            traffic: Traffic::Apart { hot },
            waits: Pausing::SHORT,
            threads,
            jobs: if rounds == 0 { 600_000 } else { 60_000 },
        }
    }

    /// The bank, whose accounts have enough for long.
    fn bank(&self, sharing: LockSharing, clock: turns::Clock) -> BankWithWork
        ensures balance { result.opening.balance < 2 ^ 64 }
        ensures sharing { result.opening.sharing ≡ sharing }
    {
        BankWithWork {
            opening: Opening {
                shards: u32::from(self.shards),
                balance: 1_000_000,
                sharing,
                clock,
            },
            rounds: self.rounds,
        }
    }
}

/// What a workload came to: how many transfers were done, and the sum of all balances after them.
#[derive(Clone, Copy, Default)]
struct Total {
    jobs: u64,
    sum: u64,
}

/// Makes transfers. Each thread has a clerk of its own.
trait Clerk {
    /// Does the work of a job, and moves 1 between accounts of two shards. None if the job has not
    /// ended.
    fn transfer(&mut self, number: u64, from: u32, to: u32) -> Option<()>;
}

/// Has a clerk make its thread's transfers. Returns the number of those that ended.
fn serve(clerk: &mut impl Clerk, workload: &Workload, thread: u8) -> u64 {
    let mut chooser = Chooser::new(workload.traffic, workload.shards, workload.threads, thread);
    for number in 0..u64::from(workload.jobs) {
        let (from, to) = chooser.choose();
        if clerk.transfer(number, from, to).is_none() {
            return number;
        }
    }
    u64::from(workload.jobs)
}

/// A clerk with a desk of the bank.
#[derive(Drop)]
struct AtDesk<'a> {
    room: &'a Room<JobsWithWork>,
    bank: BankWithWork,
    desk: Desk<JobsWithWork>,
    waits: Pausing,
    ghost theirs: { IsDeskOf desk room.now bank },
}

impl Clerk for AtDesk<'_> {
    fn transfer(&mut self, number: u64, from: u32, to: u32) -> Option<()> {
        let count = self.bank.opening.account_count();
        if from as usize >= count || to as usize >= count {
            return None;
        }
        self.desk.assign(number, Job::Transfer(from, to, 1));
        let _reported = persist(self.room, &self.bank, &mut self.desk, &self.waits)?;
        Some(())
    }
}

/// A clerk that shares all accounts behind one lock.
impl<R: Wait> Clerk for (&R, &Mutex<Ledger>) {
    fn transfer(&mut self, _number: u64, from: u32, to: u32) -> Option<()> {
        let (rt, ledger) = *self;
        ledger.lock(rt).transfer(from, to)
    }
}

/// A clerk that shares the shards, each behind a lock of its own.
impl<R: Wait> Clerk for (&R, &Shards) {
    fn transfer(&mut self, _number: u64, from: u32, to: u32) -> Option<()> {
        let (rt, shards) = *self;
        shards.transfer(rt, from, to)
    }
}

/// Makes a workload's transfers at desks. There is one desk more, by which the room is shut.
fn at_desks<R: Threads + Sync>(
    rt: &R,
    alloc: Global,
    workload: &Workload,
    sharing: LockSharing,
    clock: turns::Clock,
) -> io::Result<Total> {
    let bank = workload.bank(sharing, clock);
    let count = u32::from(workload.threads.min(8)) + 1;
    let (room, mut desks) = Room::<JobsWithWork>::open(alloc, &bank, count)?;
    let Some(last) = last_desk(&room, &mut desks) else {
        return Ok(Total::default());
    };
    let done = thread::map_vec(
        rt,
        desks,
        &|desk: Desk<JobsWithWork>| -> u64
            requires { IsDeskOf desk room bank }
        {
            let thread = (desk.number() % 256) as u8;
            let mut clerk = AtDesk {
                room: &room,
                bank,
                desk,
                waits: workload.waits,
            };
            serve(&mut clerk, workload, thread)
        },
    )?;
    let jobs = sum(&done);
    let Ok(mut words) = shut::<JobsWithWork>(alloc, room, &bank, last) else {
        return Ok(Total { jobs, sum: 0 });
    };
    words.truncate(bank.opening.account_count());
    Ok(Total {
        jobs,
        sum: sum(&words),
    })
}

/// Makes a workload's transfers behind one lock.
fn behind_lock<R: Threads + Wait + Sync>(
    rt: &R,
    alloc: Global,
    workload: &Workload,
) -> io::Result<Total> {
    let bank = workload.bank(LockSharing::Plain, turns::Clock::Ghost);
    let ledger = Mutex::new(Ledger::open(alloc, &bank)?);
    let done = thread::map_indices(
        rt,
        alloc,
        workload.threads as usize,
        &|thread: usize| -> u64 { serve(&mut (rt, &ledger), workload, thread as u8) },
    )?;
    Ok(Total {
        jobs: sum(&done),
        sum: ledger.lock(rt).sum(),
    })
}

/// Makes a workload's transfers behind a lock for each shard.
fn behind_locks<R: Threads + Wait + Sync>(
    rt: &R,
    alloc: Global,
    workload: &Workload,
) -> io::Result<Total> {
    let bank = workload.bank(LockSharing::Plain, turns::Clock::Ghost);
    let shards = Shards::open(alloc, &bank)?;
    let done = thread::map_indices(
        rt,
        alloc,
        workload.threads as usize,
        &|thread: usize| -> u64 { serve(&mut (rt, &shards), workload, thread as u8) },
    )?;
    Ok(Total {
        jobs: sum(&done),
        sum: shards.sum(rt),
    })
}

/// How a workload's transfers are made.
#[derive(Clone, Copy)]
enum Way {
    /// At desks that seize locks at once, and don't count turns.
    Desks,
    /// At desks that request locks first, and count turns.
    CountingDesks,
    OneLock,
    LockForEachShard,
}

impl Way {
    const ALL: [Way; 4] = [
        Way::Desks,
        Way::CountingDesks,
        Way::OneLock,
        Way::LockForEachShard,
    ];

    fn name(self) -> &'static str {
        match self {
            Way::Desks => "desks",
            Way::CountingDesks => "desks that count turns",
            Way::OneLock => "one lock",
            Way::LockForEachShard => "a lock for each shard",
        }
    }

    /// Makes a workload's transfers.
    fn work<R: Threads + Wait + Sync>(
        self,
        rt: &R,
        alloc: Global,
        workload: &Workload,
    ) -> io::Result<Total> {
        match self {
            Way::Desks => at_desks(rt, alloc, workload, LockSharing::Plain, turns::Clock::Ghost),
            Way::CountingDesks => at_desks(
                rt,
                alloc,
                workload,
                LockSharing::Preferring,
                turns::Clock::Counted,
            ),
            Way::OneLock => behind_lock(rt, alloc, workload),
            Way::LockForEachShard => behind_locks(rt, alloc, workload),
        }
    }
}

/// Has two threads make 1,000 transfers each between the accounts of four shards, in each way, and
/// prints how many were made, and the sum of all balances, which they leave as it was.
pub fn print_sums<R: Print + Threads + Wait + Sync>(rt: &R, alloc: Global) -> io::Result<()> {
    for way in Way::ALL {
        let total = way.work(rt, alloc, &Workload::mixed(2, 1000))?;
        println!(rt;
            "{}: {} transfers, sum {}",
            way.name(),
            total.jobs,
            total.sum
        )?;
    }
    Ok(())
}

/// How often a workload is measured in each way, the ways in turn.
const ROUNDS: usize = 5;

/// Measures a workload in each way, and prints the medians of the nanoseconds that pass for a job.
fn measure_ways<R: Eprint + Clock + Threads + Wait + Sync>(
    rt: &R,
    alloc: Global,
    workload: &Workload,
) -> io::Result<()> {
    let mut times = [[0; ROUNDS]; 4];
    for round in 0..ROUNDS {
        for (times, way) in times.iter_mut().zip(Way::ALL) {
            let start = Instant::now(rt)?;
            let total = way.work(rt, alloc, workload)?;
            times[round] = nanoseconds_each(start.elapsed(rt)?, 1, total.jobs);
        }
    }
    for (times, way) in times.iter_mut().zip(Way::ALL) {
        times.sort_unstable();
        eprint!(rt; " {} {}", way.name(), times[ROUNDS / 2])?;
    }
    eprintln!(rt; "")
}

/// Measures transfers between the sixteen accounts of four shards, 1000 * `thousands` by each
/// thread, and prints the times.
pub fn measure<R: Eprint + Clock + Threads + Wait + Sync>(
    rt: &R,
    alloc: Global,
    thousands: u32,
) -> io::Result<()>
    requires { thousands ≤ 100000 }
{
    for threads in [1, 2, 4] {
        eprint!(rt; "{threads} threads, ns a job:")?;
        measure_ways(rt, alloc, &Workload::mixed(threads, thousands * 1000))?;
    }
    Ok(())
}

/// The number of rounds of work that take a microsecond.
fn rounds_in_microsecond<R: Clock>(rt: &R) -> io::Result<u32> {
    const TRIED: u32 = 1_000_000;
    let start = Instant::now(rt)?;
    // One more or not by what the work made, so that no compiler leaves the work out.
    let tried = u64::from(TRIED) + work(TRIED, 1) % 2;
    let rounds = u128::from(tried) * 1000 / start.elapsed(rt)?.as_nanos().max(1);
    Ok(u32::try_from(rounds).unwrap_or(u32::MAX))
}

/// Measures transfers between two shards of so many, with and without work under their locks and
/// with more and less of them at shard 0, and prints the times.
pub fn measure_groups<R: Eprint + Clock + Threads + Wait + Sync>(
    rt: &R,
    alloc: Global,
    shards: u8,
) -> io::Result<()> {
    let microsecond = rounds_in_microsecond(rt)?;
    for (time, rounds) in [(0, 0), (1, microsecond)] {
        for hot in [0, 10, 50] {
            for threads in [1, 2, 4] {
                let workload = Workload::apart(shards, hot, rounds, threads);
                eprint!(rt; "{time} us of work, {hot} % at shard 0, {threads} threads, ns a job:")?;
                measure_ways(rt, alloc, &workload)?;
            }
        }
    }
    Ok(())
}
