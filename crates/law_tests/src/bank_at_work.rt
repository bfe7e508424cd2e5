//! Desks of banks on threads, with each way to share locks and to tell turns. The rule that judges
//! their records is written anew here.

ghost use Rattle.std.specs.Prelude.{◌≡◌, ◌<◌, ◌≤◌, ◌^◌};
ghost use Rattle.bank.specs.System.{IsJob, bank};
ghost use Rattle.desks.specs.Views.{IsDeskOf};
ghost use Rattle.turns.specs.Sharings.{sharing_of};
ghost use Rattle.workers.specs.Workers.{IsLogOf};

use bank::{Job, Opening, Reply};
use bank_desks::BankJobs;
use bank_desks::shutting::shut_bank;
use desks::{Desk, JobRecord, Room, shut};
use std::alloc::{AllocError, Global};
use std::marker::Sync;
use std::process::Abort;
use std::test::Fail;
use std::thread::Threads;
use turns::{Clock, LockSharing};
use workers::{Pausing, Routine, Shift, at_once, last_desk, persist};

/// Sixteen accounts open.
const OPENING: Opening = Opening {
    shards: 4,
    balance: 1_000,
    sharing: LockSharing::Preferring,
    clock: Clock::Counted,
};

/// The number of jobs of each desk.
const ROUNDS: u64 = 2_000;

type BankRecord = JobRecord<Job, Reply>;

/// The job of a desk's round: all kinds of jobs on all accounts, some of which are refused.
fn job_of(opening: &Opening, desk: u32, round: u64) -> Job
    requires { opening.now.shards ≡ 4 }
    ensures { IsJob opening.now result }
{
    let from = (round % 16) as u32;
    let to = desk % 16;
    match round / 3 % 5 {
        0 => Job::Deposit(from, round % 500),
        1 => Job::Withdraw(to, round % 1_000),
        2 => Job::Transfer(from, to, round),
        3 => Job::Deposit(to, u64::MAX - 100),
        _ => Job::Balance(from),
    }
}

/// Does `ROUNDS` jobs at a desk.
fn serve(room: &Room<BankJobs>, opening: &Opening, mut shift: Shift<BankJobs>) -> Shift<BankJobs>
    requires shards { opening.now.shards ≡ 4 }
    requires desk { IsDeskOf shift.desk room.now opening.now }
    requires log { IsLogOf (bank opening.now) shift.desk shift.log.items }
    ensures desk { IsDeskOf result.desk room.now opening.now }
    ensures number { result.desk.number ≡ shift.desk.number }
    ensures log { IsLogOf (bank opening.now) result.desk result.log.items }
{
    for round in 0..ROUNDS {
        let job = job_of(opening, shift.desk.number(), round);
        shift.work(room, opening, round, job, &Pausing::SHORT);
    }
    shift
}

/// A worker's routine: `serve`.
#[derive(Drop)]
struct Serves<'a> {
    room: &'a Room<BankJobs>,
    opening: Opening,
    ghost shards: { opening.shards ≡ 4 },
}

impl Routine<Shift<BankJobs>> for Serves<'_> {
    ghost Begins = { λ serves shift. IsDeskOf shift.desk serves.room.now serves.opening
        × IsLogOf (bank serves.opening) shift.desk shift.log.items };

    ghost Ends = { λ serves shift after. IsDeskOf after.desk serves.room.now serves.opening
        × (after.desk.number ≡ shift.desk.number)
        × IsLogOf (bank serves.opening) after.desk after.log.items };

    fn run(&self, shift: Shift<BankJobs>) -> Shift<BankJobs>
        requires { IsDeskOf shift.desk self.now.room.now self.now.opening
            × IsLogOf (bank self.now.opening) shift.desk shift.log.items }
        ensures { IsDeskOf result.desk self.now.room.now self.now.opening
            × (result.desk.number ≡ shift.desk.number)
            × IsLogOf (bank self.now.opening) result.desk result.log.items }
    {
        serve(self.room, &self.opening, shift)
    }
}

/// Puts an amount into an account, if it has room.
fn put(balances: &mut [u64], account: u32, amount: u64) -> Reply {
    match balances.get_mut(account as usize) {
        Some(balance) if *balance <= u64::MAX - amount => {
            *balance += amount;
            Reply::Done
        }
        _ => Reply::Refused,
    }
}

/// Takes an amount out of an account, if it has so much.
fn take(balances: &mut [u64], account: u32, amount: u64) -> Reply {
    match balances.get_mut(account as usize) {
        Some(balance) if *balance >= amount => {
            *balance -= amount;
            Reply::Done
        }
        _ => Reply::Refused,
    }
}

/// Moves an amount, if the first account has so much, and the second has room as it was before.
fn transfer(balances: &mut [u64], from: u32, to: u32, amount: u64) -> Reply {
    let has_room = balances
        .get(to as usize)
        .is_some_and(|balance| *balance <= u64::MAX - amount);
    if !has_room || take(balances, from, amount) == Reply::Refused {
        return Reply::Refused;
    }
    put(balances, to, amount)
}

/// What a job replies on these balances, which it changes.
fn done(balances: &mut [u64], job: Job) -> Reply {
    match job {
        Job::Deposit(account, amount) => put(balances, account, amount),
        Job::Withdraw(account, amount) => take(balances, account, amount),
        Job::Transfer(from, to, amount) => transfer(balances, from, to, amount),
        Job::Balance(account) => match balances.get(account as usize) {
            Some(balance) => Reply::Has(*balance),
            None => Reply::Refused,
        },
    }
}

/// Whether these are the records of turns from 0 on, each with the reply of its job done alone on
/// the balances that those before it leave.
fn are_right(records: &mut [BankRecord], balances: &mut [u64]) -> bool {
    records.sort_unstable_by_key(|reported| reported.turn);
    for (turn, reported) in records.iter().enumerate() {
        if reported.turn != turn as u64 || reported.reply != done(balances, reported.job) {
            return false;
        }
    }
    true
}

/// The number of records with this reply.
fn count_of(records: &[BankRecord], reply: Reply) -> usize {
    records
        .iter()
        .filter(|reported| reported.reply == reply)
        .count()
}

/// By how much a job that was done changes the sum of all balances, modulo 2^64.
fn change_by(reported: &BankRecord) -> u64 {
    match (reported.reply, reported.job) {
        (Reply::Done, Job::Deposit(_, amount)) => amount,
        (Reply::Done, Job::Withdraw(_, amount)) => amount.wrapping_neg(),
        _ => 0,
    }
}

/// The sum of all balances, modulo 2^64.
fn sum(balances: &[u64]) -> u64 {
    balances
        .iter()
        .fold(0, |sum: u64, balance| sum.wrapping_add(*balance))
}

/// By how much the jobs changed the sum of all balances, modulo 2^64.
fn change(records: &[BankRecord]) -> u64 {
    records
        .iter()
        .fold(0, |sum: u64, record| sum.wrapping_add(change_by(record)))
}

/// The records of all desks of a bank at work, and the words that they left.
struct Outcome {
    records: Vec<BankRecord>,
    words: Vec<u64>,
}

/// Runs a bank of so many desks, each on a thread of its own, until their jobs are done.
fn run_bank<R: Threads + Sync>(
    rt: &R,
    alloc: Global,
    opening: Opening,
    count: u32,
) -> Result<Outcome, Fail>
    requires opening { (opening.shards ≡ 4) × (opening.balance < 2 ^ 64) }
    requires count { (0 < count) × (count ≤ (sharing_of opening.sharing).most) }
{
    let (room, desks) = Room::<BankJobs>::open(alloc, &opening, count)?;
    let serves = Serves {
        room: &room,
        opening,
    };
    let shifts = at_once(rt, alloc, &room, &opening, desks, &serves)?;
    let mut records = Vec::new(alloc);
    for shift in shifts.as_slice() {
        records.extend_from_slice(shift.log.as_slice())?;
    }
    match shut_bank(alloc, room, opening, shifts) {
        Ok(words) => Ok(Outcome { records, words }),
        Err(_) => Err("each job has ended".into()),
    }
}

#[test]
fn eight_desks_do_jobs_of_the_bank_on_threads(rt: HostRuntime) -> Result<(), Fail> {
    let alloc = rt.alloc();
    let Outcome { mut records, words } = run_bank(&rt, alloc, OPENING, 8)?;
    assert!(rt; records.len() == 16_000);
    assert!(rt; count_of(records.as_slice(), Reply::Done) > 4_000);
    assert!(rt; count_of(records.as_slice(), Reply::Refused) > 1_000);
    let mut balances: Vec<u64> = vec![in alloc; OPENING.balance; 16]?;
    assert!(rt; are_right(records.as_mut_slice(), balances.as_mut_slice()));
    assert!(rt; words.len() == 21);
    assert!(rt; &words.as_slice()[..16] == balances.as_slice());
    assert!(rt; words.as_slice()[16..] == [0, 0, 0, 0, 16_000]);
    Ok(())
}

#[test]
fn more_than_48_desks_share_plain_locks(rt: HostRuntime) -> Result<(), Fail> {
    let alloc = rt.alloc();
    let opening = Opening {
        sharing: LockSharing::Plain,
        ..OPENING
    };
    let Outcome { mut records, words } = run_bank(&rt, alloc, opening, 60)?;
    assert!(rt; records.len() == 120_000);
    let mut balances: Vec<u64> = vec![in alloc; opening.balance; 16]?;
    assert!(rt; are_right(records.as_mut_slice(), balances.as_mut_slice()));
    assert!(rt; words.len() == 21);
    assert!(rt; &words.as_slice()[..16] == balances.as_slice());
    assert!(rt; words.as_slice()[16..] == [0, 0, 0, 0, 120_000]);
    Ok(())
}

#[test]
fn desks_whose_turns_are_not_counted_keep_the_sum(rt: HostRuntime) -> Result<(), Fail> {
    let alloc = rt.alloc();
    for sharing in [LockSharing::Preferring, LockSharing::Plain] {
        let opening = Opening {
            sharing,
            clock: Clock::Ghost,
            ..OPENING
        };
        let Outcome { records, words } = run_bank(&rt, alloc, opening, 8)?;
        assert!(rt; records.len() == 16_000);
        assert!(rt; count_of(records.as_slice(), Reply::Refused) > 1_000);
        assert!(rt; words.len() == 21);
        let balances = &words.as_slice()[..16];
        assert_eq!(rt;
            sum(balances),
            change(records.as_slice()).wrapping_add(16_000)
        );
        assert!(rt; words.as_slice()[16..] == [0, 0, 0, 0, 0]);
    }
    Ok(())
}

/// Moves 5 from account 0 to the last one, and returns the words of the bank.
fn words_after_transfer(
    alloc: Global,
    room: Room<BankJobs>,
    opening: &Opening,
    mut desk: Desk<BankJobs>,
) -> Option<Vec<u64>>
    requires { IsDeskOf desk room opening.now }
{
    let last = u32::try_from(opening.account_count().checked_sub(1)?).ok()?;
    desk.assign(0, Job::Transfer(0, last, 5));
    let reported = persist(&room, opening, &mut desk, &Pausing::SHORT)?;
    if reported.reply != Reply::Done {
        return None;
    }
    shut::<BankJobs>(alloc, room, opening, desk).ok()
}

/// The words of a bank of so many shards, with 7 on each account, after a transfer of 5.
fn expected_words(alloc: Global, shards: u8, turns: u64) -> Result<Vec<u64>, AllocError> {
    let shards = usize::from(shards);
    let mut words = vec![in alloc; 2; 1]?;
    words.resize((4 * shards).saturating_sub(1), 7)?;
    words.push(12)?;
    words.resize(5 * shards, 0)?;
    words.push(turns)?;
    Ok(words)
}

/// Checks the words of a bank of so many shards after a transfer.
fn check_words(
    rt: &impl Abort,
    alloc: Global,
    shards: u8,
    sharing: LockSharing,
    clock: Clock,
) -> Result<(), Fail> {
    let opening = Opening {
        shards: u32::from(shards),
        balance: 7,
        sharing,
        clock,
    };
    let (room, mut desks) = Room::<BankJobs>::open(alloc, &opening, 1)?;
    let desk = last_desk(&room, &mut desks).ok_or("there is a desk")?;
    let words = words_after_transfer(alloc, room, &opening, desk).ok_or("the job ends")?;
    let turns = u64::from(clock == Clock::Counted);
    assert_eq!(rt; words, expected_words(alloc, shards, turns)?);
    Ok(())
}

#[test]
fn a_bank_has_the_shards_of_its_opening(rt: HostRuntime) -> Result<(), Fail> {
    let alloc = rt.alloc();
    for shards in [1_u8, 3, 64] {
        for sharing in [LockSharing::Preferring, LockSharing::Plain] {
            check_words(&rt, alloc, shards, sharing, Clock::Counted)?;
            check_words(&rt, alloc, shards, sharing, Clock::Ghost)?;
        }
    }
    Ok(())
}
