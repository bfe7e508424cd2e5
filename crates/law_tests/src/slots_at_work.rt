//! Desks of the slots: eight on threads, two that alternate, one that learns a note, one that is
//! lost during a job, and a room that is shut or stays open during one. The rule that judges their
//! records is written anew here.

ghost use Rattle.std.specs.Prelude.{◌≡◌, IfOk};
ghost use Rattle.desks.specs.Views.{IsDeskOf, new_desk};
ghost use Rattle.slots.specs.System.{slots};
ghost use Rattle.workers.specs.Workers.{IsLogOf};

use desks::{Room, meet, shut, shut_all};
use slot_desks::SlotJobs;
use slot_desks::driving::{Shift, SlotDesk, SlotRecord, SlotRoom, alternate};
use slot_desks::on_threads::{shut_shifts, take_and_give_at_once};
use slots::{Job, UpToTwo};
use std::alloc::Global;
use std::ops::Range;
use std::test::Fail;
use workers::{
    BackOff, Pausing, Routine, at_once, do_after, finish, last_desk, persist, put_desk,
    shut_if_idle,
};

/// Gives up after one try, in which the desk makes no step.
struct OneTry;

impl BackOff for OneTry {
    fn patience(&self, _desk: u32) -> u32 {
        0
    }

    fn try_again(&self, _made: u64, _denied: Option<usize>) -> bool {
        false
    }
}

/// Begins job 7, and gives up on it.
#[derive(Drop)]
struct GivesUp<'a> {
    room: &'a SlotRoom,
}

impl Routine<Shift> for GivesUp<'_> {
    ghost Begins = { λ routine shift. IsDeskOf shift.desk routine.room.now tt
        × IsLogOf slots shift.desk shift.log.items };

    ghost Ends = { λ routine shift after. IsDeskOf after.desk routine.room.now tt
        × (after.desk.number ≡ shift.desk.number) × IsLogOf slots after.desk after.log.items };

    fn run(&self, mut shift: Shift) -> Shift
        requires { IsDeskOf shift.desk self.now.room.now tt
            × IsLogOf slots shift.desk shift.log.items }
        ensures { IsDeskOf result.desk self.now.room.now tt
            × (result.desk.number ≡ shift.desk.number)
            × IsLogOf slots result.desk result.log.items }
    {
        let _ended = shift.work(self.room, &(), 7, Job::Take, &OneTry);
        shift
    }
}

/// The bit of a slot, or 0 if there is no slot of this number.
fn bit(slot: u32) -> u64 {
    1_u64.checked_shl(slot).unwrap_or(0)
}

fn lowest(busy: u64, mut slots: Range<u32>) -> Option<u32> {
    slots.find(|slot| busy & bit(*slot) == 0)
}

/// The slots that a job takes of 64, done alone, and the slots that are busy after it.
fn done(busy: u64, job: Job) -> (UpToTwo<u32>, u64) {
    match job {
        Job::Take => match lowest(busy, 0..64) {
            Some(slot) => (UpToTwo::One(slot), busy | bit(slot)),
            None => (UpToTwo::Empty, busy),
        },
        Job::TakeBoth => match (lowest(busy, 0..32), lowest(busy, 32..64)) {
            (Some(slot), Some(other)) => (UpToTwo::Two(slot, other), busy | bit(slot) | bit(other)),
            _ => (UpToTwo::Empty, busy),
        },
        Job::Give(slot) => (UpToTwo::Empty, busy & !bit(slot)),
    }
}

/// The busy slots after all records, if these have the turns from 0 on, and each has the reply of
/// its job done alone on the slots that the jobs before it leave. Otherwise None.
fn after_all(mut records: Vec<&SlotRecord>) -> Option<u64> {
    records
        .as_mut_slice()
        .sort_unstable_by_key(|reported| reported.turn);
    let mut busy = 0;
    for (turn, reported) in records.iter().enumerate() {
        let (want, after) = done(busy, reported.job);
        if reported.turn != turn as u64 || reported.reply.slots() != want {
            return None;
        }
        busy = after;
    }
    Some(busy)
}

/// Whether these are records of this actor, in the order of their turns.
fn is_log_of(actor: usize, log: &[SlotRecord]) -> bool {
    let mut next = 0;
    for reported in log {
        if reported.actor as usize != actor || reported.turn < next || reported.turn == u64::MAX {
            return false;
        }
        next = reported.turn + 1;
    }
    true
}

/// Whether a desk had each slot that it freed, and has one slot in the end.
fn keeps_one_slot(log: &[SlotRecord]) -> bool {
    let mut had = 0;
    for reported in log {
        match (reported.job, reported.reply.slots()) {
            (Job::Give(slot), _) => {
                if had & bit(slot) == 0 {
                    return false;
                }
                had &= !bit(slot);
            }
            (_, UpToTwo::Empty) => {}
            (_, UpToTwo::One(slot)) => had |= bit(slot),
            (_, UpToTwo::Two(slot, other)) => had |= bit(slot) | bit(other),
        }
    }
    had.count_ones() == 1
}

/// Whether the words of a room that was shut count this number of turns, show exactly these slots
/// as busy, and have no lock held or requested.
fn words_agree(words: &[u64], turns: usize, busy: Option<u64>) -> bool {
    words.len() == 5
        && words[2] == 0
        && words[3] == 0
        && words[4] == turns as u64
        && busy == Some(words[0] | words[1] << 32)
}

/// A room with its desks 0 and 1.
pub fn room_of_two(alloc: Global) -> Result<(SlotRoom, SlotDesk, SlotDesk), Fail>
    ensures count { IfOk result (λ opened. opened.0.count ≡ 2) }
    ensures zero { IfOk result (λ opened. opened.1 ≡ new_desk opened.0 0) }
    ensures one { IfOk result (λ opened. opened.2 ≡ new_desk opened.0 1) }
{
    let (room, mut desks) = Room::<SlotJobs>::open(alloc, &(), 2)?;
    let one = last_desk(&room, &mut desks).ok_or("there is a desk 1")?;
    let zero = last_desk(&room, &mut desks).ok_or("there is a desk 0")?;
    Ok((room, zero, one))
}

#[test]
fn eight_desks_take_and_give_slots_on_threads(rt: HostRuntime) -> Result<(), Fail> {
    let alloc = rt.alloc();
    let (room, desks) = Room::<SlotJobs>::open(alloc, &(), 8)?;
    let shifts = take_and_give_at_once(&rt, alloc, &room, desks, 1_000)?;
    for (number, shift) in shifts.iter().enumerate() {
        assert!(rt; is_log_of(number, shift.log.as_slice()));
        assert!(rt; keeps_one_slot(shift.log.as_slice()));
    }
    let logs = shifts.iter().flat_map(|shift| shift.log.iter());
    let records: Vec<&SlotRecord> = logs.collect(alloc)?;
    let turns = records.len();
    let busy = after_all(records);
    let Ok(words) = shut_shifts(alloc, room, shifts) else {
        return Err("each job has ended".into());
    };
    // A round of each desk takes a slot and frees it, or takes two slots and frees each.
    assert!(rt; turns >= 16_000);
    assert!(rt; busy.is_some_and(|slots| slots.count_ones() == 8));
    assert!(rt; words_agree(words.as_slice(), turns, busy));
    Ok(())
}

#[test]
fn two_desks_take_and_give_slots_in_turn(rt: HostRuntime) -> Result<(), Fail> {
    let alloc = rt.alloc();
    let (room, mut zero, mut one) = room_of_two(alloc)?;
    let mut log = Vec::new(alloc);
    alternate(&room, &mut zero, &mut one, 2_000, &mut log);
    meet(&room, &(), &mut zero, &mut one);
    if let Some(reported) = finish(&room, &(), &mut zero, 100) {
        log.push(reported)?;
    }
    zero.give_back(&room, &());
    one.give_back(&room, &());
    if let Some(reported) = finish(&room, &(), &mut one, 100) {
        log.push(reported)?;
    }
    assert!(rt; zero.is_idle() && one.is_idle());
    let mut all: Vec<SlotDesk> = Vec::with_capacity(alloc, 2)?;
    put_desk(&room, &(), &mut all, zero);
    put_desk(&room, &(), &mut all, one);
    let Ok(words) = shut_all::<SlotJobs>(alloc, room, &(), all) else {
        return Err("there is memory for five words".into());
    };
    assert!(rt; log.len() > 100);
    let busy = after_all(log.iter().collect(alloc)?);
    assert!(rt; words_agree(words.as_slice(), log.len(), busy));
    Ok(())
}

#[test]
fn a_job_comes_after_those_of_a_note(rt: HostRuntime) -> Result<(), Fail> {
    let (room, mut zero, mut one) = room_of_two(rt.alloc())?;
    assert!(rt; one.assign(5, Job::Take));
    let first = persist(&room, &(), &mut one, &Pausing::SHORT).ok_or("the first job ends")?;
    let mut note = one.note(&room);
    let copy = note.copy(&room);
    drop(note);
    let then = do_after(&room, &(), &mut zero, copy, 6, Job::Take, &Pausing::SHORT).ok_or(
        "the second job ends",
    )?;
    assert!(rt; first.turn == 0 && first.actor == 1 && first.number == 5);
    assert!(rt; first.reply.slots() == UpToTwo::One(0));
    assert!(rt; then.turn == 1 && then.actor == 0 && then.number == 6);
    assert!(rt; then.reply.slots() == UpToTwo::One(1));
    Ok(())
}

#[test]
fn a_room_is_shut_during_a_job(rt: HostRuntime) -> Result<(), Fail> {
    let (room, zero, mut one) = room_of_two(rt.alloc())?;
    assert!(rt; one.assign(0, Job::Take));
    // Seize the bank's lock, test its word, turn, mark a slot; the lock is still held.
    assert!(rt; finish(&room, &(), &mut one, 4).is_none());
    let Ok(words) = shut::<SlotJobs>(rt.alloc(), room, &(), zero) else {
        return Err("there is memory for five words".into());
    };
    assert!(rt; words.as_slice() == [1, 0, 2, 0, 1].as_slice());
    Ok(())
}

#[test]
fn a_room_stays_open_during_a_job(rt: HostRuntime) -> Result<(), Fail> {
    let alloc = rt.alloc();
    let (room, desks) = Room::<SlotJobs>::open(alloc, &(), 2)?;
    let shifts = at_once(&rt, alloc, &room, &(), desks, &GivesUp { room: &room })?;
    let Err(back) = shut_if_idle(alloc, room, &(), shifts) else {
        return Err("no job has ended".into());
    };
    assert!(rt; !back.were_idle);
    assert!(rt; back.shifts.len() == 2);
    assert!(rt; back.shifts.iter().all(|shift| shift.last().is_none()));
    Ok(())
}

#[test]
fn a_shift_goes_on_with_its_job(rt: HostRuntime) -> Result<(), Fail> {
    let alloc = rt.alloc();
    let (room, zero, _one) = room_of_two(alloc)?;
    let mut shift = Shift::new(alloc, zero);
    assert!(rt; !shift.work(&room, &(), 7, Job::Take, &OneTry));
    assert!(rt; !shift.work(&room, &(), 8, Job::Take, &Pausing::SHORT));
    assert!(rt; shift.last().is_none());
    assert!(rt; shift.go_on(&room, &(), &Pausing::SHORT));
    assert!(rt;
        shift
            .last()
            .is_some_and(|reported| reported.number == 7 && reported.turn == 0)
    );
    assert!(rt; !shift.go_on(&room, &(), &Pausing::SHORT));
    assert!(rt; shift.log.len() == 1);
    Ok(())
}

#[test]
fn a_lost_desk_keeps_its_lock(rt: HostRuntime) -> Result<(), Fail> {
    let (room, mut zero, mut one) = room_of_two(rt.alloc())?;
    assert_eq!(rt; zero.holder(&room, &(), &0), None);
    assert!(rt; one.assign(0, Job::Take));
    // Seize the lock of bank 0.
    assert!(rt; finish(&room, &(), &mut one, 1).is_none());
    assert_eq!(rt; one.holder(&room, &(), &0), Some(1));
    drop(one);
    assert!(rt; zero.assign(1, Job::Take));
    assert!(rt; finish(&room, &(), &mut zero, 100).is_none());
    assert_eq!(rt; zero.holder(&room, &(), &0), Some(1));
    assert_eq!(rt; zero.holder(&room, &(), &1), None);
    Ok(())
}
