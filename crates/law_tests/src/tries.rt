//! A desk's steps, and a worker's tries at a job, as another desk of the room sees them.

ghost use Rattle.std.specs.Prelude.{◌≡◌, ◌<◌, nat_lt};
ghost use Rattle.desks.specs.Views.{IsDeskOf};

use crate::slots_at_work::room_of_two;
use desks::{Room, Watch};
use slot_desks::SlotJobs;
use slot_desks::driving::{Shift, SlotDesk, SlotRoom, take_and_give};
use slots::Job;
use std::alloc::Global;
use std::cell::RefCell;
use std::marker::Model;
use std::process::Abort;
use std::test::Fail;
use workers::{BackOff, Pausing, do_after, do_all, finish, persist};

/// The holders of the banks' locks, and how many tries had been made when they were seen.
#[derive(Clone, Copy, Debug, PartialEq, Eq)]
struct Sight {
    made: u64,
    lower: Option<u32>,
    upper: Option<u32>,
}

/// A desk that looks who holds the locks while another desk works, and notes what it sees.
#[derive(Drop)]
struct Onlooker<'a> {
    room: &'a SlotRoom,
    desk: SlotDesk,
    sights: Vec<Sight>,
}

impl<'a> Model for Onlooker<'a> {
    ghost use Rattle.desks.specs.Views.{IsDeskOf, RoomView};

    ghost Value = { RoomView (Unit {0}) };

    ghost view = { λ onlooker. onlooker.room.now };

    ghost invariant = { λ onlooker. IsDeskOf onlooker.desk onlooker.room.now tt };
}

impl Onlooker<'_> {
    fn look(&mut self, made: u64) {
        let lower = self.desk.holder(self.room, &(), &0);
        let upper = self.desk.holder(self.room, &(), &1);
        let sight = Sight { made, lower, upper };
        // Without memory a sight is missing, and the test fails.
        if self.sights.push(sight).is_err() {
            return;
        }
    }
}

impl Watch for Onlooker<'_> {
    fn before_step(&mut self) {
        self.look(0);
    }
}

/// Looks who holds the locks after each try, and gives up after `most` tries, in each of which the
/// desk goes on `patience` times.
#[derive(Drop)]
struct Looking<'a> {
    onlooker: RefCell<Onlooker<'a>>,
    patience: u32,
    most: u64,
}

impl BackOff for Looking<'_> {
    ghost Answers = { λ policy made _ again. again ≡ nat_lt made policy.most };

    fn patience(&self, _desk: u32) -> u32 {
        self.patience
    }

    fn try_again(&self, made: u64, _denied: Option<usize>) -> bool
        ensures { result ≡ nat_lt made self.now.most }
    {
        if let Ok(mut onlooker) = self.onlooker.try_borrow_mut() {
            onlooker.look(made);
        }
        made < self.most
    }
}

impl<'a> Looking<'a> {
    fn new(room: &'a SlotRoom, desk: SlotDesk, sights: Vec<Sight>, patience: u32, most: u64) -> Self
        requires { IsDeskOf desk room.now tt }
    {
        Looking {
            onlooker: RefCell::new(Onlooker { room, desk, sights }),
            patience,
            most,
        }
    }

    /// Whether the policy was told of 1, 2, 3 and so on up to this number of tries, and no lock was
    /// held at any of these times.
    fn has_seen_free_locks(&self, tries: usize) -> bool {
        let Ok(onlooker) = self.onlooker.try_borrow() else {
            return false;
        };
        for (sight, made) in onlooker.sights.iter().zip(1..u64::MAX) {
            if sight.made != made || sight.lower.is_some() || sight.upper.is_some() {
                return false;
            }
        }
        onlooker.sights.len() == tries
    }
}

/// Gives up after four tries, in none of which the desk makes a step.
struct FourTries;

impl BackOff for FourTries {
    ghost Answers = { λ _ made _ again. again ≡ nat_lt made 4 };

    fn patience(&self, _desk: u32) -> u32 {
        0
    }

    fn try_again(&self, made: u64, _denied: Option<usize>) -> bool
        ensures { result ≡ nat_lt made 4 }
    {
        made < 4
    }
}

/// Notes which lock each try was denied, and gives up after `most` tries, in each of which the desk
/// goes on `patience` times.
#[derive(Drop)]
struct Noting {
    denials: RefCell<Vec<Option<usize>>>,
    patience: u32,
    most: u64,
}

impl BackOff for Noting {
    ghost Answers = { λ policy made _ again. again ≡ nat_lt made policy.most };

    fn patience(&self, _desk: u32) -> u32 {
        self.patience
    }

    fn try_again(&self, made: u64, denied: Option<usize>) -> bool
        ensures { result ≡ nat_lt made self.now.most }
    {
        if let Ok(mut denials) = self.denials.try_borrow_mut() {
            // Without memory a denial is missing, and the test fails.
            let _noted = denials.push(denied);
        }
        made < self.most
    }
}

impl Noting {
    fn new(alloc: Global, patience: u32, most: u64) -> Self {
        Noting {
            denials: RefCell::new(Vec::new(alloc)),
            patience,
            most,
        }
    }

    fn was_told(&self, denials: &[Option<usize>]) -> bool {
        match self.denials.try_borrow() {
            Ok(told) => told.as_slice() == denials,
            Err(_) => false,
        }
    }
}

#[test]
fn a_policy_is_told_which_lock_was_denied(rt: HostRuntime) -> Result<(), Fail> {
    let alloc = rt.alloc();
    let (room, mut zero, mut one) = room_of_two(alloc)?;
    assert!(rt; zero.assign(0, Job::Take));
    // Seize the lower lock, and test its bank's word.
    assert!(rt; finish(&room, &(), &mut zero, 2).is_none());
    assert!(rt; one.assign(0, Job::Take));
    let denied = Noting::new(alloc, 30, 3);
    assert!(rt; persist(&room, &(), &mut one, &denied).is_none());
    // The two banks have the words 0 and 1, and their locks 2 and 3.
    assert!(rt; denied.was_told([Some(2); 3].as_slice()));
    // To seize the lower lock, and to test its bank's word.
    let slow = Noting::new(alloc, 1, 2);
    assert!(rt; persist(&room, &(), &mut zero, &Pausing::SHORT).is_some());
    assert!(rt; persist(&room, &(), &mut one, &Pausing::SHORT).is_some());
    assert!(rt; one.assign(2, Job::TakeBoth));
    assert!(rt; persist(&room, &(), &mut one, &slow).is_none());
    assert!(rt; slow.was_told([None, None].as_slice()));
    Ok(())
}

#[test]
fn a_watch_is_called_before_each_step(rt: HostRuntime) -> Result<(), Fail> {
    let alloc = rt.alloc();
    let (room, zero, mut one) = room_of_two(alloc)?;
    assert!(rt; one.assign(0, Job::TakeBoth));
    // Seize the lock of each bank, and test its word.
    assert!(rt; finish(&room, &(), &mut one, 4).is_none());
    let mut watch = Onlooker {
        room: &room,
        desk: zero,
        sights: Vec::new(alloc),
    };
    // The turn, a slot marked in each bank, each lock freed.
    assert_eq!(rt; one.run(&room, &(), &mut watch), 5);
    assert!(rt; one.is_idle());
    let held = Sight {
        made: 0,
        lower: Some(1),
        upper: Some(1),
    };
    let last = Sight {
        lower: None,
        ..held
    };
    assert!(rt; watch.sights.as_slice() == [held, held, held, held, last].as_slice());
    Ok(())
}

#[test]
fn no_lock_is_held_between_tries(rt: HostRuntime) -> Result<(), Fail> {
    let alloc = rt.alloc();
    let (room, zero, mut one) = room_of_two(alloc)?;
    // To seize the lower lock, and to test its bank's word.
    let policy = Looking::new(&room, zero, Vec::new(alloc), 1, 4);
    assert!(rt; persist(&room, &(), &mut one, &policy).is_none());
    assert!(rt; policy.has_seen_free_locks(0));
    assert!(rt; one.assign(0, Job::TakeBoth));
    assert!(rt; persist(&room, &(), &mut one, &policy).is_none());
    assert!(rt; policy.has_seen_free_locks(4));
    assert!(rt; !one.is_idle());
    let reported = persist(&room, &(), &mut one, &Pausing::SHORT).ok_or("the job ends")?;
    assert!(rt; reported.turn == 0 && reported.number == 0);
    Ok(())
}

/// Has a worker give back the slot of this number. Checks that its job is ended from past its turn,
/// by a policy without patience.
fn check_given(
    rt: &impl Abort,
    room: &SlotRoom,
    one: &mut SlotDesk,
    policy: &Looking<'_>,
    slot: u32,
)
    requires desk { IsDeskOf one.old room.now tt }
    requires slot { slot < 3 }
    ensures { IsDeskOf one.new room.now tt }
{
    let number = u64::from(slot);
    assert!(rt; one.assign(number, Job::Give(slot)));
    // Seize a lock, turn, clear the slot's bit. The lock is still held then.
    assert!(rt; finish(room, &(), one, 3).is_none());
    let reported = persist(room, &(), one, policy);
    assert!(rt; reported.is_some_and(|reported| reported.number == number));
}

#[test]
fn a_job_past_its_turn_is_brought_to_its_end(rt: HostRuntime) -> Result<(), Fail> {
    let alloc = rt.alloc();
    let (room, zero, mut one) = room_of_two(alloc)?;
    let policy = Looking::new(&room, zero, Vec::new(alloc), 0, 1);
    check_given(&rt, &room, &mut one, &policy, 0);
    check_given(&rt, &room, &mut one, &policy, 1);
    check_given(&rt, &room, &mut one, &policy, 2);
    assert!(rt; policy.has_seen_free_locks(0));
    Ok(())
}

/// Gives a worker a job under this number, and checks that it does none, and is at job 1001.
fn check_undone(
    rt: &impl Abort,
    room: &SlotRoom,
    one: &mut SlotDesk,
    policy: &Looking<'_>,
    number: u64,
)
    requires { IsDeskOf one.old room.now tt }
    ensures { IsDeskOf one.new room.now tt }
{
    let note = one.note(room);
    assert!(rt; do_after(room, &(), one, note, number, Job::Take, policy).is_none());
    assert!(rt; policy.has_seen_free_locks(2));
    assert!(rt; one.doing().is_some_and(|(number, _)| number == 1_001));
}

#[test]
fn a_desk_that_is_not_free_does_no_other_job(rt: HostRuntime) -> Result<(), Fail> {
    let alloc = rt.alloc();
    let (room, zero, mut one) = room_of_two(alloc)?;
    let policy = Looking::new(&room, zero, Vec::new(alloc), 0, 2);
    check_undone(&rt, &room, &mut one, &policy, 1_001);
    check_undone(&rt, &room, &mut one, &policy, 1_002);
    Ok(())
}

#[test]
fn workers_do_all_jobs_unless_they_give_up(rt: HostRuntime) -> Result<(), Fail> {
    let alloc = rt.alloc();
    let next = |_desk, ended| (ended < 2_500).then_some(Job::Take);
    let (room, desks) = Room::<SlotJobs>::open(alloc, &(), 2)?;
    let shifts = do_all(&rt, alloc, &room, &(), desks, &next, &Pausing::SHORT)?;
    for shift in shifts.iter() {
        assert!(rt; shift.desk.is_idle());
        assert!(rt; shift.log.len() == 2_500);
    }
    let (other, desks) = Room::<SlotJobs>::open(alloc, &(), 2)?;
    let shifts = do_all(&rt, alloc, &other, &(), desks, &next, &FourTries)?;
    for shift in shifts.iter() {
        assert!(rt; shift.desk.doing().is_some_and(|(number, _)| number == 0));
        assert!(rt; shift.log.is_empty());
    }
    Ok(())
}

#[test]
fn rounds_have_their_numbers(rt: HostRuntime) -> Result<(), Fail> {
    let alloc = rt.alloc();
    let (room, zero, _one) = room_of_two(alloc)?;
    let shift = take_and_give(&room, Shift::new(alloc, zero), 1_500);
    // Two rounds have five records: one slot is taken and freed, then one of each bank.
    assert!(rt; shift.log.len() == 750 * 5 + 1);
    for (place, reported) in shift.log.iter().enumerate() {
        let round = 2 * (place / 5) + usize::from(place % 5 >= 2);
        assert_eq!(rt; reported.number, round as u64);
    }
    Ok(())
}
