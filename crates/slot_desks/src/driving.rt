//! Desks that take slots and free them again.

ghost use Rattle.std.specs.Prelude.{◌≡◌, ◌<◌, [], ◌∷◌, IfNone, IfSome, false, true, vec_capacity, vec_len};
ghost use Rattle.desks.specs.Parts.{Begins};
ghost use Rattle.desks.specs.Views.{IsDeskOf};
ghost use Rattle.slot_desks.specs.Driving.{AreSlots, CantGoOn, HasDoneRounds, IsFree, LogsGiving, LogsJob, LogsRound, taking_in};
ghost use Rattle.slot_desks.specs.Ended.{GivesOwn};
ghost use Rattle.slots.specs.Few.{list_of};
ghost use Rattle.slots.specs.System.{IsJob, slots};
ghost use Rattle.workers.specs.Workers.{IsLogOf, records};

use crate::jobs::SlotJobs;
use desks::{Desk, JobRecord, Progress, Room};
use slots::bank::SLOT_COUNT;
use slots::{Job, Taken, UpToTwo};
use workers::Pausing;

/// The shared words of the slots.
pub type SlotRoom = Room<SlotJobs>;

/// A worker's handle to the slots.
pub type SlotDesk = Desk<SlotJobs>;

/// The record of a job of the slots.
pub type SlotRecord = JobRecord<Job, Taken>;

/// A desk of the slots at work, and a log of the jobs that it has ended.
pub type Shift = workers::Shift<SlotJobs>;

/// Does one job, logs its record, and returns the slots that it took. None if the worker can't go
/// on, or the desk is at another job.
fn work(room: &SlotRoom, shift: &mut Shift, number: u64, job: Job) -> Option<UpToTwo<u32>>
    requires desk { IsDeskOf shift.old.desk room.now tt }
    requires job { IsJob job }
    requires log { IsLogOf slots shift.old.desk shift.old.log.items }
    ensures desk { IsDeskOf shift.new.desk room.now tt }
    ensures number { shift.new.desk.number ≡ shift.old.desk.number }
    ensures log { IsLogOf slots shift.new.desk shift.new.log.items }
    ensures seen { Begins shift.old.desk.seen shift.new.desk.seen }
    ensures done { IfSome result (λ taken.
        LogsJob shift.old.log.items shift.new.log.items number job (list_of taken)) }
    ensures slots { IfSome result (λ taken. AreSlots (list_of taken)) }
    ensures none { IfNone result (shift.new.log.items ≡ shift.old.log.items) }
    ensures free { IsFree shift.old.desk → IfSome result (λ _. IsFree shift.new.desk) }
    ensures stuck { IsFree shift.old.desk → IfNone result
        (CantGoOn (vec_len shift.new.log) (vec_capacity shift.new.log) shift.new.desk) }
{
    if !shift.work(room, &(), number, job, &Pausing::SHORT) {
        return None;
    }
    // Called for its clause that what the desk has seen is legal.
    let _number = shift.desk.number();
    let Some(reported) = shift.last() else {
        unreachable!()
    };
    Some(reported.reply.slots())
}

/// Frees a slot and logs the record, like `work`. Returns false also if there is no slot of this
/// number.
fn give(room: &SlotRoom, shift: &mut Shift, number: u64, slot: u32) -> bool
    requires desk { IsDeskOf shift.old.desk room.now tt }
    requires log { IsLogOf slots shift.old.desk shift.old.log.items }
    ensures desk { IsDeskOf shift.new.desk room.now tt }
    ensures number { shift.new.desk.number ≡ shift.old.desk.number }
    ensures log { IsLogOf slots shift.new.desk shift.new.log.items }
    ensures seen { Begins shift.old.desk.seen shift.new.desk.seen }
    ensures given { LogsGiving shift.old.log.items shift.new.log.items number (slot ∷ []) result }
    ensures free { IsFree shift.old.desk → result ≡ true → IsFree shift.new.desk }
    ensures stuck { IsFree shift.old.desk → slot < SLOT_COUNT → result ≡ false →
        CantGoOn (vec_len shift.new.log) (vec_capacity shift.new.log) shift.new.desk }
{
    slot < SLOT_COUNT && work(room, shift, number, Job::Give(slot)).is_some()
}

/// Frees the slots that a job took, in their order, up to the first for which that fails. Returns
/// whether it freed all.
fn give_each(room: &SlotRoom, shift: &mut Shift, number: u64, taken: UpToTwo<u32>) -> bool
    requires desk { IsDeskOf shift.old.desk room.now tt }
    requires log { IsLogOf slots shift.old.desk shift.old.log.items }
    ensures desk { IsDeskOf shift.new.desk room.now tt }
    ensures number { shift.new.desk.number ≡ shift.old.desk.number }
    ensures log { IsLogOf slots shift.new.desk shift.new.log.items }
    ensures seen { Begins shift.old.desk.seen shift.new.desk.seen }
    ensures given { LogsGiving shift.old.log.items shift.new.log.items number (list_of taken)
        result }
    ensures free { IsFree shift.old.desk → result ≡ true → IsFree shift.new.desk }
    ensures stuck { IsFree shift.old.desk → AreSlots (list_of taken) → result ≡ false →
        CantGoOn (vec_len shift.new.log) (vec_capacity shift.new.log) shift.new.desk }
{
    match taken {
        UpToTwo::Empty => true,
        UpToTwo::One(slot) => give(room, shift, number, slot),
        UpToTwo::Two(slot, other) => {
            give(room, shift, number, slot) && give(room, shift, number, other)
        }
    }
}

/// The job of a round: in even rounds to take one slot, in odd rounds one of each bank.
fn job_of_round(round: u64) -> Job
    ensures { result ≡ taking_in round }
{
    if round % 2 == 0 {
        Job::Take
    } else {
        Job::TakeBoth
    }
}

/// One round: takes slots and frees them. Returns false if the worker can't go on.
fn take_and_give_once(room: &SlotRoom, shift: &mut Shift, round: u64) -> bool
    requires desk { IsDeskOf shift.old.desk room.now tt }
    requires log { IsLogOf slots shift.old.desk shift.old.log.items }
    requires own { GivesOwn [] (records shift.old.log.items) }
    ensures desk { IsDeskOf shift.new.desk room.now tt }
    ensures number { shift.new.desk.number ≡ shift.old.desk.number }
    ensures log { IsLogOf slots shift.new.desk shift.new.log.items }
    ensures own { GivesOwn [] (records shift.new.log.items) }
    ensures round { LogsRound shift.old.log.items shift.new.log.items round result }
    ensures free { IsFree shift.old.desk → result ≡ true → IsFree shift.new.desk }
    ensures stuck { IsFree shift.old.desk → result ≡ false →
        CantGoOn (vec_len shift.new.log) (vec_capacity shift.new.log) shift.new.desk }
{
    let Some(taken) = work(room, shift, round, job_of_round(round)) else {
        return false;
    };
    give_each(room, shift, round, taken)
}

/// Takes slots and frees them, `rounds` times, and then takes a slot to keep. The desk frees only
/// slots that it has taken. The worker stops early if it can't go on.
pub fn take_and_give(room: &SlotRoom, mut shift: Shift, rounds: u64) -> Shift
    requires desk { IsDeskOf shift.desk room.now tt }
    requires log { IsLogOf slots shift.desk shift.log.items }
    requires own { GivesOwn [] (records shift.log.items) }
    ensures desk { IsDeskOf result.desk room.now tt }
    ensures number { result.desk.number ≡ shift.desk.number }
    ensures log { IsLogOf slots result.desk result.log.items }
    ensures own { GivesOwn [] (records result.log.items) }
    ensures rounds { shift.log.items ≡ [] → IsFree shift.desk →
        HasDoneRounds rounds result.log.items
        (CantGoOn (vec_len result.log) (vec_capacity result.log) result.desk) }
{
    for round in 0..rounds {
        if !take_and_give_once(room, &mut shift, round) {
            return shift;
        }
    }
    work(room, &mut shift, rounds, Job::Take);
    shift
}

/// Makes a step of the desk's job, and logs the record if that ends the job. Assigns the next job
/// if the desk is idle.
fn go_on(room: &SlotRoom, desk: &mut SlotDesk, number: u64, log: &mut Vec<SlotRecord>)
    requires { IsDeskOf desk.old room.now tt }
    ensures desk { IsDeskOf desk.new room.now tt }
    ensures number { desk.new.number ≡ desk.old.number }
{
    match desk.advance(room, &()) {
        Progress::Idle => {
            let slot = (number % u64::from(SLOT_COUNT)) as u32;
            let job = match number % 3 {
                0 => Job::Take,
                1 => Job::TakeBoth,
                _ => Job::Give(slot),
            };
            desk.assign(number, job);
        }
        Progress::Moved(_) => {}
        Progress::Finished(reported) => {
            if log.push(reported).is_err() {
                return;
            }
        }
    }
}

/// Has two desks work alternately, `steps` times: one step of the first, then two of the second.
/// With one step each, each would keep changing the lock's word that the other expects, and
/// neither would get far.
pub fn alternate(
    room: &SlotRoom,
    one: &mut SlotDesk,
    other: &mut SlotDesk,
    steps: u64,
    log: &mut Vec<SlotRecord>,
)
    requires one { IsDeskOf one.old room.now tt }
    requires other { IsDeskOf other.old room.now tt }
    ensures one { IsDeskOf one.new room.now tt }
    ensures other { IsDeskOf other.new room.now tt }
    ensures numbers { (one.new.number ≡ one.old.number) × (other.new.number ≡ other.old.number) }
{
    for number in 0..steps {
        go_on(room, one, number, log);
        go_on(room, other, number, log);
        go_on(room, other, number, log);
    }
}
