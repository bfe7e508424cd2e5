//! Drives a desk to the end of its job.

ghost use Rattle.std.specs.Prelude.{◌≡◌, ◌≤◌, ◌^◌, IfErr, IfNone, IfOk, IfSome, false, is_some, length, true};
ghost use Rattle.desks.specs.Desks.{as_record};
ghost use Rattle.desks.specs.Met.{HasLearned};
ghost use Rattle.desks.specs.Reports.{ComesAfter};
ghost use Rattle.desks.specs.Running.{IsOperating};
ghost use Rattle.desks.specs.Views.{IsDeskOf};
ghost use Rattle.turns.specs.Clock.{IsCounted};
ghost use Rattle.turns.specs.Runs.{is_available};
ghost use Rattle.turns.specs.System.{system_of};
ghost use Rattle.workers.specs.Tries.{GoesOnFreely, HasDone, HasMissed, HasPersisted, IsTry, MakesUpTo, denies as denies_of, record_of};
ghost use Rattle.workers.specs.Workers.{HasFinished, IsAfter};

use crate::back_off::BackOff;
use desks::{Desk, JobRecord, Jobs, Note, Progress, Room, laws};
use turns::Answer;

/// Makes the desk's steps until its job has ended, but at most `most` of them. Returns the job's
/// record, or None if the job has not ended or the desk was idle.
pub fn finish<F: Jobs>(
    room: &Room<F>,
    setting: &F::Setting,
    desk: &mut Desk<F>,
    most: u32,
) -> Option<JobRecord<F::Job, F::Reply>>
    requires { IsDeskOf desk.old room.now setting.now }
    ensures desk { IsDeskOf desk.new room.now setting.now }
    ensures finished { HasFinished (system_of (F.system setting.now)) desk.old desk.new result }
    ensures made { MakesUpTo (system_of (F.system setting.now)) most desk.old desk.new result }
{
    laws::desks_report_their_records::<F>();
    laws::reports_are_of_assigned_jobs::<F>();
    for _ in 0..most {
        match desk.advance(room, setting) {
            Progress::Idle => return None,
            Progress::Moved(_) => {}
            Progress::Finished(reported) => return Some(reported),
        }
    }
    None
}

/// Makes the steps past the turn until the job has ended, and returns the job's record. None of
/// them can be denied. Returns None, and makes no step, if there are none.
fn finish_past_turn<F: Jobs>(
    room: &Room<F>,
    setting: &F::Setting,
    desk: &mut Desk<F>,
) -> Option<JobRecord<F::Job, F::Reply>>
    requires { IsDeskOf desk.old room.now setting.now }
    ensures desk { IsDeskOf desk.new room.now setting.now }
    ensures finished { HasFinished (system_of (F.system setting.now)) desk.old desk.new result }
    ensures free { IfSome result (λ _.
        is_available (system_of (F.system setting.now)) desk.new.actor ≡ true) }
    ensures ended { IsOperating desk.old.actor → is_some result ≡ true }
{
    laws::desks_report_their_records::<F>();
    laws::reports_are_of_assigned_jobs::<F>();
    while desk.is_operating(setting) {
        if let Progress::Finished(reported) = desk.advance(room, setting) {
            return Some(reported);
        }
    }
    None
}

/// Whether the answer denies a lock.
fn denies(answer: Answer) -> bool
    ensures { result ≡ denies_of answer }
{
    matches!(answer, Answer::Held(_) | Answer::Preferred(_))
}

/// Makes steps that ask for no lock (see `Desk::run`). Returns the job's record if the job has
/// ended with them, or None if it goes on.
fn run_on<F: Jobs>(
    room: &Room<F>,
    setting: &F::Setting,
    desk: &mut Desk<F>,
) -> Option<JobRecord<F::Job, F::Reply>>
    requires { IsDeskOf desk.old room.now setting.now }
    ensures desk { IsDeskOf desk.new room.now setting.now }
    ensures finished { is_available (system_of (F.system setting.now)) desk.old.actor ≡ false
        → HasFinished (system_of (F.system setting.now)) desk.old desk.new result }
    ensures ended { IfSome result (λ _.
        is_available (system_of (F.system setting.now)) desk.new.actor ≡ true) }
    ensures goes_on { IfNone result
        (is_available (system_of (F.system setting.now)) desk.old.actor ≡ false
        → GoesOnFreely (system_of (F.system setting.now)) desk.old desk.new) }
{
    laws::desks_report_their_records::<F>();
    laws::reports_are_of_assigned_jobs::<F>();
    laws::steps_are_lawful_moves::<F>();
    desk.run(room, setting, &mut ());
    if !desk.is_idle() {
        return None;
    }
    desk.record()
}

/// Goes on with the desk's job until it has ended or the desk is denied a lock, but at most
/// `patience` times: each time the desk makes a step, and then all steps that ask for no lock.
/// Returns the job's record. Otherwise `Err`, with the word of the lock that was denied, if one was.
fn finish_or_be_denied<F: Jobs>(
    room: &Room<F>,
    setting: &F::Setting,
    desk: &mut Desk<F>,
    patience: u32,
) -> Result<JobRecord<F::Job, F::Reply>, Option<usize>>
    requires { IsDeskOf desk.old room.now setting.now }
    ensures desk { IsDeskOf desk.new room.now setting.now }
    ensures finished { HasFinished (system_of (F.system setting.now)) desk.old desk.new
        (record_of result) }
    ensures ended { IfOk result (λ _.
        is_available (system_of (F.system setting.now)) desk.new.actor ≡ true) }
    ensures busy { IfErr result (λ _.
        is_available (system_of (F.system setting.now)) desk.old.actor ≡ false
        → is_available (system_of (F.system setting.now)) desk.new.actor ≡ false) }
    ensures missed { IfErr result (λ denied.
        is_available (system_of (F.system setting.now)) desk.old.actor ≡ false
        → HasMissed (system_of (F.system setting.now)) patience desk.old desk.new denied) }
{
    laws::desks_report_their_records::<F>();
    laws::reports_are_of_assigned_jobs::<F>();
    laws::steps_are_lawful_moves::<F>();
    for _ in 0..patience {
        let lock = desk.lock_to_acquire(setting);
        match desk.advance(room, setting) {
            Progress::Idle => break,
            Progress::Finished(reported) => return Ok(reported),
            // After a request that wasn't denied, the lock is seized next.
            Progress::Moved(Answer::Asked(_)) => continue,
            Progress::Moved(answer) => {
                if denies(answer) {
                    return Err(lock);
                }
            }
        }
        if let Some(reported) = run_on(room, setting, desk) {
            return Ok(reported);
        }
    }
    Err(None)
}

/// Tries to bring the desk's job to its end. If the desk is denied a lock or has gone on
/// `patience` times, it gives back what it holds, so that other desks can go on. A job past its turn can't be rolled
/// back, so it is brought to its end instead.
fn try_once<F: Jobs>(
    room: &Room<F>,
    setting: &F::Setting,
    desk: &mut Desk<F>,
    patience: u32,
) -> Result<JobRecord<F::Job, F::Reply>, Option<usize>>
    requires { IsDeskOf desk.old room.now setting.now }
    ensures desk { IsDeskOf desk.new room.now setting.now }
    ensures tried { is_available (system_of (F.system setting.now)) desk.old.actor ≡ false →
        IsTry (system_of (F.system setting.now)) patience desk.old desk.new result }
{
    laws::desks_report_their_records::<F>();
    laws::reports_are_of_assigned_jobs::<F>();
    let denied = match finish_or_be_denied(room, setting, desk, patience) {
        Ok(reported) => return Ok(reported),
        Err(denied) => denied,
    };
    if desk.is_operating(setting) {
        return finish_past_turn(room, setting, desk).ok_or(denied);
    }
    desk.give_back(room, setting);
    Err(denied)
}

/// Makes the desk's steps until its job has ended. After each try that is denied a lock or takes
/// too long, the desk gives back what it holds, and the policy decides whether to try again.
/// Returns None if the policy gives up, or the desk was idle.
pub fn persist<F: Jobs, B: BackOff>(
    room: &Room<F>,
    setting: &F::Setting,
    desk: &mut Desk<F>,
    back_off: &B,
) -> Option<JobRecord<F::Job, F::Reply>>
    requires { IsDeskOf desk.old room.now setting.now }
    ensures desk { IsDeskOf desk.new room.now setting.now }
    ensures finished { HasFinished (system_of (F.system setting.now)) desk.old desk.new result }
    ensures persisted { HasPersisted (system_of (F.system setting.now)) (B.Answers back_off.now)
        (B.Patience back_off.now) desk.old desk.new result }
{
    laws::desks_report_their_records::<F>();
    if desk.is_idle() {
        return None;
    }
    let patience = back_off.patience(desk.number());
    for made in 1..u64::MAX {
        let denied = match try_once(room, setting, desk, patience) {
            Ok(reported) => return Some(reported),
            Err(denied) => denied,
        };
        if !back_off.try_again(made, denied) {
            break;
        }
    }
    None
}

/// Learns a note, and then does a job: the job comes after all jobs that the note has, whichever
/// thread wrote it, and its turn has a greater number, if turns are counted. Returns None if the
/// desk is at another job, or the policy gives up.
pub fn do_after<F: Jobs, B: BackOff>(
    room: &Room<F>,
    setting: &F::Setting,
    desk: &mut Desk<F>,
    note: Note<F>,
    number: u64,
    job: F::Job,
    back_off: &B,
) -> Option<JobRecord<F::Job, F::Reply>>
    requires desk { IsDeskOf desk.old room.now setting.now }
    requires note { note.table ≡ room.now.table }
    requires job { (F.system setting.now).IsJob job }
    ensures desk { IsDeskOf desk.new room.now setting.now }
    ensures number { desk.new.number ≡ desk.old.number }
    ensures comes { IfSome result (λ reported. ComesAfter (system_of (F.system setting.now))
        note.seen desk.new.seen (as_record reported)) }
    ensures after { IfSome result (λ reported. IsCounted (F.system setting.now).clock
        → length desk.new.seen ≤ 2 ^ 64 → IsAfter note.seen reported) }
    ensures behind { IfSome result (λ reported. IsCounted (F.system setting.now).clock
        → length desk.new.seen ≤ 2 ^ 64 → length note.seen ≤ reported.turn) }
    ensures its_job { IfSome result
        (λ reported. (reported.number ≡ number) × (reported.job ≡ job)) }
    ensures done { (learned : _) × (learned ≡ record (desk.old) { seen = learned.seen })
        × HasLearned (system_of (F.system setting.now)) desk.old.number desk.old.seen note.seen
        learned.seen
        × HasDone (system_of (F.system setting.now)) (B.Answers back_off.now)
        (B.Patience back_off.now) learned desk.new number job result }
{
    laws::desks_report_their_records::<F>();
    laws::reports_are_of_assigned_jobs::<F>();
    laws::jobs_come_after_all_that_was_seen::<F>();
    desk.learn(room, setting, note);
    if !desk.assign(number, job) {
        return None;
    }
    let reported = persist(room, setting, desk, back_off);
    // Called for its clause that what the desk has seen is legal.
    let _number = desk.number();
    reported
}
