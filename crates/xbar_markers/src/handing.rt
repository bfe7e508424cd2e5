//! A job that one worker begins and another brings to its end.

ghost use Rattle.std.specs.Prelude.{◌≡◌, ◌≢◌, ℕ, Some, None, MatchResult, true, false};
ghost use Rattle.std.specs.Thread.{IsSend, IsSync};
ghost use Rattle.xbar_moves.specs.Exchange.{is_idle};
ghost use Rattle.xbar_moves.specs.Moves.{given_by, refusal_of};
ghost use Rattle.xbar_fabric.specs.Views.{DeskView, IsDeskOf, marker_of};
ghost use Rattle.xbar_markers.specs.Handing.{HasGiven, IsAtHand, IsBegun, IsHanded};
ghost use Rattle.xbar_markers.specs.Work.{HasDone, HasMadeSteps, IsDoing, IsDoneOr};
ghost use Rattle.xbar_markers.specs.Work.{WorkerHasStepped};

use crate::worker::yield_once_given_back;
use std::sync::Wait;
use std::thread::{Threads, join};
use xbar_fabric::{AssignFault, Desk, Event, Fabric, Given};
use xbar_office::{Job, Record};

/// What the second worker does with a job that the first has not finished.
#[derive(Clone, Copy, Debug, PartialEq, Eq)]
pub enum Then {
    /// Brings the job to its end.
    Finish,
    /// Gives back what the desk holds. Brings the job to its end if it is past its turn.
    GiveBack,
}

/// The outcome of a job that was handed over.
#[derive(Drop)]
pub enum Handed {
    Finished(Record),
    /// The desk holds nothing, and is at the beginning of its job.
    Given,
}

/// Why a job can't be handed over, with the unchanged desk.
#[derive(Drop)]
pub struct HandFault {
    pub desk: Desk,
    pub why: AssignFault,
}

/// Makes the desk's next step. Returns the job's record if the job ends by it.
fn make_step(fabric: &Fabric, desk: &mut Desk) -> Option<Record>
    requires { IsDeskOf desk.old fabric.now }
    ensures { WorkerHasStepped desk.old desk.new result }
{
    let was_giving_back = desk.is_giving_back();
    if let Event::Finished(record) = desk.advance(fabric) {
        return Some(record);
    }
    yield_once_given_back(desk, was_giving_back);
    None
}

/// Makes the desk's next step. Its contract is of all that the desk has done since the job began.
fn step_on(fabric: &Fabric, desk: &mut Desk) -> Option<Record>
    requires { IsDeskOf desk.old fabric.now }
    ensures desk { IsDeskOf desk.new fabric.now }
    ensures done { (before : DeskView) (number : ℕ) (job : Job) →
        IsDoing number job before desk.old → IsDoneOr number job before desk.new result }
    ensures made { is_idle desk.old.work ≡ false → HasMadeSteps 1 desk.old desk.new }
    ensures busy { is_idle desk.old.work ≡ false → result ≡ None →
        is_idle desk.new.work ≡ false }
{
    // Called only for their contracts.
    xbar_fabric::laws::desks_report_their_records();
    xbar_fabric::laws::reports_are_of_assigned_jobs();
    xbar_fabric::laws::next_records_have_later_turns();
    let ended = make_step(fabric, desk);
    let _marker = desk.marker();
    ended
}

/// What the first worker does: assigns the job and makes `stop` steps, fewer if the job ends by
/// then. Returns the job's record if it does.
fn begin(
    fabric: &Fabric,
    mut desk: Desk,
    job_no: u32,
    job: Job,
    stop: u32,
) -> (Desk, Result<Option<Record>, AssignFault>)
    requires { IsDeskOf desk fabric.now }
    ensures desk { IsDeskOf result.0 fabric.now }
    ensures begun { IsBegun desk job_no job stop result.0 result.1 }
{
    if let Err(why) = desk.assign(job_no, job) {
        return (desk, Err(why));
    }
    for _made in 0..stop {
        if let Some(record) = step_on(fabric, &mut desk) {
            return (desk, Ok(Some(record)));
        }
    }
    (desk, Ok(None))
}

/// Makes the desk's steps until its job ends, and returns the job's record.
fn bring_to_end<R: Wait>(rt: &R, fabric: &Fabric, desk: &mut Desk) -> Record
    requires of { IsDeskOf desk.old fabric.now }
    requires busy { is_idle desk.old.work ≡ false }
    ensures done { (before : DeskView) (number : ℕ) (job : Job) →
        IsDoing number job before desk.old → HasDone before desk.new number job result }
    ensures made { (count : ℕ) × HasMadeSteps count desk.old desk.new }
{
    for _ in rt.forever() {
        if let Some(record) = step_on(fabric, desk) {
            return record;
        }
    }
    unreachable!()
}

/// Has the desk give back what it holds, unless it is past its turn. Returns whether it did.
fn gives_back(fabric: &Fabric, desk: &mut Desk) -> bool
    requires { IsDeskOf desk.old fabric.now }
    ensures given { result ≡ true → (before : DeskView) (number : ℕ) (job : Job) →
        IsDoing number job before desk.old → HasGiven before desk.new number job }
    ensures gave { result ≡ true → given_by desk.old.work ≡ Given.Given }
    ensures kept { result ≡ false → desk.new ≡ desk.old }
    ensures not { result ≡ false → given_by desk.old.work ≢ Given.Given }
{
    // Called only for its contract.
    xbar_fabric::laws::desks_report_their_records();
    match desk.give_back(fabric) {
        Given::Given => true,
        Given::PastTurn | Given::Idle => false,
    }
}

/// What the second worker does. `ended` is the job's record, if the first worker ended the job.
fn go_on<R: Wait>(
    rt: &R,
    fabric: &Fabric,
    mut desk: Desk,
    ended: Option<Record>,
    then: Then,
) -> (Desk, Handed)
    requires of { IsDeskOf desk fabric.now }
    requires busy { ended ≡ None → is_idle desk.work ≡ false }
    ensures { (before : DeskView) (number stop : ℕ) (job : Job) →
        IsAtHand before number job stop desk ended →
        IsHanded before number job stop then result.0 result.1 }
{
    if let Some(record) = ended {
        return (desk, Handed::Finished(record));
    }
    if let Then::GiveBack = then {
        if gives_back(fabric, &mut desk) {
            return (desk, Handed::Given);
        }
    }
    let record = bring_to_end(rt, fabric, &mut desk);
    (desk, Handed::Finished(record))
}

/// Does the work on its own thread, if one can be made, and else on the calling thread.
fn on_thread<A: Send + Drop, B: Send, F: Fn(A) -> B + Sync, R: Threads>(
    rt: &R,
    work: &F,
    on: A,
) -> B
    requires { F.pre work.now on }
    ensures { F.post work.now on result }
{
    let (made, ()) = join(
        rt,
        move || -> B
            requires { IsSync F.row × IsSend A.row × F.pre work.now on }
            ensures { F.post work.entry.now on result }
        { work(on) },
        || (),
    );
    made
}

/// Has a first worker assign the job to the desk and make exactly `stop` of its steps, fewer only
/// if the job ends. Then moves the desk to a second worker, on another thread, which goes on from
/// there. If no thread can be made, the calling thread does the work.
pub fn hand_over<R: Threads + Wait + Sync>(
    rt: &R,
    fabric: &Fabric,
    desk: Desk,
    job_no: u32,
    job: Job,
    stop: u32,
    then: Then,
) -> Result<(Desk, Handed), HandFault>
    requires { IsDeskOf desk fabric.now }
    ensures { MatchResult result
        (λ handed. (refusal_of (marker_of desk) job ≡ None)
        × IsHanded desk job_no job stop then handed.0 handed.1)
        (λ fault. (refusal_of (marker_of desk) job ≡ Some fault.why) × (fault.desk ≡ desk)) }
{
    let first = |desk: Desk| -> (Desk, Result<Option<Record>, AssignFault>)
        requires { IsDeskOf desk fabric.now }
        ensures { IsDeskOf result.0 fabric.entry.now
            × IsBegun desk job_no job stop result.0 result.1 }
    { begin(fabric, desk, job_no, job, stop) };
    let (desk, begun) = on_thread(rt, &first, desk);
    let ended = match begun {
        Ok(ended) => ended,
        Err(why) => return Err(HandFault { desk, why }),
    };
    let second = |(desk, ended): (Desk, Option<Record>)| -> (Desk, Handed)
        requires { IsSync R.row × IsDeskOf desk fabric.now
            × (ended ≡ None → is_idle desk.work ≡ false) }
        ensures { (before : DeskView) (number stop : ℕ) (job : Job)
            → IsAtHand before number job stop desk ended
            → IsHanded before number job stop then result.0 result.1 }
    { go_on(rt, fabric, desk, ended, then) };
    Ok(on_thread(rt, &second, (desk, ended)))
}
