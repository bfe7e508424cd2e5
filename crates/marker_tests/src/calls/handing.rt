//! A job that one worker begins and another goes on with, each on its own thread.

ghost use Rattle.xbar_fabric.specs.Views.{IsDeskOf};

use super::*;
use crate::fixtures::{WITH_REGISTER, Words, check_words, last_desk, open_fabric};
use test_tools::check_eq;
use xbar_fabric::{AssignFault, Desk, Fabric, Kind, shut};
use xbar_markers::{Handed, Then, hand_over};
use xbar_office::{End, Job};

/// The number of the step by which the job takes its turn.
const TURN: u32 = 20;

/// The number of the job's last step.
const END: u32 = 28;

fn dial() -> Job {
    Job::Dial(Len::new(3, 0, 21))
}

/// Checks that the dial tone job, handed over after `stop` steps, is given back if that is asked
/// for and its turn is still to come, and else done.
fn check_handed<R: Threads + Wait + Sync + Abort>(
    rt: &R,
    alloc: Global,
    plan: &Plan,
    stop: u32,
    then: Then,
) {
    let (fabric, mut desks) = open_fabric(rt, alloc, plan, &[Kind::Combined]);
    let desk = last_desk(rt, &fabric, &mut desks);
    let Ok((desk, handed)) = hand_over(rt, &fabric, desk, 1, dial(), stop, then) else {
        panic!(rt; "an idle desk takes the job");
    };
    let Ok(words) = shut(alloc, fabric, desk) else {
        panic!(rt; "there is memory for the words");
    };
    let has_dial_tone = match &handed {
        Handed::Given => false,
        Handed::Finished(record) => matches!(record.reply.end, End::DialTone { .. }),
    };
    let is_given = then == Then::GiveBack && stop < TURN;
    check_eq!(rt; has_dial_tone, !is_given, "{stop} {then:?}");
    let wanted: Words<'_> = if is_given { &[] } else { WITH_REGISTER };
    check_words(rt, alloc, "handed over", &words, wanted);
}

#[test]
fn a_job_is_handed_over_after_each_step(rt: HostRuntime) {
    let plan = example(&rt, rt.alloc());
    for stop in 0..=END {
        for then in [Then::Finish, Then::GiveBack] {
            check_handed(&rt, rt.alloc(), &plan, stop, then);
        }
    }
}

/// Why a job isn't handed over; and of the desk that comes back its number and whether it is idle.
fn refused<R: Threads + Wait + Sync>(
    rt: &R,
    fabric: &Fabric,
    desk: Desk,
    job: Job,
) -> Option<(AssignFault, u32, bool)>
    requires { IsDeskOf desk fabric.now }
{
    let fault = hand_over(rt, fabric, desk, 2, job, END, Then::Finish).err()?;
    Some((fault.why, fault.desk.marker(), fault.desk.is_idle()))
}

/// A desk with the dial tone job, and an idle one that takes no release.
#[test]
fn a_refused_desk_is_handed_back(rt: HostRuntime) {
    let plan = example(&rt, rt.alloc());
    let kinds = [Kind::Combined, Kind::Dial];
    let (fabric, mut desks) = open_fabric(&rt, rt.alloc(), &plan, &kinds);
    let idle = last_desk(&rt, &fabric, &mut desks);
    let mut busy = last_desk(&rt, &fabric, &mut desks);
    let _assigned = busy.assign(1, dial());
    let not_idle = refused(&rt, &fabric, busy, dial());
    check_eq!(rt; not_idle, Some((AssignFault::NotIdle, 0, false)), "a busy desk");
    let wrong_kind = refused(&rt, &fabric, idle, Job::Release(Len::new(3, 0, 21)));
    check_eq!(rt; wrong_kind, Some((AssignFault::WrongKind, 1, true)), "a release");
}
