//! Two desks, each on its own thread, that dial at once.

ghost use Rattle.std.specs.Prelude.{◌≡◌, All, vec_len};
ghost use Rattle.xbar_fabric.specs.Views.{IsDeskOf};

use super::driving::{DeskAtWork, Task, on_threads, run_on};
use super::ending::check_end;
use crate::fixtures::{example, open_fabric};
use crate::offices::MOST_STEPS_ALONE;
use std::alloc::Global;
use std::process::Abort;
use std::thread::Threads;
use test_tools::{check, check_eq};
use xbar_fabric::{Fabric, Given, Kind, meet};
use xbar_office::End;
use xbar_plan::Plan;

mod one_shuts;

/// Takes the last desk at work.
fn last_at_work(rt: &impl Abort, _fabric: &Fabric, shifts: &mut Vec<DeskAtWork>) -> DeskAtWork
    requires { All (λ shift. IsDeskOf shift.desk _fabric.now) shifts.old.items }
    ensures rest { All (λ shift. IsDeskOf shift.desk _fabric.now) shifts.new.items }
    ensures desk { IsDeskOf result.desk _fabric.now }
{
    let Some(shift) = shifts.pop() else {
        panic!(rt; "both desks come back");
    };
    shift
}

/// Runs a desk past its turn on to the end of its job. Any other gives back.
fn end_or_give_back(fabric: &Fabric, shift: &mut DeskAtWork)
    requires { IsDeskOf shift.old.desk fabric.now }
    ensures { IsDeskOf shift.new.desk fabric.now }
{
    if let Given::PastTurn = shift.desk.give_back(fabric) {
        let _ended = run_on(fabric, shift, MOST_STEPS_ALONE);
    }
}

/// Ends what two threads left undone: the jobs past their turn, and then each job alone. Then both
/// desks meet.
fn settle(rt: &impl Abort, fabric: &Fabric, zero: &mut DeskAtWork, one: &mut DeskAtWork)
    requires zero { IsDeskOf zero.old.desk fabric.now }
    requires one { IsDeskOf one.old.desk fabric.now }
    ensures zero { IsDeskOf zero.new.desk fabric.now }
    ensures one { IsDeskOf one.new.desk fabric.now }
{
    end_or_give_back(fabric, zero);
    end_or_give_back(fabric, one);
    check!(rt; run_on(fabric, zero, MOST_STEPS_ALONE), "the job of desk 0 ends");
    check!(rt; run_on(fabric, one, MOST_STEPS_ALONE), "the job of desk 1 ends");
    meet(fabric, &mut zero.desk, &mut one.desk);
}

/// A list of both desks at work.
fn both(
    rt: &impl Abort,
    alloc: Global,
    _fabric: &Fabric,
    zero: DeskAtWork,
    one: DeskAtWork,
) -> Vec<DeskAtWork>
    requires zero { IsDeskOf zero.desk _fabric.now }
    requires one { IsDeskOf one.desk _fabric.now }
    ensures desks { All (λ shift. IsDeskOf shift.desk _fabric.now) result.items }
    ensures count { vec_len result ≡ 2 }
{
    let Ok(shifts) = vec![in alloc; zero, one] else {
        panic!(rt; "there is memory for two desks");
    };
    shifts
}

/// Has two threads make at most `most` steps each, and ends their jobs. Then both lines have
/// registers, by the records and by the words.
fn check_two_dials<R: Threads + Sync + Abort>(rt: &R, alloc: Global, plan: &Plan, most: u32) {
    let (fabric, desks) = open_fabric(rt, alloc, plan, &[Kind::Combined; 2]);
    let mut shifts = on_threads(rt, alloc, &fabric, desks, Task::Dial(most));
    let mut one = last_at_work(rt, &fabric, &mut shifts);
    let mut zero = last_at_work(rt, &fabric, &mut shifts);
    settle(rt, &fabric, &mut zero, &mut one);
    let shifts = both(rt, alloc, &fabric, zero, one);
    let records = check_end(rt, alloc, plan, fabric, shifts);
    let ends = records.iter().map(|record| record.reply.end);
    let dialled = ends.filter(|end| matches!(end, End::DialTone { .. }));
    check_eq!(rt; (records.len(), dialled.count()), (2, 2), "after {most} steps at most");
}

#[test]
fn two_threads_dial_at_once(rt: HostRuntime) {
    let plan = example(&rt, rt.alloc());
    for _made in 0..200 {
        check_two_dials(&rt, rt.alloc(), &plan, 10_000);
    }
    // What the threads leave undone after `most` steps is ended.
    for most in 0..30 {
        check_two_dials(&rt, rt.alloc(), &plan, most);
    }
}
