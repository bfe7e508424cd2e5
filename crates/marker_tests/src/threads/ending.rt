//! The end of desks' work: their records in the order of turns, and their words.

ghost use Rattle.std.specs.Prelude.{◌≡◌, ◌+◌, All, vec_len};
ghost use Rattle.xbar_fabric.specs.Views.{IsDeskOf};
ghost use Rattle.marker_tests.specs.Shifts.{AreInOrder};

use super::driving::DeskAtWork;
use crate::fixtures::check_history;
use std::alloc::Global;
use std::process::Abort;
use xbar_fabric::{Desk, Fabric, shut_all};
use xbar_office::Record;
use xbar_plan::Plan;

/// Appends an idle desk, at the index of its marker.
fn put_desk(rt: &impl Abort, _fabric: &Fabric, desks: &mut Vec<Desk>, desk: Desk)
    requires desks { AreInOrder desks.old.items _fabric.now }
    requires desk { IsDeskOf desk _fabric.now }
    ensures order { AreInOrder desks.new.items _fabric.now }
    ensures count { vec_len desks.new ≡ vec_len desks.old + 1 }
{
    assert!(rt; desk.is_idle(), "each job has ended");
    assert!(rt;
        desk.marker() as usize == desks.len(),
        "desks keep their places"
    );
    if desks.push(desk).is_err() {
        panic!(rt; "there is memory for a desk");
    }
}

/// Appends the records of a desk.
fn put_records(rt: &impl Abort, log: &mut Vec<Record>, records: &mut Vec<Record>) {
    if records.append(log).is_err() {
        panic!(rt; "there is memory for records");
    }
}

/// Takes desks apart from their records, which it appends to `records`.
fn part(
    rt: &impl Abort,
    alloc: Global,
    fabric: &Fabric,
    shifts: Vec<DeskAtWork>,
    records: &mut Vec<Record>,
) -> Vec<Desk>
    requires { All (λ shift. IsDeskOf shift.desk fabric.now) shifts.items }
    ensures order { AreInOrder result.items fabric.now }
    ensures count { vec_len result ≡ vec_len shifts }
{
    let mut desks = Vec::new(alloc);
    for mut shift in shifts {
        put_records(rt, &mut shift.log, records);
        put_desk(rt, fabric, &mut desks, shift.desk);
    }
    desks
}

/// Shuts desks that have ended their jobs, and checks that their records are one legal history and
/// the words those of the office after it. Returns the records in turn order.
pub fn check_end(
    rt: &impl Abort,
    alloc: Global,
    plan: &Plan,
    fabric: Fabric,
    shifts: Vec<DeskAtWork>,
) -> Vec<Record>
    requires shifts { All (λ shift. IsDeskOf shift.desk fabric) shifts.items }
    requires count { vec_len shifts ≡ fabric.count }
{
    let mut records = Vec::new(alloc);
    let desks = part(rt, alloc, &fabric, shifts, &mut records);
    let Ok(words) = shut_all(alloc, fabric, desks) else {
        panic!(rt; "there is memory for the words");
    };
    records
        .as_mut_slice()
        .sort_unstable_by_key(|record| record.turn);
    check_history(rt, alloc, plan, "shut", &records, &words);
    records
}
