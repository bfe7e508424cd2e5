//! The office that an audit of legal records leaves.

use crate::fixtures::{example, near_path, record};
use std::alloc::Global;
use std::process::Abort;
use test_tools::{check, check_eq};
use xbar_equip::Crosspoint;
use xbar_office::{End, Job, Record, audit};

/// The words, the fields and the values of the crosspoints that a first dial tone leaves.
const OF_A_DIAL_TONE: &[(u16, u8, u8)] = &[(60, 0, 22), (70, 4, 1), (290, 3, 2), (281, 0, 8)];

fn is_one_of(crosspoint: &Crosspoint, all: &[(u16, u8, u8)]) -> bool {
    let numbers = (crosspoint.word.number(), crosspoint.field, crosspoint.value);
    all.contains(&numbers)
}

/// Checks how many paths the records leave, and that these are their crosspoints.
fn check_left(
    rt: &impl Abort,
    alloc: Global,
    records: &[Record],
    paths: usize,
    wanted: &[(u16, u8, u8)],
) {
    let plan = example(rt, alloc);
    let office = audit(alloc, &plan, records).expect(rt, "the records are legal");
    let closed = office
        .crosspoints(alloc)
        .expect(rt, "there is memory for crosspoints");
    let counts = (office.paths().len(), closed.len());
    check_eq!(rt; counts, (paths, wanted.len()), "paths and crosspoints");
    for crosspoint in closed.iter() {
        check!(rt; is_one_of(crosspoint, wanted), "{crosspoint:?}");
    }
}

#[test]
fn no_record_leaves_an_empty_office(rt: HostRuntime) {
    check_left(&rt, rt.alloc(), &[], 0, &[]);
}

#[test]
fn a_dial_tone_leaves_its_four_crosspoints(rt: HostRuntime) {
    let path = near_path();
    let tone = record(0, Job::Dial(path.line), End::DialTone { path, trial: 1 });
    check_left(&rt, rt.alloc(), &[tone], 1, OF_A_DIAL_TONE);
}
