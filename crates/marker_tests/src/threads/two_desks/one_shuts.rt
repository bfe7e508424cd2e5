//! One of two desks shuts the office, in which one of them is amid a job.

ghost use Rattle.xbar_fabric.specs.Views.{IsDeskOf};

use super::*;
use crate::fixtures::{check_history, job};
use xbar_fabric::{Desk, shut};
use xbar_office::Record;

/// Words of connectors, with what marker 0 leaves in them by eleven steps of a call to another
/// office: it holds its line link frame, its register's trunk link frame and the registers, and
/// requests the trunks.
const TAKEN: [(usize, u64); 4] = [(419, 1), (430, 1), (436, 1), (438, 256)];

/// Makes eleven steps of a call. The line has a register.
fn begin_call(rt: &impl Abort, fabric: &Fabric, shift: &mut DeskAtWork)
    requires { IsDeskOf shift.old.desk fabric.now }
    ensures { IsDeskOf shift.new.desk fabric.now }
{
    let assigned = shift.desk.assign(2, job(rt, "C 3041 5551234"));
    check_eq!(rt; assigned, Ok(()), "an idle desk takes the call");
    check_eq!(rt; run_on(fabric, shift, 11), false, "the call isn't done");
}

/// The records of both desks, in turn order.
fn gather(
    rt: &impl Abort,
    alloc: Global,
    zero: &mut Vec<Record>,
    one: &mut Vec<Record>,
) -> Vec<Record> {
    let mut records = Vec::new(alloc);
    if records.append(zero).is_err() || records.append(one).is_err() {
        panic!(rt; "there is memory for records");
    }
    records
        .as_mut_slice()
        .sort_unstable_by_key(|record| record.turn);
    records
}

/// Shuts the office with one of its desks.
fn words_of(rt: &impl Abort, alloc: Global, fabric: Fabric, desk: Desk) -> Vec<u64>
    requires { IsDeskOf desk fabric }
{
    let Ok(words) = shut(alloc, fabric, desk) else {
        panic!(rt; "there is memory for the words");
    };
    words
}

/// Checks what the call has left in the words of its connectors, and clears them.
fn check_taken(rt: &impl Abort, words: &mut [u64]) {
    for (number, wanted) in TAKEN {
        let Some(word) = words.get_mut(number) else {
            panic!(rt; "there are 453 words");
        };
        check_eq!(rt; *word, wanted, "word {number}");
        *word = 0;
    }
}

/// Two threads dial. Then desk 0 begins a call, and a desk shuts the office: desk 0 if `is_busy`,
/// else desk 1. But for the connectors of the call, the words are those of the office after both
/// dial tones.
fn check_shut_amid<R: Threads + Sync + Abort>(rt: &R, alloc: Global, plan: &Plan, is_busy: bool) {
    let (fabric, desks) = open_fabric(rt, alloc, plan, &[Kind::Combined; 2]);
    let mut shifts = on_threads(rt, alloc, &fabric, desks, Task::Dial(10_000));
    let mut one = last_at_work(rt, &fabric, &mut shifts);
    let mut zero = last_at_work(rt, &fabric, &mut shifts);
    settle(rt, &fabric, &mut zero, &mut one);
    let records = gather(rt, alloc, &mut zero.log, &mut one.log);
    begin_call(rt, &fabric, &mut zero);
    let mut words = if is_busy {
        words_of(rt, alloc, fabric, zero.desk)
    } else {
        words_of(rt, alloc, fabric, one.desk)
    };
    check_taken(rt, words.as_mut_slice());
    check_eq!(rt; records.len(), 2, "both lines have dial tone");
    check_history(rt, alloc, plan, "one desk shuts", &records, &words);
}

#[test]
fn a_desk_shuts_amid_a_job(rt: HostRuntime) {
    let plan = example(&rt, rt.alloc());
    for _made in 0..20 {
        for is_busy in [true, false] {
            check_shut_amid(&rt, rt.alloc(), &plan, is_busy);
        }
    }
}
