//! The records that offices report, and desks that are shut all at once.

use super::*;
use crate::fixtures::{check_history, kinds_of};
use xbar_fabric::{Fabric, shut_all};
use xbar_office::Record;

const JOBS: &[&str] = &["D 3041", "C 3041 2340004", "D 1000", "R 3100", "D 3100"];

/// Has marker 0 do a job to its end, and returns the record that it reports.
fn told<O: Driven>(rt: &impl Abort, office: &mut O, job_no: u32, text: &str) -> Record {
    assign(rt, office, 0, job_no, text);
    for _made in 0..MOST_STEPS_ALONE {
        if let Event::Finished(record) = office.go_on(0) {
            return record;
        }
    }
    panic!(rt; "the job comes to no end");
}

/// Checks that the reported records are those of one legal history, and that the words show its
/// set.
fn check_told<O: Driven>(rt: &impl Abort, alloc: Global, plan: &Plan, mut office: O) {
    let mut log = Vec::new(alloc);
    for (job_no, text) in (1..).zip(JOBS) {
        let record = told(rt, &mut office, job_no, text);
        check_eq!(rt; (record.job_no, record.job), (job_no, job(rt, text)), text);
        log.push(record).expect(rt, "there is memory for a record");
    }
    check_eq!(rt; outcome_of(&office.go_on(0)), StepOutcome::Idle, "all is done");
    check_history(rt, alloc, plan, "five jobs", &log, &office.shut(rt, alloc));
}

#[test]
fn records_that_are_told_are_a_history(rt: HostRuntime) {
    let alloc = rt.alloc();
    let plan = example(&rt, alloc);
    check_told(&rt, alloc, &plan, open_exchange(&rt, alloc, &plan, TWO));
    check_told(&rt, alloc, &plan, open_desks(&rt, alloc, &plan, TWO));
}

/// The words of an office whose new desks are shut all at once.
fn words_of_new_desks(rt: &impl Abort, alloc: Global, plan: &Plan, kinds: &[Kind]) -> Vec<u64> {
    let kinds = kinds_of(rt, kinds);
    let (fabric, desks) = Fabric::open(alloc, plan, &kinds).expect(rt, "an office is opened");
    let Ok(words) = shut_all(alloc, fabric, desks) else {
        panic!(rt; "there is memory for the words");
    };
    words
}

#[test]
fn new_desks_are_shut_together(rt: HostRuntime) {
    let plan = example(&rt, rt.alloc());
    let words = words_of_new_desks(&rt, rt.alloc(), &plan, &[Kind::Dial; 48]);
    check_words(&rt, rt.alloc(), "new desks", &words, &[]);
}
