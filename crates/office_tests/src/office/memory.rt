//! Refused memory. Each of these tests passes whichever allocation is refused.

use crate::fixtures::{path_of, record};
use std::alloc::Global;
use std::process::Abort;
use test_tools::{check, check_eq};
use xbar_equip::{Dialled, Path};
use xbar_office::{AuditFault, End, Job, Office, Record, Reply, audit};
use xbar_plan::Plan;

fn path(rt: &impl Abort, line: &str, channel: &str, place: &str) -> Path {
    path_of(line, channel, place).expect(rt, "these are a path's texts")
}

fn dialled(turn: u64, path: Path) -> Record {
    record(turn, Job::Dial(path.line), End::DialTone { path, trial: 1 })
}

fn connected(turn: u64, digits: Dialled, calling: Path, called: Path) -> Record {
    let job = Job::Complete(calling.line, digits);
    let end = End::Connected {
        calling,
        called: Some(called),
        trial: 1,
    };
    record(turn, job, end)
}

/// Three lines get all registers, and then two of them call inside the example office. The first
/// job needs memory, and so does the last, after it has released its register.
fn records(rt: &impl Abort) -> [Record; 5] {
    let calling = path(rt, "3041", "0", "600");
    let called = path(rt, "3100", "1", "601");
    let second_calling = path(rt, "2000", "0", "700");
    let second_called = path(rt, "1000", "0", "711");
    [
        dialled(0, path(rt, "3041", "0", "417")),
        dialled(1, path(rt, "2000", "1", "418")),
        dialled(2, path(rt, "5000", "0", "509")),
        connected(3, Dialled::new(2_340_004), calling, called),
        connected(4, Dialled::new(2_340_003), second_calling, second_called),
    ]
}

/// The first five paths of an office, without an allocation.
fn first_paths(office: &Office<'_>) -> [Option<Path>; 5] {
    let paths = office.paths();
    [0usize, 1, 2, 3, 4].map(|place| paths.get(place).copied())
}

/// Does a job. If memory is refused, checks that the paths are unchanged, and does the job again.
fn whole(rt: &impl Abort, office: &mut Office<'_>, job: &Job) -> Reply {
    let before = first_paths(office);
    if let Ok(reply) = office.whole(*job) {
        return reply;
    }
    check!(rt; first_paths(office) == before);
    office.whole(*job).expect(rt, "memory is refused once")
}

fn check_job(rt: &impl Abort, office: &mut Office<'_>, record: &Record) {
    let reply = whole(rt, office, &record.job);
    check!(rt; reply == record.reply, record.turn);
}

fn check_jobs(rt: &impl Abort, office: &mut Office<'_>) {
    for record in &records(rt) {
        check_job(rt, office, record);
    }
    check_eq!(rt; office.paths().len(), 5);
}

#[test]
fn a_job_that_was_refused_memory_is_done_right_once_more(rt: HostRuntime) {
    if let Ok(plan) = Plan::example(rt.alloc()) {
        check_jobs(&rt, &mut Office::open(rt.alloc(), &plan));
    }
}

fn check_audit(rt: &impl Abort, alloc: Global, plan: &Plan) {
    match audit(alloc, plan, &records(rt)) {
        Err(fault) => check_eq!(rt; fault, AuditFault::Memory),
        Ok(office) => check_eq!(rt; office.paths().len(), 5),
    }
}

#[test]
fn an_audit_is_refused_memory_or_right(rt: HostRuntime) {
    if let Ok(plan) = Plan::example(rt.alloc()) {
        check_audit(&rt, rt.alloc(), &plan);
    }
}
