//! Paths, plans and records that several tests use.

use std::alloc::Global;
use std::fmt::Display;
use std::process::Abort;
use test_tools::check_eq;
use xbar_equip::{Channel, EquipFault, Len, Path, Ten};
use xbar_office::{End, Job, Record, Reply};
use xbar_plan::Plan;
use xbar_plan_text::PlanText;

/// The path 3041-0-417: dial tone for line 3041 in the example office.
pub fn near_path() -> Path {
    Path {
        line: Len::new(3, 0, 21),
        channel: Channel::new(0),
        place: Ten::new(4, 1, 7),
    }
}

/// The path with these texts of its line, channel and place.
pub fn path_of(line: &str, channel: &str, place: &str) -> Result<Path, EquipFault> {
    Ok(Path {
        line: Len::parse(line.as_bytes())?,
        channel: Channel::parse(channel.as_bytes())?,
        place: Ten::parse(place.as_bytes())?,
    })
}

/// Checks the text that a value prints.
pub fn check_printed<T: Display>(rt: &impl Abort, alloc: Global, told: &T, wanted: &str) {
    let text = told
        .to_string(alloc)
        .expect(rt, "there is memory for a text");
    check_eq!(rt; text.as_str(), wanted);
}

/// The example plan.
pub fn example(rt: &impl Abort, alloc: Global) -> Plan {
    Plan::example(alloc).expect(rt, "there is memory for a plan")
}

/// The plan of a text.
pub fn read_plan(rt: &impl Abort, alloc: Global, text: &str) -> Plan {
    Plan::read(alloc, text.as_bytes()).expect(rt, "this is a plan")
}

/// The record of a job of marker 0, with the number 1, that met no faulty link.
pub fn record(turn: u64, job: Job, end: End) -> Record {
    Record {
        turn,
        marker: 0,
        job_no: 1,
        job,
        reply: Reply::plain(end),
    }
}
