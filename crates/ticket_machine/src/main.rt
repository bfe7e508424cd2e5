//! A template for a program: desks on threads do jobs at once, each with a log, and then their room
//! is shut. It prints the same in each run.
#![tactic(auto)]

use desks::Room;
use std::io;
use ticket_desks::TicketJobs;
use tickets::Job;
use workers::{Pausing, do_all, shut_if_idle};

// change: how many desks there are, and how many jobs each does
const DESKS: u32 = 4;

const JOBS: u64 = 1_000;

fn main(rt: HostRuntime) -> io::Result<()> {
    let alloc = rt.alloc();
    let (room, desks) = Room::<TicketJobs>::open(alloc, &(), DESKS)?;
    // change: the next job of a desk that has done so many
    let next = |_desk, done| (done < JOBS).then_some(Job::Take);
    let shifts = do_all(&rt, alloc, &room, &(), desks, &next, &Pausing::SHORT)?;
    // change: what is printed of the logs, and of the words that are left
    for shift in shifts.as_slice() {
        println!(rt; "a desk took {} numbers", shift.log.len())?;
    }
    match shut_if_idle(alloc, room, &(), shifts) {
        Ok(words) => println!(rt; "the words in the end: {words:?}"),
        Err(_) => println!(rt; "a desk is still at a job"),
    }
}
