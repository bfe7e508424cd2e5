//! Measures how fast jobs are done, and how fast a plan is read. The first argument says what is
//! measured, and the second how much of it: see `USAGE`. Without arguments, a short run does work
//! whose counts are always the same. Counts go to standard output, and times to standard error.
#![tactic(auto)]

ghost use Rattle.std.specs.Prelude.{◌<◌, ◌≤◌, IfSome};

mod bank_threads;
mod live;
mod lone_marker;
mod markers;
mod notes;
mod plans;
mod slot_threads;
mod threads;
mod timing;

use lone_marker::{CALLS, DIALS, Pace};
use std::alloc::Global;
use std::process::ExitCode;
use std::rt::Clock;
use std::sync::Wait;
use std::thread::Threads;
use std::{env, io};
use xbar_plan::Plan;

const USAGE: &str = "usage: benches [dials | calls | core [MARKERS] | plans | notes [THOUSANDS] \
                     | slots [THOUSANDS] | bank [THOUSANDS] | groups [SHARDS] \
                     | threads [THOUSANDS] | live [HUNDREDS]]";

/// Does a tenth of each work whose counts are always the same, and prints these counts, by which
/// two builds of the program can be compared.
fn print_counts<R: Print + Threads + Wait + Sync>(
    rt: &R,
    alloc: Global,
    plan: &Plan,
) -> io::Result<()> {
    for pace in [Pace::Steps, Pace::Runs] {
        for drill in [DIALS, CALLS] {
            drill.print(rt, drill.work(plan, drill.rounds / 10, pace), pace)?;
        }
    }
    let done = markers::work(alloc, plan, 1, markers::JOBS / 10);
    println!(rt; "core: {} jobs in {} steps", done.jobs, done.steps)?;
    let text = plans::full_plan(alloc)?;
    let plans = plans::work(alloc, text.as_str(), plans::READINGS / 10);
    println!(rt; "plans: {plans} plans")?;
    bank_threads::print_sums(rt, alloc)
}

/// Reads a number from an argument and clamps it to 1..=`most`. Without an argument the number is
/// `usual`. None if the argument isn't a number.
fn count(word: Option<&str>, usual: u32, most: u32) -> Option<u32>
    requires { 0 < most }
    ensures { IfSome result (λ count. (0 < count) × (count ≤ most)) }
{
    let count = match word {
        None => usual,
        Some(word) => word.parse::<u32>().ok()?,
    };
    Some(count.clamp(1, most))
}

/// Measures what the arguments ask for, under this plan. None if they aren't as `USAGE` says.
fn measure<R: Print + Eprint + Clock + Threads + Wait + Sync>(
    rt: &R,
    alloc: Global,
    plan: &Plan,
    what: Option<&str>,
    number: Option<&str>,
) -> Option<io::Result<()>> {
    let measured = match what {
        None => print_counts(rt, alloc, plan),
        Some("dials") => DIALS.measure(rt, plan),
        Some("calls") => CALLS.measure(rt, plan),
        Some("core") => markers::measure(rt, alloc, plan, count(number, 1, 10)?),
        Some("plans") => plans::measure(rt, alloc),
        Some("notes") => notes::measure(rt, alloc, count(number, 100, 100_000)?),
        Some("slots") => slot_threads::measure(rt, alloc, count(number, 100, 100_000)?),
        Some("bank") => bank_threads::measure(rt, alloc, count(number, 100, 100_000)?),
        Some("groups") => bank_threads::measure_groups(rt, alloc, count(number, 17, 64)? as u8),
        Some("threads") => threads::measure(rt, alloc, plan, count(number, 100, 100_000)?),
        Some("live") => live::measure(rt, alloc, plan, count(number, 3, 1000)?),
        Some(_) => return None,
    };
    Some(measured)
}

fn main(rt: HostRuntime) -> io::Result<ExitCode> {
    let plan = Plan::example(rt.alloc())?;
    let mut words = env::args(&rt)?.skip(1);
    let what = words.next();
    let number = words.next();
    let measured = measure(&rt, rt.alloc(), &plan, what.as_deref(), number.as_deref());
    match measured {
        Some(measured) => measured.map(|()| ExitCode::SUCCESS),
        None => {
            eprintln!(rt; "{USAGE}")?;
            Ok(ExitCode::FAILURE)
        }
    }
}
