//! The text of a full plan, read over and over.

ghost use Rattle.std.specs.Prelude.{◌<◌};

use crate::timing::nanoseconds_each;
use std::alloc::{AllocError, Global};
use std::fmt::Write;
use std::io;
use std::rt::Clock;
use std::time::Instant;
use xbar_plan::Plan;
use xbar_plan_text::PlanText;

/// The number of times that the text is read.
pub const READINGS: u32 = 200;

/// Writes a group of forty members: registers, or trunks to other offices.
fn push_group(text: &mut String, group: u32) -> Result<(), AllocError>
    requires { group < 16 }
{
    let kind = if group == 0 { "register" } else { "outgoing" };
    write!(text, "\"G{group} {kind}")?;
    let first = 40 * group;
    for place in first..first + 40 {
        write!(text, " {place:03}")?;
    }
    text.push_str("\",")
}

/// The text of a plan with 16 groups of 40 members, 3,000 numbers, 64 codes and 100 faults.
pub fn full_plan(alloc: Global) -> Result<String, AllocError> {
    let mut text = String::from_str(alloc, "version = 1\ngroups = [")?;
    for group in 0..16 {
        push_group(&mut text, group)?;
    }
    text.push_str("]\nnumbers = [")?;
    for number in 0..3000 {
        write!(text, "\"{number:04} 3041\",")?;
    }
    text.push_str("]\ncodes = [")?;
    for code in 0..64 {
        write!(text, "\"{code:03} G1 G2 G3 G4\",")?;
    }
    text.push_str("]\nfaults = [")?;
    for fault in 0..100 {
        write!(text, "\"JU{fault:03}\",")?;
    }
    text.push_str("]\n")?;
    Ok(text)
}

/// Reads the text `readings` times, and returns the number of plans that this made.
pub fn work(alloc: Global, text: &str, readings: u32) -> u32 {
    let mut plans: u32 = 0;
    for _reading in 0..readings {
        if Plan::read(alloc, text.as_bytes()).is_ok() {
            plans = plans.saturating_add(1);
        }
    }
    plans
}

/// Reads a full plan over and over, and prints the time of a reading.
pub fn measure<R: Print + Eprint + Clock>(rt: &R, alloc: Global) -> io::Result<()> {
    let text = full_plan(alloc)?;
    let start = Instant::now(rt)?;
    let plans = work(alloc, text.as_str(), READINGS);
    let time = start.elapsed(rt)?;
    println!(rt; "plans: {plans} plans")?;
    eprintln!(rt;
        "{} microseconds a plan",
        nanoseconds_each(time, 1, u64::from(plans)) / 1000
    )
}
