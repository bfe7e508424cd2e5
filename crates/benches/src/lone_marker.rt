//! One marker that does jobs over and over, on words that are plain data.

ghost use Rattle.std.specs.Prelude.{◌≡◌, length};
ghost use Rattle.xbar_equip.specs.Word.{word_count};
ghost use Rattle.xbar_jobs.specs.Standing.{IsValid};

use crate::timing::nanoseconds_each;
use std::io;
use std::rt::Clock;
use std::time::Instant;
use xbar_equip::{Dialled, Len, WORD_COUNT};
use xbar_jobs::Program;
use xbar_office::Job;
use xbar_plan::Plan;

/// A bound on the steps of an attempt that is never denied a connector.
const STEPS: u32 = 128;

fn begin(plan: &Plan, job: Job) -> Program
    ensures { IsValid plan.now result.attempt }
{
    // Called for its clauses alone.
    xbar_plan::laws::every_plan_is_lawful(plan);
    Program::new(job)
}

/// How the marker makes its steps.
#[derive(Clone, Copy)]
pub enum Pace {
    /// Each step by itself, as on words that other markers change too.
    Steps,
    /// As many steps in a row as its program can make, since no other marker makes any in between.
    Runs,
}

/// Does the job on the words, and returns the number of steps made. The contract says of the words
/// only that their number stays the same.
pub fn serve(plan: &Plan, words: &mut [u64], job: Job, pace: Pace) -> u32
    requires { length words.old ≡ word_count }
    ensures { length words.new ≡ word_count }
{
    let mut program = begin(plan, job);
    for _made in 0..STEPS {
        if let Pace::Runs = pace {
            program.run(plan, 0, words, STEPS);
        }
        if program.is_done() {
            break;
        }
        let _answer = program.step(plan, 0, words);
    }
    program.count()
}

/// A workload that the marker does over and over.
#[derive(Clone, Copy)]
pub struct Drill {
    name: &'static str,
    pub rounds: u32,
    /// Whether a round is a call: a line gets a register, is joined to a trunk, and releases. If
    /// not, the line only gets a register, each time in an office without paths.
    is_call: bool,
}

pub const DIALS: Drill = Drill {
    name: "dials",
    rounds: 20_000,
    is_call: false,
};

pub const CALLS: Drill = Drill {
    name: "calls",
    rounds: 10_000,
    is_call: true,
};

impl Drill {
    /// Makes `rounds` rounds, and returns the number of steps that these took.
    pub fn work(self, plan: &Plan, rounds: u32, pace: Pace) -> u64 {
        let line = Len::new(3, 0, 21);
        let complete = Job::Complete(line, Dialled::new(5_551_234));
        let call = [Job::Dial(line), complete, Job::Release(line)];
        let jobs = if self.is_call { &call[..] } else { &call[..1] };
        let mut words = [0; WORD_COUNT];
        let mut steps: u64 = 0;
        for _round in 0..rounds {
            if !self.is_call {
                words.fill(0);
            }
            for job in jobs {
                let made = serve(plan, &mut words, *job, pace);
                steps = steps.saturating_add(u64::from(made));
            }
        }
        steps
    }

    /// Prints the number of steps.
    pub fn print(self, rt: &impl Print, steps: u64, pace: Pace) -> io::Result<()> {
        let how = match pace {
            Pace::Steps => "steps",
            Pace::Runs => "steps in runs",
        };
        println!(rt; "{}: {steps} {how}", self.name)
    }

    /// Makes all rounds at each pace, and prints the time of a step.
    pub fn measure<R: Print + Eprint + Clock>(self, rt: &R, plan: &Plan) -> io::Result<()> {
        for pace in [Pace::Steps, Pace::Runs] {
            let start = Instant::now(rt)?;
            let steps = self.work(plan, self.rounds, pace);
            let time = start.elapsed(rt)?;
            self.print(rt, steps, pace)?;
            eprintln!(rt; "{} ns a step", nanoseconds_each(time, 1, steps))?;
        }
        Ok(())
    }
}
