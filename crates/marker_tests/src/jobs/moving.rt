//! One marker's program, moved step by step.

ghost use Rattle.std.specs.Prelude.{◌≡◌, ◌<◌, length};
ghost use Rattle.xbar_equip.specs.Word.{word_count};
ghost use Rattle.xbar_jobs.specs.Standing.{IsValid};

use crate::fixtures::job;
use std::process::Abort;
use test_tools::check_eq;
use xbar_jobs::{Answer, Program, Step};
use xbar_plan::Plan;

/// The job of this text, that has made no step.
pub fn program_of(rt: &impl Abort, plan: &Plan, text: &str) -> Program
    ensures { IsValid plan.now result.attempt }
{
    xbar_plan::laws::every_plan_is_lawful(plan);
    Program::new(job(rt, text))
}

/// Makes `count` steps of the marker on the words, as far as there are any, and returns the last
/// answer.
pub fn make_steps(
    program: &mut Program,
    plan: &Plan,
    marker: u32,
    words: &mut [u64],
    count: usize,
) -> Option<Answer>
    requires marker { marker < 48 }
    requires plan { IsValid plan.now program.old.attempt }
    requires words { length words.old ≡ word_count }
    ensures plan { IsValid plan.now program.new.attempt }
    ensures words { length words.new ≡ word_count }
{
    let mut answer = None;
    for _made in 0..count {
        if !program.is_done() {
            answer = Some(program.step(plan, marker, words));
        }
    }
    answer
}

/// Checks the program's next step, and how many steps its attempt has made.
pub fn check_next(rt: &impl Abort, name: &str, program: &Program, next: Step, count: u32) {
    check_eq!(rt; (program.next(), program.count()), (next, count), name);
}
