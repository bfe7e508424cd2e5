//! Steps as operations on words, and a job that is restarted.

ghost use Rattle.std.specs.Prelude.{◌≡◌, ◌<◌, length};
ghost use Rattle.xbar_equip.specs.Word.{word_count};
ghost use Rattle.xbar_jobs.specs.Standing.{IsValid};

use crate::fixtures::{WITH_REGISTER, Words, check_words, example, job};
use attempts::{step_answer, step_operation};
use std::alloc::Global;
use std::process::Abort;
use test_tools::check_eq;
use turns::{Act, LockSharing, Phase};
use xbar_equip::{Conn, WORD_COUNT, WordNo};
use xbar_jobs::{Answer, HELD, OfficeEffect, Offices, Operation, Program, READINGS, Step};
use xbar_plan::Plan;

mod denied;
mod longest;
mod moving;

const LINES: Conn = Conn::Llf(3);

const GROUP: Conn = Conn::Group(0);

/// What a marker does in one step.
type OfficeAct = Act<Conn, OfficeEffect>;

/// A marker, its step, the value that it finds in its word, the value that it leaves there, and
/// the answer.
const STEPS: [(u32, OfficeAct, u64, u64, Answer); 20] = [
    // The lower marker is preferred, seizes at its second try, and holds the connector.
    (0, Act::Request(LINES), 0, 256, Answer::Asked(256)),
    (1, Act::Request(LINES), 256, 768, Answer::Preferred(0)),
    (0, Act::Seize(LINES, 256), 768, 768, Answer::Again(768)),
    (0, Act::Seize(LINES, 768), 768, 513, Answer::Seized),
    (1, Act::Withdraw(LINES), 513, 1, Answer::Done),
    (1, Act::Request(LINES), 1, 513, Answer::Held(0)),
    // The lower marker is preferred though it comes later.
    (1, Act::Request(LINES), 0, 512, Answer::Asked(512)),
    (0, Act::Request(LINES), 512, 768, Answer::Asked(768)),
    (1, Act::Seize(LINES, 512), 768, 768, Answer::Preferred(0)),
    // Marker 7 holds a connector.
    (1, Act::Request(GROUP), 8, 520, Answer::Held(7)),
    (1, Act::Withdraw(GROUP), 520, 8, Answer::Done),
    (1, Act::Free(LINES), 2, 0, Answer::Done),
    // The last marker.
    (47, Act::Request(LINES), 0, 1 << 55, Answer::Asked(1 << 55)),
    (47, Act::Seize(LINES, 1 << 55), 1 << 55, 48, Answer::Seized),
    (47, Act::Seize(LINES, 1 << 55), 8, 8, Answer::Held(7)),
    (47, Act::Withdraw(LINES), (1 << 55) + 1, 1, Answer::Done),
    (47, Act::Free(LINES), 304, 256, Answer::Done),
    // The turn number wraps around.
    (47, Act::Turn, 5, 6, Answer::Turn(5)),
    (47, Act::Turn, u64::MAX, 0, Answer::Turn(u64::MAX)),
    (47, Act::Finished, 7, 7, Answer::Done),
];

/// The phase of an attempt that makes this step next.
fn phase_of(step: OfficeAct) -> Phase<Conn, usize> {
    match step {
        Act::Request(conn) => Phase::Requests(conn),
        Act::Seize(conn, expected) => Phase::Seizes(conn, expected),
        Act::Withdraw(conn) => Phase::Withdraws(conn),
        Act::Test(word) => Phase::Tests(word),
        Act::Turn => Phase::Turns,
        Act::Free(_) | Act::Make(_) | Act::Finished => Phase::GivesBack,
    }
}

/// Checks what a step leaves in its word, and its answer.
fn check_step(
    rt: &impl Abort,
    plan: &Plan,
    marker: u32,
    step: OfficeAct,
    found: u64,
    left: u64,
    answer: Answer,
) {
    assert!(rt; marker < 48);
    let operation = step_operation::<Offices, READINGS, HELD>(plan, marker, step);
    let made = (
        operation.apply(found),
        step_answer(LockSharing::Preferring, marker, phase_of(step), found),
    );
    check_eq!(rt; made, (left, answer), "{step:?} on {found}");
}

#[test]
fn steps_are_operations_on_words(rt: HostRuntime) {
    let plan = example(&rt, rt.alloc());
    for (marker, step, found, left, answer) in STEPS {
        check_step(&rt, &plan, marker, step, found, left, answer);
    }
    check_step(&rt, &plan, 47, Act::Test(60), 22, 22, Answer::Value(22));
    // A close sets bits, and an open keeps bits.
    check_eq!(rt; Operation::Or(22).apply(256), 278);
    check_eq!(rt; Operation::And(240).apply(278), 16);
}

/// A dial tone job that has made no step.
fn begin(rt: &impl Abort, plan: &Plan) -> Program
    ensures { IsValid plan.now result.attempt }
{
    xbar_plan::laws::every_plan_is_lawful(plan);
    Program::new(job(rt, "D 3041"))
}

/// Makes `count` steps on the words, as far as there are any.
fn steps(program: &mut Program, plan: &Plan, words: &mut [u64], count: usize)
    requires plan { IsValid plan.now program.old.attempt }
    requires words { length words.old ≡ word_count }
    ensures plan { IsValid plan.now program.new.attempt }
    ensures words { length words.new ≡ word_count }
{
    for _made in 0..count {
        if !program.is_done() {
            let _answer = program.step(plan, 0, words);
        }
    }
}

/// The number of steps after which a dial tone job is restarted, its next step and its turn then,
/// and the number of steps that give back all that it holds, or that end it if it is past its
/// turn.
type Restart = (usize, Step, Option<u64>, usize);

fn restarts() -> [Restart; 9] {
    [
        (0, Step::Request(LINES), None, 0),
        (1, Step::Withdraw(LINES), None, 1),
        (2, Step::Free(LINES), None, 1),
        (4, Step::Withdraw(GROUP), None, 2),
        (7, Step::Withdraw(Conn::Tlf(4)), None, 3),
        (19, Step::Free(LINES), None, 3),
        (20, Step::Close(WordNo::new(60), 22), Some(0), 8),
        (25, Step::Free(LINES), Some(0), 3),
        (28, Step::Finished, Some(0), 0),
    ]
}

/// Restarts a job after some steps, and checks what it does then.
fn check_restart(rt: &impl Abort, alloc: Global, plan: &Plan, restart: &Restart) {
    let (made, next, turn, left) = *restart;
    let mut words = [0; WORD_COUNT];
    let mut program = begin(rt, plan);
    steps(&mut program, plan, &mut words, made);
    xbar_plan::laws::every_plan_is_lawful(plan);
    program.restart();
    check_eq!(rt; (program.next(), program.turn()), (next, turn), "after {made} steps");
    steps(&mut program, plan, &mut words, left);
    let (last, count, wanted): (Step, u32, Words<'_>) = match turn {
        None => (Step::Request(LINES), 0, &[]),
        Some(_) => (Step::Finished, 28, WITH_REGISTER),
    };
    check_eq!(rt; (program.next(), program.count()), (last, count), "after {made} steps");
    check_words(rt, alloc, "begun anew", &words, wanted);
}

#[test]
fn a_job_begins_anew_before_its_turn(rt: HostRuntime) {
    let plan = example(&rt, rt.alloc());
    for restart in &restarts() {
        check_restart(&rt, rt.alloc(), &plan, restart);
    }
}
