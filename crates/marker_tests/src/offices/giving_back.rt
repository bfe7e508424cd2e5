//! A marker is asked to give back after each number of steps of its job.

use super::*;

/// A job of marker 0 that takes its turn with step `turn` and ends with step `end`.
struct Case {
    /// The jobs that are done before it.
    before: &'static [&'static str],
    job: &'static str,
    turn: u32,
    end: u32,
    /// The words that are not 0 before it, and once it is done.
    found: Words<'static>,
    done: Words<'static>,
}

const CASES: &[Case] = &[
    Case {
        before: &[],
        job: "D 3041",
        turn: 20,
        end: 28,
        found: &[],
        done: WITH_REGISTER,
    },
    Case {
        before: &["D 3041"],
        job: "C 3041 5551234",
        turn: 26,
        end: 41,
        found: WITH_REGISTER,
        done: WITH_TRUNK,
    },
    Case {
        before: &["D 3041"],
        job: "C 3041 2340004",
        turn: 27,
        end: 46,
        found: WITH_REGISTER,
        done: WITH_BOTH,
    },
    Case {
        before: &["D 3041", "C 3041 5551234"],
        job: "R 3041",
        turn: 11,
        end: 19,
        found: WITH_TRUNK,
        done: &[(452, 3)],
    },
];

impl Case {
    /// The expected outcome of giving back after `count` steps, and the words in the end.
    fn wanted_after(&self, count: u32) -> (Given, Words<'static>) {
        if count < self.turn {
            (Given::Given, self.found)
        } else if count < self.end {
            (Given::PastTurn, self.done)
        } else {
            (Given::Idle, self.done)
        }
    }
}

/// Checks that a marker that gave back holds nothing, and that one past its turn goes on to its
/// end.
fn gives_back<O: Driven>(rt: &impl Abort, alloc: Global, mut office: O, case: &Case, count: u32) {
    for text in case.before {
        assign(rt, &mut office, 0, 1, text);
        go_on_for(&mut office, 0, MOST_STEPS_ALONE);
    }
    assign(rt, &mut office, 0, 2, case.job);
    go_on_for(&mut office, 0, count);
    let (given, words) = case.wanted_after(count);
    check_eq!(rt; office.ask_back(0), given, "{} after {count} steps", case.job);
    let mut again = given;
    if given == Given::PastTurn {
        go_on_for(&mut office, 0, case.end.saturating_sub(count));
        again = Given::Idle;
    }
    check_eq!(rt; office.ask_back(0), again, "{} after {count} steps", case.job);
    check_shut(rt, alloc, case.job, office, words);
}

#[test]
fn a_job_gives_back_before_its_turn(rt: HostRuntime) {
    let alloc = rt.alloc();
    let plan = example(&rt, alloc);
    for case in CASES {
        for count in 0..=case.end {
            gives_back(
                &rt,
                alloc,
                open_exchange(&rt, alloc, &plan, TWO),
                case,
                count,
            );
            gives_back(&rt, alloc, open_desks(&rt, alloc, &plan, TWO), case, count);
        }
    }
}
