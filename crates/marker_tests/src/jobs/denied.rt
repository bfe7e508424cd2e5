//! A job that is denied a connector. It withdraws its request, frees what it holds, and begins
//! anew, with nothing counted.

use super::moving::{check_next, make_steps, program_of};
use super::*;

/// A dial tone job that is denied its group, either when it requests it or when it then tries to
/// seize it.
struct Denial {
    name: &'static str,
    marker: u32,
    /// How many steps are made before. The fourth is the request.
    made: u32,
    /// The group's word when the marker is denied, and once it has withdrawn its request.
    found: u64,
    left: u64,
    answer: Answer,
}

/// The requests of markers 2, 3 and 9.
const OF_MARKER_2: u64 = 1 << 10;

const OF_MARKER_3: u64 = 1 << 11;

const OF_MARKER_9: u64 = 1 << 17;

/// The word of a group that marker 7 holds.
const HELD: u64 = 8;

const DENIALS: [Denial; 4] = [
    Denial {
        name: "another holds it",
        marker: 0,
        made: 3,
        found: HELD,
        left: HELD,
        answer: Answer::Held(7),
    },
    Denial {
        name: "another has seized it since",
        marker: 9,
        made: 4,
        found: HELD + OF_MARKER_9,
        left: HELD,
        answer: Answer::Held(7),
    },
    Denial {
        name: "a lower one requests it",
        marker: 3,
        made: 3,
        found: OF_MARKER_2,
        left: OF_MARKER_2,
        answer: Answer::Preferred(2),
    },
    Denial {
        name: "a lower one has requested it since",
        marker: 3,
        made: 4,
        found: OF_MARKER_2 + OF_MARKER_3,
        left: OF_MARKER_2,
        answer: Answer::Preferred(2),
    },
];

/// The number of the group's word.
const WORD: usize = 436;

/// Denies the job its group, has it give back, and then lets it do its job.
fn check_denial(rt: &impl Abort, alloc: Global, plan: &Plan, denial: &Denial) {
    let (name, marker, made) = (denial.name, denial.marker, denial.made);
    assert!(rt; marker < 48 && made < 10);
    let mut words = [0; WORD_COUNT];
    let mut program = program_of(rt, plan, "D 3041");
    make_steps(&mut program, plan, marker, &mut words, made as usize);
    words[WORD] = denial.found;
    let answer = make_steps(&mut program, plan, marker, &mut words, 1);
    check_eq!(rt; answer, Some(denial.answer), name);
    check_next(rt, name, &program, Step::Withdraw(GROUP), made + 1);
    make_steps(&mut program, plan, marker, &mut words, 1);
    check_next(rt, name, &program, Step::Free(LINES), made + 2);
    make_steps(&mut program, plan, marker, &mut words, 1);
    check_next(rt, name, &program, Step::Request(LINES), 0);
    check_eq!(rt; (program.held().len(), program.requested()), (0, None), name);
    check_words(rt, alloc, name, &words, &[(WORD, denial.left)]);
    words[WORD] = 0;
    make_steps(&mut program, plan, marker, &mut words, 28);
    check_next(rt, name, &program, Step::Finished, 28);
    check_words(rt, alloc, name, &words, WITH_REGISTER);
}

#[test]
fn a_denied_job_gives_back_and_begins_anew(rt: HostRuntime) {
    let plan = example(&rt, rt.alloc());
    for denial in &DENIALS {
        check_denial(&rt, rt.alloc(), &plan, denial);
    }
}

/// A higher marker requests the connector between the request and the seizing, which is tried
/// again and then succeeds. Each try counts.
#[test]
fn a_changed_word_is_tried_again(rt: HostRuntime) {
    let plan = example(&rt, rt.alloc());
    let mut words = [0; WORD_COUNT];
    let mut program = program_of(&rt, &plan, "D 3041");
    make_steps(&mut program, &plan, 0, &mut words, 4);
    check_next(&rt, "requested", &program, Step::Seize(GROUP, 256), 4);
    words[WORD] = 256 + OF_MARKER_9;
    make_steps(&mut program, &plan, 0, &mut words, 1);
    let again = Step::Seize(GROUP, 256 + OF_MARKER_9);
    check_next(&rt, "tried again", &program, again, 5);
    make_steps(&mut program, &plan, 0, &mut words, 1);
    check_next(&rt, "seized", &program, Step::Test(WordNo::new(400)), 6);
    check_eq!(rt; words[WORD], 1 + OF_MARKER_9, "seized");
}
