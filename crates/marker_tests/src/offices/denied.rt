//! A marker that stopped midway, and another that is denied what the first one holds.

use super::*;

/// The least and the greatest number of steps of marker 0 after which marker 1 is first denied in
/// this way.
const DENIALS: &[(u32, u32, Option<StepOutcome>)] = &[
    (0, 3, None),
    (4, 4, Some(StepOutcome::Preferred(0))),
    (5, 26, Some(StepOutcome::Refused(Conn::Group(0), 0))),
    (27, 27, Some(StepOutcome::Refused(Conn::Tlf(4), 0))),
    (28, 28, None),
];

/// The first time that marker 1 is denied on its way to the end of its job.
fn first_denied<O: Driven>(rt: &impl Abort, office: &mut O) -> Option<StepOutcome> {
    for _made in 0..MOST_STEPS_ALONE {
        match outcome_of(&office.go_on(1)) {
            StepOutcome::Idle | StepOutcome::Moved => {}
            StepOutcome::Finished(_) => return None,
            denied => return Some(denied),
        }
    }
    panic!(rt; "the job comes to no end");
}

/// Checks how marker 1 is first denied after `count` steps of marker 0.
fn is_denied<O: Driven>(rt: &impl Abort, mut office: O, count: u32, wanted: &Option<StepOutcome>) {
    begin_both(rt, &mut office, count, 0);
    check_eq!(rt; first_denied(rt, &mut office), *wanted, "after {count} steps");
}

#[test]
fn another_marker_is_denied(rt: HostRuntime) {
    let alloc = rt.alloc();
    let plan = example(&rt, alloc);
    for (least, most, first) in DENIALS {
        for count in *least..=*most {
            is_denied(&rt, open_exchange(&rt, alloc, &plan, TWO), count, first);
            is_denied(&rt, open_desks(&rt, alloc, &plan, TWO), count, first);
        }
    }
}
