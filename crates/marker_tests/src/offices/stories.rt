//! Moves that markers make, one after another, and their outcomes.

use super::*;

/// What happens next. Each but `Meet` begins with the number of the marker.
enum Move {
    /// The marker is assigned a job under a number.
    Begin(u32, u32, &'static str),
    /// The marker is refused a job, for this reason.
    Refuse(u32, &'static str, AssignFault),
    /// A number of steps are made, each of them `StepOutcome::Moved`.
    Moved(u32, u32),
    /// A step has this outcome.
    Step(u32, StepOutcome),
    GiveBack(u32, Given),
    HasNoJob(u32, bool),
    Meet,
}

/// Moves in an office with markers of these kinds.
struct Story {
    name: &'static str,
    kinds: &'static [Kind],
    moves: &'static [Move],
    /// After this number of moves only these words are not 0.
    looks: &'static [(usize, Words<'static>)],
}

const STORIES: &[Story] = &[
    Story {
        name: "the lower marker is preferred",
        kinds: TWO,
        moves: &[
            Move::Begin(0, 1, "D 3041"),
            Move::Begin(1, 2, "D 3052"),
            Move::Moved(0, 1),
            Move::Step(1, StepOutcome::Preferred(0)),
            Move::Moved(0, 1),
            Move::Moved(0, 1),
            Move::Moved(1, 1),
            Move::Step(1, StepOutcome::Refused(Conn::Llf(3), 0)),
            Move::Moved(1, 1),
        ],
        looks: &[
            (3, &[(419, 256)]),
            (4, &[(419, 768)]),
            (5, &[(419, 768)]),
            (6, &[(419, 513)]),
            (7, &[(419, 1)]),
            (8, &[(419, 513)]),
            (9, &[(419, 1)]),
        ],
    },
    Story {
        name: "the lower marker is preferred though it comes later",
        kinds: TWO,
        moves: &[
            Move::Begin(0, 1, "D 3041"),
            Move::Begin(1, 2, "D 3052"),
            Move::Moved(1, 1),
            Move::Moved(0, 1),
            Move::Step(1, StepOutcome::Preferred(0)),
            Move::Moved(0, 1),
        ],
        looks: &[
            (3, &[(419, 512)]),
            (4, &[(419, 768)]),
            (5, &[(419, 768)]),
            (6, &[(419, 513)]),
        ],
    },
    Story {
        name: "the last marker has the highest request",
        kinds: &[Kind::Combined; 48],
        moves: &[Move::Begin(47, 1, "D 3041"), Move::Moved(47, 1)],
        looks: &[(2, &[(419, 1 << 55)])],
    },
    Story {
        name: "a held connector puts a marker off, and both give back",
        kinds: TWO,
        moves: &[
            Move::Begin(0, 1, "D 3041"),
            Move::Begin(1, 2, "D 1000"),
            Move::Moved(0, 6),
            Move::Moved(1, 3),
            Move::Step(1, StepOutcome::Refused(Conn::Group(0), 0)),
            Move::Moved(1, 4),
            Move::GiveBack(0, Given::Given),
            Move::GiveBack(1, Given::Given),
            Move::Meet,
            Move::GiveBack(0, Given::Given),
        ],
        looks: &[(6, &[(417, 2), (419, 1), (436, 1)]), (9, &[]), (10, &[])],
    },
    Story {
        name: "a request is withdrawn",
        kinds: TWO,
        moves: &[
            Move::Begin(0, 1, "D 3041"),
            Move::Begin(1, 2, "D 3052"),
            Move::Moved(1, 1),
            Move::GiveBack(1, Given::Given),
            Move::HasNoJob(1, false),
        ],
        looks: &[(3, &[(419, 512)]), (5, &[])],
    },
    Story {
        name: "the last step finishes",
        kinds: TWO,
        moves: &[
            Move::Begin(0, 1, "D 3041"),
            Move::Moved(0, 27),
            Move::Step(0, StepOutcome::Finished(1)),
            Move::Step(0, StepOutcome::Idle),
            Move::HasNoJob(0, true),
        ],
        looks: &[(5, WITH_REGISTER)],
    },
    Story {
        name: "a busy marker is told before the kind of its job",
        kinds: &[Kind::Dial, Kind::Completing],
        moves: &[
            Move::Refuse(0, "R 3041", AssignFault::WrongKind),
            Move::HasNoJob(0, true),
            Move::GiveBack(0, Given::Idle),
            Move::Begin(0, 1, "D 3041"),
            Move::Refuse(0, "D 3052", AssignFault::NotIdle),
            Move::Refuse(0, "R 3041", AssignFault::NotIdle),
            Move::HasNoJob(0, false),
            Move::Refuse(1, "D 3041", AssignFault::WrongKind),
            Move::HasNoJob(1, true),
            Move::GiveBack(1, Given::Idle),
        ],
        looks: &[(10, &[])],
    },
];

/// Makes a move, and checks its outcome.
fn make<O: Driven>(rt: &impl Abort, office: &mut O, name: &str, next: &Move) {
    match next {
        Move::Begin(marker, job_no, text) => assign(rt, office, *marker, *job_no, text),
        Move::Refuse(marker, text, fault) => {
            check_eq!(rt; office.assign_to(*marker, 9, job(rt, text)), Err(*fault), name);
        }
        Move::Moved(marker, count) => {
            for _made in 0..*count {
                check_eq!(rt; outcome_of(&office.go_on(*marker)), StepOutcome::Moved, name);
            }
        }
        Move::Step(marker, wanted) =>
            check_eq!(rt; outcome_of(&office.go_on(*marker)), *wanted, name),
        Move::GiveBack(marker, given) => check_eq!(rt; office.ask_back(*marker), *given, name),
        Move::HasNoJob(marker, is_so) => check_eq!(rt; office.has_no_job(*marker), *is_so, name),
        Move::Meet => office.meet(),
    }
}

/// Has a new office make the first `made` moves of the story, shuts it, and checks that only these
/// words are not 0.
fn look<O: Driven>(
    rt: &impl Abort,
    alloc: Global,
    mut office: O,
    story: &Story,
    made: usize,
    wanted: Words<'_>,
) {
    for next in story.moves.iter().take(made) {
        make(rt, &mut office, story.name, next);
    }
    check_shut(rt, alloc, story.name, office, wanted);
}

#[test]
fn markers_do_as_in_the_stories(rt: HostRuntime) {
    let alloc = rt.alloc();
    let plan = example(&rt, alloc);
    for story in STORIES {
        for (made, words) in story.looks {
            let exchange = open_exchange(&rt, alloc, &plan, story.kinds);
            look(&rt, alloc, exchange, story, *made, words);
            let desks = open_desks(&rt, alloc, &plan, story.kinds);
            look(&rt, alloc, desks, story, *made, words);
        }
    }
}
