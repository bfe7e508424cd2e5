//! How tests of junctor switches are described: those of one marker, one after another, in one
//! line. Here are tests that no job makes, or on words that jobs seldom leave; the others are rows
//! of `worked_rows`.

use std::alloc::Global;
use std::process::Abort;
use std::test::Fail;
use xbar_core::Event;
use xbar_equip::WordNo;
use xbar_jobs::Step;
use xbar_step_text::Observation;
use xbar_walk::{Detail, Story};

/// The tests, each with its marker, the number of its word and the value found there; and the text
/// that describes them.
type Row = (Detail, &'static [(u32, u16, u64)], &'static str);

const ROWS: &[Row] = &[
    // Switches 2 to 5 of frame 3: in the second, field 4 is closed at place 2; in the third,
    // fields 0 and 8 are closed at places 9 and 0.
    (
        Detail::Short,
        &[
            (7, 72, 0),
            (7, 73, 0x3_0000),
            (7, 74, 0x1_0000_000a),
            (7, 75, 0),
        ],
        "   1  marker 7  tests line junctor switches 3,2 to 3,5 (steps 1 to 4): closed: LL323 and JU343; LL394 and JU304; LL304 and JU384
",
    ),
    (
        Detail::Each,
        &[
            (7, 72, 0),
            (7, 73, 0x3_0000),
            (7, 74, 0x1_0000_000a),
            (7, 75, 0),
        ],
        "   1  marker 7  tests line junctor switch 3,2: nothing closed
   2  marker 7  tests line junctor switch 3,3: closed: LL323 and JU343
   3  marker 7  tests line junctor switch 3,4: closed: LL394 and JU304; LL304 and JU384
   4  marker 7  tests line junctor switch 3,5: nothing closed
",
    ),
    // Field 3 is closed at place 1 of the second of two trunk junctor switches.
    (
        Detail::Short,
        &[(0, 290, 0), (0, 291, 0x2000)],
        "   1  marker 0  tests trunk junctor switches 4,0 to 4,1 (steps 1 to 2): closed: JU341 and TL411
",
    ),
    // Two markers alternate.
    (
        Detail::Short,
        &[(0, 70, 0), (1, 71, 0), (0, 71, 0), (1, 72, 0)],
        "   1  marker 0  tests line junctor switch 3,0: nothing closed
   2  marker 1  tests line junctor switch 3,1: nothing closed
   3  marker 0  tests line junctor switch 3,1: nothing closed
   4  marker 1  tests line junctor switch 3,2: nothing closed
",
    ),
    // A frame's last switch and the first of the next, a skipped switch, a trunk junctor switch
    // twice, and line switches.
    (
        Detail::Short,
        &[
            (0, 79, 0),
            (0, 90, 0),
            (0, 92, 0),
            (0, 293, 0),
            (0, 293, 0),
            (0, 60, 0),
            (0, 61, 0),
        ],
        "   1  marker 0  tests line junctor switch 3,9: nothing closed
   2  marker 0  tests line junctor switch 4,0: nothing closed
   3  marker 0  tests line junctor switch 4,2: nothing closed
   4  marker 0  tests trunk junctor switch 4,3: nothing closed
   5  marker 0  tests trunk junctor switch 4,3: nothing closed
   6  marker 0  tests line switch 3,0: nothing closed
   7  marker 0  tests line switch 3,1: nothing closed
",
    ),
];

/// The text that describes the tests.
fn text_of(
    rt: &impl Abort,
    alloc: Global,
    telling: Detail,
    tests: &[(u32, u16, u64)],
) -> Result<String, Fail> {
    let mut story = Story::new(alloc, telling);
    for (marker, number, found) in tests {
        assert!(rt; *number < 453);
        let step = Step::Test(WordNo::new(*number));
        let told = Observation::new(step, *found, Event::Moved, Step::Finished);
        story.add_step(*marker, &told, &[])?;
    }
    Ok(story.finish()?)
}

#[test]
fn tests_of_a_row_are_told_in_one_line(rt: HostRuntime) -> Result<(), Fail> {
    for (telling, tests, wanted) in ROWS {
        let text = text_of(&rt, rt.alloc(), *telling, tests)?;
        assert_eq!(rt; text.as_str(), *wanted);
    }
    Ok(())
}
