//! A switch as one word: select, hold and release.

use std::process::Abort;
use std::test::Fail;
use test_tools::check_eq;
use xbar_switch::{Shape, Switch, SwitchFault, close_bits, field, laws, open_mask};

/// The result of an operation, and the word of the switch after it.
type Answer = (Result<(), SwitchFault>, u64);

/// A hold with nothing selected, one that closes field 0, one of the same field again, and one
/// after the select magnet fell back; then the release of a field that isn't held.
const ANSWERS: [Answer; 5] = [
    (Err(SwitchFault::NothingSelected), 0),
    (Ok(()), 22),
    (Err(SwitchFault::AlreadyHeld), 22),
    (Err(SwitchFault::NothingSelected), 22),
    (Err(SwitchFault::NotHeld), 22),
];

fn answers() -> [Answer; 5] {
    let mut switch = Switch::of_word(Shape::Line, 0);
    let early = (switch.hold(0), switch.word());
    switch.select(21);
    let held = (switch.hold(0), switch.word());
    switch.drop_select();
    switch.select(3);
    let again = (switch.hold(0), switch.word());
    switch.drop_select();
    let late = (switch.hold(0), switch.word());
    let never_held = (switch.release(1), switch.word());
    [early, held, again, late, never_held]
}

#[test]
fn refuses_what_is_out_of_turn(rt: HostRuntime) {
    check_eq!(rt; answers(), ANSWERS);
}

/// A closed crosspoint by its shape, its field and its place, the word of a switch in which no
/// other is closed, and the mask that opens it.
type Closed = (Shape, u8, u8, u64, u64);

const CLOSED: &[Closed] = &[
    (Shape::Line, 0, 21, 22, 18446744073709551552),
    (Shape::Line, 9, 29, 540431955284459520, 17311836967612186623),
    (Shape::Other, 9, 9, 687194767360, 18446743042917400575),
    (Shape::Other, 2, 9, 2560, 18446744073709547775),
];

/// Checks that closing the crosspoint in an open switch makes this word, and that opening it
/// leaves the switch open; and the field, the bits and the mask of the crosspoint.
fn check_closed(rt: &impl Abort, closed: &Closed) -> Result<(), SwitchFault> {
    let (shape, v, place, word, mask) = *closed;
    assert!(rt; v < 10 && place < shape.places());
    let mut switch = Switch::of_word(shape, 0);
    let before = switch.closed(v);
    switch.select(place);
    switch.hold(v)?;
    switch.drop_select();
    let after = (switch.word(), switch.closed(v));
    switch.release(v)?;
    check_eq!(rt; (before, after, switch.word()), (None, (word, Some(place)), 0), word);
    let bits = (close_bits(shape, v, place), open_mask(shape, v));
    check_eq!(rt; (field(shape, word, v), bits), (place + 1, (word, mask)), word);
    Ok(())
}

#[test]
fn closes_and_opens_a_field(rt: HostRuntime) -> Result<(), Fail> {
    for closed in CLOSED {
        check_closed(&rt, closed)?;
    }
    Ok(())
}

#[test]
fn holds_the_place_selected_last(rt: HostRuntime) -> Result<(), Fail> {
    let mut switch = Switch::of_word(Shape::Other, 0);
    switch.select(7);
    switch.select(4);
    switch.hold(0)?;
    switch.hold(1)?;
    check_eq!(rt; switch.word(), 85);
    Ok(())
}

/// A shape, the width of a field and the number of places, the place in a field of ones, and a
/// word of ones with field 0 open.
const SHAPES: &[(Shape, (u32, u8), u8, u64)] = &[
    (Shape::Line, (6, 30), 62, 18446744073709551552),
    (Shape::Other, (4, 10), 14, 18446744073709551600),
];

#[test]
fn tells_shapes_apart(rt: HostRuntime) -> Result<(), Fail> {
    for (shape, wanted, highest, released) in SHAPES {
        check_eq!(rt; (shape.width(), shape.places()), *wanted, "{shape:?}");
        let mut ones = Switch::of_word(*shape, u64::MAX);
        let ends = (ones.closed(0), ones.closed(9));
        check_eq!(rt; ends, (Some(*highest), Some(*highest)), "{shape:?}");
        ones.release(0)?;
        check_eq!(rt; ones.word(), *released, "{shape:?}");
    }
    Ok(())
}

#[test]
fn states_the_laws() {
    laws::closing_sets_the_field();
    laws::closing_keeps_the_rest();
    laws::opening_clears_the_field();
    laws::opening_keeps_the_rest();
}
