//! What a marker works out from words: the channel test, traces and counts.

use crate::fixtures::{near_path, path_of};
use std::fmt::InlineText;
use std::process::Abort;
use std::test::Fail;
use test_tools::check_eq;
use xbar_equip::{Crosspoint, EquipFault, Len, Path, Ten, WORD_COUNT};
use xbar_match::{
    count_closed, count_paths, effects_of, find_line, find_number, idle_links, idle_trunk_links,
    laws, line_place_of, match_channel, place_of, shape_at, trace, trace_back,
};
use xbar_switch::Shape;

/// A channel test: its name, the words of the line switch, of the frame's line junctor switches
/// and of the trunk switch, the trunk link frame, the first channel to try, and the channel found.
type ChannelTest = (
    &'static str,
    u64,
    &'static [u64; 10],
    u64,
    u8,
    u8,
    Option<u8>,
);

/// The word of a line switch whose field 9 holds its first place.
const LINK_9: u64 = 18014398509481984;

/// The words of line junctor switches: the junctors to frame 4 are busy in channels 0 to 4.
const HALF: &[u64; 10] = &[65536, 65536, 65536, 65536, 65536, 0, 0, 0, 0, 0];

/// The word of a trunk switch whose fields 5 to 8 are closed.
const FOUR: u64 = 4581228544;

/// The word of a trunk switch whose fields 5 to 9 are closed.
const FIVE: u64 = 1099510579200;

const CHANNEL_TESTS: &[ChannelTest] = &[
    ("all line links idle", 0, HALF, FOUR, 4, 0, Some(9)),
    ("line link 9 busy", LINK_9, HALF, FOUR, 4, 0, None),
    ("from channel 9", 0, HALF, FOUR, 4, 9, Some(9)),
    ("from channel 5", 0, HALF, FOUR, 4, 5, Some(9)),
    ("all idle", 0, &[0; 10], 0, 4, 5, Some(5)),
    ("round", 0, HALF, FIVE, 3, 5, Some(0)),
];

fn check_channel(rt: &impl Abort, test: &ChannelTest) {
    let (name, line, junctors, trunk, frame, start, wanted) = *test;
    assert!(rt; frame < 10 && start < 10);
    let found = match_channel(line, junctors, trunk, frame, start).map(|channel| channel.number());
    check_eq!(rt; found, wanted, name);
}

#[test]
fn matches_channels(rt: HostRuntime) {
    for test in CHANNEL_TESTS {
        check_channel(&rt, test);
    }
}

/// Words of a line switch, each with the bits of its idle links.
const IDLE_LINKS: &[(u64, u16)] = &[(0, 1023), (22, 1022), (540431955284459520, 511)];

/// Words of a trunk switch, each with the bits of its idle links.
const IDLE_TRUNK_LINKS: &[(u64, u16)] = &[(0, 1023), (FOUR, 543), (u64::MAX, 0)];

#[test]
fn tells_idle_links(rt: HostRuntime) {
    for (word, wanted) in IDLE_LINKS {
        check_eq!(rt; idle_links(*word), *wanted, word);
    }
    for (word, wanted) in IDLE_TRUNK_LINKS {
        check_eq!(rt; idle_trunk_links(*word), *wanted, word);
    }
}

/// The word of a line switch whose field 9 holds its last place.
const LAST_PLACE: u64 = 540431955284459520;

#[test]
fn reads_fields(rt: HostRuntime) {
    let fields = [find_line(LAST_PLACE, 29), find_line(LAST_PLACE, 28)];
    check_eq!(rt; fields, [Some(9), None], "fields of lines");
    let fields = [find_number(2560, 9), find_number(85, 4)];
    check_eq!(rt; fields, [Some(2), Some(0)], "fields of numbers");
    let places = [line_place_of(LAST_PLACE, 9), line_place_of(31, 0)];
    check_eq!(rt; places, [Some(29), None], "places of lines");
    let places = [place_of(2560, 2), place_of(11, 0), place_of(2560, 1)];
    check_eq!(rt; places, [Some(9), None, None], "places");
}

/// A path's effects are its crosspoints, which module `equip` tests.
#[test]
fn closes_the_crosspoints_of_a_path(rt: HostRuntime) {
    let path = near_path();
    check_eq!(rt; effects_of(&path), path.crosspoints());
}

/// The word, the field and the value of each crosspoint of a path between the last frames.
#[test]
fn closes_the_crosspoints_of_a_far_path(rt: HostRuntime) -> Result<(), Fail> {
    let path = path_of("2954", "9", "999")?;
    let effects = effects_of(&path).map(|c: Crosspoint| (c.word.number(), c.field, c.value));
    check_eq!(rt; effects, [(49, 9, 30), (59, 9, 10), (399, 2, 10), (389, 9, 10)]);
    Ok(())
}

const SHAPES: &[(u16, Shape)] = &[
    (0, Shape::Line),
    (189, Shape::Line),
    (49, Shape::Line),
    (59, Shape::Other),
    (10, Shape::Other),
    (200, Shape::Other),
    (389, Shape::Other),
    (399, Shape::Other),
];

#[test]
fn tells_the_shapes_of_words(rt: HostRuntime) {
    for (number, shape) in SHAPES {
        assert!(rt; *number < 400);
        check_eq!(rt; shape_at(*number), *shape, "at {number}");
    }
}

/// The number of a word, and its new value.
type Change = (usize, u64);

/// The words of an office in which only the path 2954-9-999 is up, except for this change.
fn far_words(change: Option<Change>) -> [u64; WORD_COUNT] {
    let mut words = [0; WORD_COUNT];
    words[49] = 540431955284459520;
    words[59] = 687194767360;
    words[399] = 2560;
    words[389] = 687194767360;
    match change {
        Some((number, word)) if number < WORD_COUNT => words[number] = word,
        _ => {}
    }
    words
}

/// Traces in these words, by name, from a line of four digits or a trunk place of three, and the
/// text of the path found.
const TRACES: &[(&str, Option<Change>, &str, &str)] = &[
    ("its line", None, "2954", "2954-9-999"),
    ("its place", None, "999", "2954-9-999"),
    ("another line", None, "2953", "no path"),
    ("no such switch", Some((399, 11 << 8)), "2954", "no path"),
    ("broken off", Some((59, 0)), "2954", "no path"),
    ("broken off, backwards", Some((59, 0)), "999", "no path"),
];

/// Traces the path from a line, or backwards from a trunk place.
fn traced(change: Option<Change>, from: &str) -> Result<Option<Path>, EquipFault> {
    let words = far_words(change);
    match Len::parse(from.as_bytes()) {
        Ok(line) => Ok(trace(&words, line)),
        Err(_) => Ok(trace_back(&words, Ten::parse(from.as_bytes())?)),
    }
}

#[test]
fn traces_a_path_both_ways(rt: HostRuntime) -> Result<(), Fail> {
    for (name, change, from, wanted) in TRACES {
        let text = match traced(*change, from)? {
            Some(path) => InlineText::<10>::of(path),
            None => InlineText::of("no path"),
        };
        check_eq!(rt; text.as_str(), *wanted, name);
    }
    Ok(())
}

/// The numbers of paths and of closed crosspoints in these words, with a change.
const COUNTS: &[(Option<Change>, (u16, u16))] = &[(None, (1, 4)), (Some((59, 0)), (1, 3))];

#[test]
fn counts_paths_and_crosspoints(rt: HostRuntime) {
    for (change, wanted) in COUNTS {
        let words = far_words(*change);
        let counts = (count_paths(&words), count_closed(&words));
        check_eq!(rt; counts, *wanted, "{change:?}");
    }
}

#[test]
fn states_the_laws() {
    laws::line_switches_have_the_shape_of_lines();
    laws::a_path_has_crosspoints_of_the_office();
    laws::open_fields_are_idle_links();
    laws::a_channel_test_reads_the_links();
    laws::an_effect_changes_one_field();
    laws::closing_a_path_adds_it();
    laws::opening_a_path_removes_it();
    laws::each_word_shows_the_change();
    laws::closed_fields_count_the_paths();
    laws::effects_go_word_by_word();
}
