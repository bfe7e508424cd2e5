//! The equipment: texts of numbers, paths with their links and crosspoints, and words.

use crate::fixtures::{check_printed, near_path, path_of};
use std::alloc::Global;
use std::fmt::{Debug, Display, InlineText};
use std::process::Abort;
use test_tools::check_eq;
use xbar_equip::{
    Channel, Conn, Crosspoint, Dialled, DirNo, EquipFault, Len, Link, Path, Ten, WordNo, conn_word,
    group_word, laws, line_junctor, line_switch, protects, trunk_junctor, trunk_switch, turn_word,
};

/// What a text names, and the numbers that are printed of it.
#[derive(Clone, Copy)]
enum Kind {
    /// Frame, switch, place there, vertical group and vertical file.
    Line,
    /// Frame, switch and appearance.
    Place,
    Channel,
    DirectoryNumber,
    /// All seven digits as a number, their code and their directory number.
    Dialled,
    /// Kind and three digits.
    Link,
}

/// A text, and its value as printed with its numbers; or the first fault.
type Text = (Kind, &'static str, Result<&'static str, EquipFault>);

const TEXTS: &[Text] = &[
    (Kind::Line, "3041", Ok("3041: [3, 0, 21, 4, 1]")),
    (Kind::Line, "2954", Ok("2954: [2, 9, 29, 5, 4]")),
    (Kind::Line, "0000", Ok("0000: [0, 0, 0, 0, 0]")),
    (Kind::Line, "1000", Ok("1000: [1, 0, 0, 0, 0]")),
    (Kind::Line, "304", Err(EquipFault::Length)),
    (Kind::Line, "3a5", Err(EquipFault::Length)),
    (Kind::Line, "30a1", Err(EquipFault::NotDigit)),
    (Kind::Line, "304:", Err(EquipFault::NotDigit)),
    (Kind::Line, "306a", Err(EquipFault::NotDigit)),
    (Kind::Line, "3045", Err(EquipFault::Range)),
    (Kind::Line, "3060", Err(EquipFault::Range)),
    (Kind::Place, "417", Ok("417: [4, 1, 7]")),
    (Kind::Place, "4170", Err(EquipFault::Length)),
    (Kind::Place, "41:", Err(EquipFault::NotDigit)),
    (Kind::Channel, "9", Ok("9: 9")),
    (Kind::Channel, "10", Err(EquipFault::Length)),
    (Kind::Channel, "/", Err(EquipFault::NotDigit)),
    (Kind::DirectoryNumber, "0042", Ok("0042: 42")),
    (Kind::DirectoryNumber, "042", Err(EquipFault::Length)),
    (Kind::DirectoryNumber, "00a2", Err(EquipFault::NotDigit)),
    (Kind::Dialled, "0420007", Ok("0420007: (420007, 42, 7)")),
    (Kind::Dialled, "555123", Err(EquipFault::Length)),
    (Kind::Dialled, "555-123", Err(EquipFault::NotDigit)),
    (Kind::Link, "LL000", Ok("LL000: (LineLink, 0, 0, 0)")),
    (Kind::Link, "JU340", Ok("JU340: (Junctor, 3, 4, 0)")),
    (Kind::Link, "TL999", Ok("TL999: (TrunkLink, 9, 9, 9)")),
    (Kind::Link, "JX34", Err(EquipFault::Length)),
    (Kind::Link, "JX340", Err(EquipFault::NotDigit)),
    (Kind::Link, "JU34a", Err(EquipFault::NotDigit)),
    (Kind::Link, "ju340", Err(EquipFault::NotDigit)),
    (Kind::Link, "TT340", Err(EquipFault::NotDigit)),
];

/// A value and its numbers, as printed.
type Shown = InlineText<40>;

fn shown<T: Display, N: Debug>(value: &T, numbers: &N) -> Shown {
    InlineText::of(format_args!("{value}: {numbers:?}"))
}

fn shown_line(line: Len) -> Shown {
    let (group, file) = (line.vertical_group(), line.vertical_file());
    shown(&line, &[line.frame(), line.switch(), line.x(), group, file])
}

fn shown_place(place: Ten) -> Shown {
    shown(&place, &[place.frame(), place.switch(), place.appearance()])
}

fn shown_dialled(dialled: Dialled) -> Shown {
    let (code, number) = (dialled.code(), dialled.number());
    shown(&dialled, &(dialled.value(), code, number.number()))
}

fn shown_link(link: Link) -> Shown {
    let (kind, frame, at) = (link.kind(), link.frame(), link.at());
    shown(&link, &(kind, frame, at, link.channel()))
}

fn read(kind: Kind, text: &[u8]) -> Result<Shown, EquipFault> {
    match kind {
        Kind::Line => Ok(shown_line(Len::parse(text)?)),
        Kind::Place => Ok(shown_place(Ten::parse(text)?)),
        Kind::Channel => {
            let channel = Channel::parse(text)?;
            Ok(shown(&channel, &channel.number()))
        }
        Kind::DirectoryNumber => {
            let number = DirNo::parse(text)?;
            Ok(shown(&number, &number.number()))
        }
        Kind::Dialled => Ok(shown_dialled(Dialled::parse(text)?)),
        Kind::Link => Ok(shown_link(Link::parse(text)?)),
    }
}

fn check_text(rt: &impl Abort, text: &Text) {
    let (kind, text, wanted) = *text;
    match read(kind, text.as_bytes()) {
        Ok(shown) => check_eq!(rt; Ok(shown.as_str()), wanted, text),
        Err(fault) => check_eq!(rt; Err(fault), wanted, text),
    }
}

#[test]
fn texts_are_read_and_printed(rt: HostRuntime) {
    for text in TEXTS {
        check_text(&rt, text);
    }
    let line = near_path().line;
    check_printed(&rt, rt.alloc(), &format_args!("[{line:>6}]"), "[  3041]");
}

/// A path by its line, its channel and its place.
type PathTexts = (&'static str, &'static str, &'static str);

/// A path, its links, and the word, the field and the value of each of its crosspoints.
type PathParts = (PathTexts, [&'static str; 3], [(u16, u8, u8); 4]);

const PATHS: &[PathParts] = &[
    (
        ("3041", "0", "417"),
        ["LL300", "JU340", "TL410"],
        [(60, 0, 22), (70, 4, 1), (290, 3, 2), (281, 0, 8)],
    ),
    (
        ("2954", "9", "999"),
        ["LL299", "JU299", "TL999"],
        [(49, 9, 30), (59, 9, 10), (399, 2, 10), (389, 9, 10)],
    ),
];

fn crosspoints(path: &Path) -> [(u16, u8, u8); 4] {
    let numbers = |c: Crosspoint| (c.word.number(), c.field, c.value);
    path.crosspoints().map(numbers)
}

fn check_path(rt: &impl Abort, alloc: Global, parts: &PathParts) {
    let ((line, channel, place), [line_link, junctor, trunk_link], wanted) = *parts;
    let path = path_of(line, channel, place).expect(rt, "these are a path's texts");
    check_printed(rt, alloc, &path.line_link(), line_link);
    check_printed(rt, alloc, &path.junctor(), junctor);
    check_printed(rt, alloc, &path.trunk_link(), trunk_link);
    check_eq!(rt; crosspoints(&path), wanted, path);
}

#[test]
fn paths_close_four_crosspoints_by_three_links(rt: HostRuntime) {
    for parts in PATHS {
        check_path(&rt, rt.alloc(), parts);
    }
}

/// Paths out of order.
const SHUFFLED: &[PathTexts] = &[
    ("3041", "1", "417"),
    ("3050", "0", "417"),
    ("3041", "0", "500"),
    ("3041", "0", "417"),
    ("2954", "9", "999"),
];

/// The texts of the same paths, in order.
const IN_ORDER: &[&str] = &[
    "2954-9-999",
    "3041-0-417",
    "3041-0-500",
    "3041-1-417",
    "3050-0-417",
];

fn paths(rt: &impl Abort, alloc: Global, texts: &[PathTexts]) -> Vec<Path> {
    let mut paths = Vec::new(alloc);
    for (line, channel, place) in texts {
        let path = path_of(line, channel, place).expect(rt, "these are a path's texts");
        paths.push(path).expect(rt, "there is memory for paths");
    }
    paths
}

#[test]
fn paths_stand_in_the_order_of_their_texts(rt: HostRuntime) {
    let mut paths = paths(&rt, rt.alloc(), SHUFFLED);
    paths.sort_unstable();
    check_eq!(rt; paths.len(), IN_ORDER.len());
    for (path, wanted) in paths.iter().zip(IN_ORDER) {
        check_printed(&rt, rt.alloc(), path, wanted);
    }
}

/// Checks the number of a word, and which connector protects it.
fn check_word(rt: &impl Abort, word: WordNo, number: u16, protected: Option<Conn>) {
    check_eq!(rt; (word.number(), protects(word)), (number, protected));
}

#[test]
fn words_stand_in_their_order(rt: HostRuntime) {
    check_word(&rt, line_switch(3, 0), 60, Some(Conn::Llf(3)));
    check_word(&rt, line_junctor(9, 9), 199, Some(Conn::Llf(9)));
    check_word(&rt, trunk_switch(4, 1), 281, Some(Conn::Tlf(4)));
    check_word(&rt, trunk_junctor(4, 0), 290, Some(Conn::Tlf(4)));
    check_word(&rt, group_word(15), 415, Some(Conn::Group(15)));
    check_word(&rt, conn_word(Conn::Llf(0)), 416, None);
    check_word(&rt, conn_word(Conn::Tlf(9)), 435, None);
    check_word(&rt, conn_word(Conn::Group(15)), 451, None);
    check_word(&rt, turn_word(), 452, None);
}

#[test]
fn laws_can_be_called() {
    laws::word_numbers_are_distinct();
    laws::each_number_has_a_word();
    laws::first_below_is_the_first();
    laws::next_below_is_the_next();
    laws::equality_tests_are_equality();
    laws::idle_is_in_no_path();
    laws::channel_test_finds_the_first_idle_channel();
    laws::paths_that_meet_share_a_part();
    laws::with_path_adds_the_path();
    laws::without_path_removes_the_path();
    laws::sets_with_the_same_paths_are_one();
    let path = near_path();
    laws::path_is_in_range(&path);
    laws::link_is_in_range(path.junctor());
    laws::lines_are_in_range(&[path.line]);
    laws::places_are_in_range(&[path.place]);
    laws::links_are_in_range(&[path.line_link(), path.trunk_link()]);
    laws::paths_are_in_range(&[path]);
}
