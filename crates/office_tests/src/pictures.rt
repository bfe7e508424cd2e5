//! Pictures of paths and cards that no row of `worked_rows` has, drawn by hand.

use crate::fixtures::{path_of, read_plan};
use std::alloc::{AllocError, Global};
use std::process::Abort;
use test_tools::check_eq;
use xbar_equip::{Len, Link, LinkKind};
use xbar_office::{Card, Cards, End, Job, Record, Reply};
use xbar_office_text::{add_path_lines, laws, office_text};

/// A path by its line, its channel and its place, what is at the place, and its picture.
struct Picture {
    path: (&'static str, &'static str, &'static str),
    member: &'static str,
    lines: &'static str,
}

const PICTURES: &[Picture] = &[
    Picture {
        path: ("1000", "7", "902"),
        member: "trunk OUTB 1",
        lines: "\
1000-7-902: line 1000 to trunk OUTB 1, channel 7
         +-- line link frame 1 --+         +- trunk link frame 9 --+
1000 ----X-------- LL107 --------X--JU197--X-------- TL907 --------X---- 902
         +-----------------------+         +-----------------------+
switch  1,0                     1,7       9,7                     9,0
word     20                      37       397                     380
field     7                       9         1                       7
holds     1                       1         1                       3
",
    },
    // Line switch 0,0 is word 0, and the last trunk junctor switch is 399. Place 29 is stored as
    // 30.
    Picture {
        path: ("0054", "9", "999"),
        member: "nothing",
        lines: "\
0054-9-999: line 0054 to nothing, channel 9
         +-- line link frame 0 --+         +- trunk link frame 9 --+
0054 ----X-------- LL009 --------X--JU099--X-------- TL999 --------X---- 999
         +-----------------------+         +-----------------------+
switch  0,0                     0,9       9,9                     9,9
word      0                      19       399                     389
field     9                       9         0                       9
holds    30                       1        10                      10
",
    },
];

/// Checks the picture of a path.
fn check_picture(rt: &impl Abort, alloc: Global, picture: &Picture) {
    let (line, channel, place) = picture.path;
    let path = path_of(line, channel, place).expect(rt, "these are a path's texts");
    let mut text = String::new(alloc);
    add_path_lines(&mut text, &path, picture.member).expect(rt, "there is memory for a text");
    check_eq!(rt; text.as_str(), picture.lines);
}

#[test]
fn paths_are_drawn(rt: HostRuntime) {
    for picture in PICTURES {
        check_picture(&rt, rt.alloc(), picture);
    }
}

/// A plan with the longest group name and the highest member number: pair 39, at 278 and 279.
fn wide_plan(alloc: Global) -> Result<String, AllocError> {
    let mut text = String::new(alloc);
    text.push_str("version = 2\ngroups = [\"REG register 417\", \"INTRA999 intra")?;
    for pair in 0..40u32 {
        let first = 200 + 2 * pair;
        let second = 201 + 2 * pair;
        write!(text, " {first}-{second}")?;
    }
    text.push_str("\"]\nnumbers = []\ncodes = []\nfaults = []\n")?;
    Ok(text)
}

const WIDE: &str = "\
PATHS AT A GLANCE
2954 --[frame 2]-- channel 9 --[frame 2]-- 278   call: INTRA999 39, with 279

A CALL'S PATH
2954-9-278: line 2954 to trunk INTRA999 39, channel 9
         +-- line link frame 2 --+         +- trunk link frame 2 --+
2954 ----X-------- LL299 --------X--JU229--X-------- TL279 --------X---- 278
         +-----------------------+         +-----------------------+
switch  2,9                     2,9       2,9                     2,7
word     49                      59       259                     247
field     9                       2         2                       9
holds    30                      10         8                       9

   .---------------------------------------------.
  /  TROUBLE CARD: TL999 is faulty               |
 /   turn 18446744073709551615, job 4294967295   |
|    marker 4294967295, trial 255                |
|    . line link   . junctor   # trunk link      |
|                       0 1 2 3 4 5 6 7 8 9      |
|    trunk link frame   . . . . . . . . . #      |
|    trunk switch       . . . . . . . . . #      |
|    channel            . . . . . . . . . #      |
'------------------------------------------------'
";

/// The record of a job with the highest numbers, and a card of the last link.
fn highest_record() -> Record {
    let card = Card {
        trial: 255,
        link: Link::new(LinkKind::TrunkLink, 9, 9, 9),
    };
    Record {
        turn: u64::MAX,
        marker: u32::MAX,
        job_no: u32::MAX,
        job: Job::Dial(Len::new(2, 9, 29)),
        reply: Reply {
            end: End::Trouble,
            cards: Cards::one(card),
        },
    }
}

#[test]
fn the_longest_texts(rt: HostRuntime) {
    let path = path_of("2954", "9", "278").expect(&rt, "these are a path's texts");
    let plan = wide_plan(rt.alloc()).expect(&rt, "there is memory for a text");
    let plan = read_plan(&rt, rt.alloc(), &plan);
    let text = office_text(rt.alloc(), &plan, &[path], &[highest_record()]).expect(
        &rt,
        "there is memory for a text",
    );
    check_eq!(rt; text.as_str(), WIDE);
}

#[test]
fn laws_can_be_called() {
    laws::each_path_has_one_line();
    laws::each_card_is_drawn_once();
    xbar_office_drawing::laws::each_crosspoint_and_each_card_is_drawn_once();
    xbar_office_drawing::laws::each_part_of_a_page_is_drawn_once();
}
