//! Lookups in plans that are made from tables or read from texts.

use crate::fixtures::{example, read_plan};
use std::alloc::Global;
use std::process::Abort;
use test_tools::{check, check_eq};
use xbar_equip::{DirNo, EquipFault, Len, Link, Ten};
use xbar_plan::{Group, GroupKind, Member, Plan, PlanFault, Route};
use xbar_plan_text::PlanText;

/// What lookups in a plan return: the lines of numbers, the groups of codes, and which links are
/// faulty.
#[derive(Clone, Copy)]
pub struct Answers {
    pub numbers: &'static [(u16, &'static [&'static str])],
    pub codes: &'static [(u16, Option<&'static [u8]>)],
    pub links: &'static [(&'static str, bool)],
}

fn has_lines(plan: &Plan, number: DirNo, wanted: &[&str]) -> bool {
    let lines = plan.stations(number).unwrap_or(&[]);
    for (line, text) in lines.iter().zip(wanted) {
        if line.text().as_slice() != text.as_bytes() {
            return false;
        }
    }
    lines.len() == wanted.len()
}

fn is_faulty(plan: &Plan, link: &str) -> Result<bool, EquipFault> {
    Ok(plan.faulty(Link::parse(link.as_bytes())?))
}

pub fn check_answers(rt: &impl Abort, plan: &Plan, answers: &Answers) {
    for (number, lines) in answers.numbers {
        assert!(rt; *number < 10_000);
        check!(rt; has_lines(plan, DirNo::new(*number), *lines), number);
    }
    for (code, groups) in answers.codes {
        check!(rt; plan.route(*code) == *groups, code);
    }
    for (link, wanted) in answers.links {
        check_eq!(rt; is_faulty(plan, link), Ok(*wanted), link);
    }
}

/// The groups of the example plan: the number, the name, the kind and how many members.
const GROUPS: &[(u8, &str, GroupKind, usize)] = &[
    (0, "REG", GroupKind::Register, 3),
    (1, "INTRA", GroupKind::Intra, 2),
    (2, "OUTA", GroupKind::Outgoing, 1),
    (3, "OUTB", GroupKind::Outgoing, 2),
];

/// Whether group `number` of the plan has this name, this kind and this many members.
fn has_group(plan: &Plan, number: u8, name: &str, kind: GroupKind, members: usize) -> bool {
    if number >= plan.group_count() {
        return false;
    }
    let group = plan.group(number);
    group.name() == name && group.kind() == kind && group.members().len() == members
}

/// The group of a member, its index there, and its other place, if it has one.
type Found = Option<(u8, u8, Option<[u8; 3]>)>;

/// All places of the example plan, and three without a member.
const MEMBERS: &[(&str, Found)] = &[
    ("417", Some((0, 0, None))),
    ("418", Some((0, 1, None))),
    ("509", Some((0, 2, None))),
    ("600", Some((1, 0, Some(*b"601")))),
    ("601", Some((1, 0, Some(*b"600")))),
    ("700", Some((1, 1, Some(*b"711")))),
    ("711", Some((1, 1, Some(*b"700")))),
    ("800", Some((2, 0, None))),
    ("801", Some((3, 0, None))),
    ("902", Some((3, 1, None))),
    ("999", None),
    ("419", None),
    ("701", None),
];

fn member_at(plan: &Plan, place: &str) -> Result<Found, EquipFault> {
    let place = Ten::parse(place.as_bytes())?;
    let Some(member) = plan.member_of(place) else {
        return Ok(None);
    };
    let other = member.other.map(|place| place.text());
    Ok(Some((member.group, member.index, other)))
}

/// What lookups in the example plan return.
const EXAMPLE: Answers = Answers {
    numbers: &[
        (1, &["3041"]),
        (2, &["3052"]),
        (3, &["1000"]),
        (4, &["3100"]),
        (0, &[]),
        (5, &[]),
        (9999, &[]),
    ],
    codes: &[
        (234, Some(&[1])),
        (555, Some(&[2, 3])),
        (0, None),
        (999, None),
        (556, None),
        (65535, None),
    ],
    links: &[("JU340", false)],
};

/// Checks that the plan is the example plan.
pub fn check_example(rt: &impl Abort, plan: &Plan) {
    check_eq!(rt; (plan.group_count(), plan.register_group()), (4, 0));
    for (number, name, kind, members) in GROUPS {
        check!(rt; has_group(plan, *number, name, *kind, *members), name);
    }
    for (place, wanted) in MEMBERS {
        check_eq!(rt; member_at(plan, place), Ok(*wanted), place);
    }
    check_answers(rt, plan, &EXAMPLE);
}

/// The text of `Plan::example`, in version 2.
const EXAMPLE_TEXT: &str = r#"codes = [
    "234 INTRA",
    "555 OUTA OUTB",
]
faults = []
groups = [
    "REG register 417 418 509",
    "INTRA intra 600-601 700-711",
    "OUTA outgoing 800",
    "OUTB outgoing 801 902",
]
numbers = [
    "0001 3041",
    "0002 3052",
    "0003 1000",
    "0004 3100",
]
version = 2
"#;

/// The text that the plan writes, in version 2.
pub fn text_of(rt: &impl Abort, alloc: Global, plan: &Plan) -> String {
    let bytes = plan
        .version_2(alloc)
        .expect(rt, "there is memory for a text");
    let text = str::from_utf8(&bytes).unwrap_or("");
    String::from_str(alloc, text).expect(rt, "there is memory for a text")
}

#[test]
fn example_is_written_and_read_again(rt: HostRuntime) {
    let plan = example(&rt, rt.alloc());
    check_example(&rt, &plan);
    check_eq!(rt; text_of(&rt, rt.alloc(), &plan).as_str(), EXAMPLE_TEXT);
    check_example(&rt, &read_plan(&rt, rt.alloc(), EXAMPLE_TEXT));
}

/// A plan in which numbers have two lines, a code has a group twice, and links are faulty.
const HUNTING: &str = r#"
version = 2
groups = ["REG register 417 418 509", "INTRA intra 600-601 700-711", "OUTA outgoing 800", "OUTB outgoing 801 902"]
numbers = ["0001 3041", "0002 3052 3100", "0007 3041 3052"]
codes = ["007 OUTB OUTA", "100 OUTA OUTA", "234 INTRA"]
faults = ["JU340", "LL000", "TL999", "JU345"]
"#;

/// What lookups in `HUNTING` return.
const HUNTED: Answers = Answers {
    numbers: &[
        (1, &["3041"]),
        (2, &["3052", "3100"]),
        (7, &["3041", "3052"]),
        (3, &[]),
    ],
    codes: &[
        (7, Some(&[3, 2])),
        (100, Some(&[2, 2])),
        (234, Some(&[1])),
        (555, None),
    ],
    links: &[
        ("JU340", true),
        ("JU345", true),
        ("LL000", true),
        ("TL999", true),
        ("JU341", false),
        ("LL340", false),
        ("LL341", false),
        ("LL345", false),
    ],
};

#[test]
fn second_lines_and_links_are_read_again(rt: HostRuntime) {
    let plan = read_plan(&rt, rt.alloc(), HUNTING);
    check_answers(&rt, &plan, &HUNTED);
    let text = text_of(&rt, rt.alloc(), &plan);
    check_answers(&rt, &read_plan(&rt, rt.alloc(), &text), &HUNTED);
}

/// A group of one member, at one place or two.
fn group(
    rt: &impl Abort,
    alloc: Global,
    name: &str,
    kind: GroupKind,
    first: Ten,
    second: Option<Ten>,
) -> Group {
    let members = vec![in alloc; Member { first, second }].expect(rt, "there is memory");
    let name = String::from_str(alloc, name).expect(rt, "there is memory");
    Group::new(name, kind, members)
}

/// The place 417, the pair of 600 and 699, and the place 800, in groups of these kinds.
fn groups(rt: &impl Abort, alloc: Global, kinds: [GroupKind; 3]) -> Vec<Group> {
    let [register, pair, out] = kinds;
    let called = Some(Ten::new(6, 9, 9));
    let groups = [
        group(rt, alloc, "REG", register, Ten::new(4, 1, 7), None),
        group(rt, alloc, "INTRA", pair, Ten::new(6, 0, 0), called),
        group(rt, alloc, "OUT2", out, Ten::new(8, 0, 0), None),
    ];
    Vec::from_array(alloc, groups).expect(rt, "there is memory")
}

/// The fault of a plan with groups of these kinds, in which this code leads to the last one twice.
fn fault_of(rt: &impl Abort, alloc: Global, kinds: [GroupKind; 3], code: u16) -> Option<PlanFault> {
    let groups = groups(rt, alloc, kinds);
    let route = Route::new(code, vec![in alloc; 2, 2].expect(rt, "there is memory"));
    let routes = Vec::from_array(alloc, [route]).expect(rt, "there is memory");
    Plan::try_new(alloc, groups, Vec::new(alloc), routes, Vec::new(alloc)).err()
}

const REG: GroupKind = GroupKind::Register;

const INTRA: GroupKind = GroupKind::Intra;

const OUT: GroupKind = GroupKind::Outgoing;

const MALFORMED: Option<PlanFault> = Some(PlanFault::Malformed);

/// Lawful tables, and some that no text has, with their fault.
const TABLES: &[(&str, [GroupKind; 3], u16, Option<PlanFault>)] = &[
    ("lawful", [REG, INTRA, OUT], 100, None),
    ("a pair of registers", [OUT, REG, OUT], 100, MALFORMED),
    (
        "a trunk out in a group of pairs",
        [REG, INTRA, INTRA],
        100,
        MALFORMED,
    ),
    ("a code of four digits", [REG, INTRA, OUT], 1000, MALFORMED),
];

#[test]
fn faults_of_tables_are_told(rt: HostRuntime) {
    for (name, kinds, code, wanted) in TABLES {
        check_eq!(rt; fault_of(&rt, rt.alloc(), *kinds, *code), *wanted, name);
    }
}
