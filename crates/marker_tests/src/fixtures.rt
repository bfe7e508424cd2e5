//! What the tests share: plans, jobs, shared words with their desks, and what words show.

ghost use Rattle.std.specs.Prelude.{◌≡◌, length, vec_len};
ghost use Rattle.xbar_fabric.specs.Views.{AreDesksOf, IsDeskOf};

use rand::RngExt;
use rand_pcg::Pcg32;
use std::alloc::{AllocError, Global};
use std::process::Abort;
use test_tools::check_eq;
use xbar_equip::{Dialled, Len, WORD_COUNT};
use xbar_fabric::{Desk, Fabric, Kind, Kinds};
use xbar_office::{Job, Office, Record, audit};
use xbar_plan::Plan;
use xbar_plan_text::PlanText;

/// Twelve registers on two trunk link frames, and two trunks to another office.
const MANY_REGISTERS: &str = "version = 1
groups = [
  \"REG register 410 411 412 413 414 415 416 417 418 419 420 500\",
  \"INTRA intra 600-601 700-711\",
  \"OUTA outgoing 800\",
  \"OUTB outgoing 801 902\",
]
numbers = [\"0001 3041\", \"0002 3052\", \"0003 1000\", \"0004 3100\"]
codes = [\"234 INTRA\", \"555 OUTA OUTB\"]
faults = []
";

/// The example plan.
pub fn example(rt: &impl Abort, alloc: Global) -> Plan {
    Plan::example(alloc).expect(rt, "there is memory for a plan")
}

/// The plan with many registers.
pub fn many_registers(rt: &impl Abort, alloc: Global) -> Plan {
    let Ok(plan) = Plan::read(alloc, MANY_REGISTERS.as_bytes()) else {
        panic!(rt; "the plan is read");
    };
    plan
}

/// The job of this text, if it is one.
fn job_of(text: &str) -> Option<Job> {
    let (kind, rest) = text.split_once(' ')?;
    let (line, dialled) = rest.split_once(' ').unwrap_or((rest, ""));
    let line = Len::parse(line.as_bytes()).ok()?;
    match kind {
        "D" => Some(Job::Dial(line)),
        "C" => Some(Job::Complete(line, Dialled::parse(dialled.as_bytes()).ok()?)),
        "R" => Some(Job::Release(line)),
        _ => None,
    }
}

/// A job by its text: `D 3041`, `C 3041 5551234` or `R 3041`.
pub fn job(rt: &impl Abort, text: &str) -> Job {
    let Some(job) = job_of(text) else {
        panic!(rt; "{text} is no job");
    };
    job
}

/// One of twelve lines, most of them on two frames: few enough for markers to compete.
fn some_line(numbers: &mut Pcg32) -> Len {
    let choice = numbers.random_range(0..12u8);
    match choice {
        0 => Len::new(3, 0, 21),
        1 => Len::new(3, 0, 27),
        2 => Len::new(1, 0, 0),
        3 => Len::new(3, 1, 0),
        4 => Len::new(2, 0, 0),
        _ if choice % 2 == 0 => Len::new(3, 0, choice),
        _ => Len::new(1, 2, choice),
    }
}

/// Digits that lead to another office, to a line of this one, or nowhere.
fn some_digits(numbers: &mut Pcg32) -> Dialled {
    match numbers.random_range(0..8u32) {
        0 | 1 => Dialled::new(5_551_234),
        2 => Dialled::new(2_340_001),
        3 => Dialled::new(2_340_002),
        4 => Dialled::new(2_340_003),
        5 => Dialled::new(2_340_004),
        6 => Dialled::new(9_990_000),
        _ => Dialled::new(2_349_999),
    }
}

/// A job of any kind. Completing jobs are the most frequent, since many of them end early.
pub fn some_job(numbers: &mut Pcg32) -> Job {
    let line = some_line(numbers);
    match numbers.random_range(0..8u32) {
        0 | 1 | 2 => Job::Dial(line),
        3 => Job::Release(line),
        _ => Job::Complete(line, some_digits(numbers)),
    }
}

/// These kinds, of which there have to be 1 to 48.
pub fn kinds_of(rt: &impl Abort, kinds: &[Kind]) -> Kinds
    ensures { result ≡ kinds.now }
{
    let Some(kinds) = Kinds::new(kinds) else {
        panic!(rt; "an office has 1 to 48 markers");
    };
    kinds
}

/// Opens shared words with a desk of each of these kinds.
pub fn open_fabric<'p>(
    rt: &impl Abort,
    alloc: Global,
    plan: &'p Plan,
    kinds: &[Kind],
) -> (Fabric<'p>, Vec<Desk>)
    ensures count { (result.0.count ≡ length kinds.now) × (vec_len result.1 ≡ length kinds.now) }
    ensures desks { AreDesksOf result.1.items result.0 }
{
    let kinds = kinds_of(rt, kinds);
    let Ok(opened) = Fabric::open(alloc, plan, &kinds) else {
        panic!(rt; "an office is opened");
    };
    opened
}

pub fn last_desk(rt: &impl Abort, _fabric: &Fabric, desks: &mut Vec<Desk>) -> Desk
    requires { AreDesksOf desks.old.items _fabric.now }
    ensures rest { AreDesksOf desks.new.items _fabric.now }
    ensures desk { IsDeskOf result _fabric.now }
{
    desks.pop().expect(rt, "there is a desk")
}

/// The numbers and values of words that are not 0, in order.
pub type Words<'w> = &'w [(usize, u64)];

/// What a first dial tone job of line 3041 leaves.
pub const WITH_REGISTER: Words<'static> = &[
    (60, 22),
    (70, 65536),
    (281, 8),
    (290, 8192),
    (400, 1),
    (452, 1),
];

/// What a call of line 3041 to another office leaves, after that job.
pub const WITH_TRUNK: Words<'static> = &[
    (60, 22),
    (70, 4294967296),
    (360, 1),
    (370, 4096),
    (402, 1),
    (452, 2),
];

/// What a call of line 3041 to line 3100 leaves, after that job.
pub const WITH_BOTH: Words<'static> = &[
    (60, 22),
    (61, 64),
    (70, 16777216),
    (71, 33554432),
    (320, 33),
    (330, 4096),
    (331, 4096),
    (401, 1),
    (452, 2),
];

/// The words that are not 0, with their numbers.
fn closed_words(alloc: Global, words: &[u64]) -> Result<Vec<(usize, u64)>, AllocError> {
    let mut closed = Vec::new(alloc);
    for (number, word) in words.iter().enumerate() {
        if *word != 0 {
            closed.push((number, *word))?;
        }
    }
    Ok(closed)
}

/// Checks that of all 453 words only these are not 0.
pub fn check_words(rt: &impl Abort, alloc: Global, name: &str, words: &[u64], wanted: Words<'_>) {
    check_eq!(rt; words.len(), WORD_COUNT, name);
    let closed = closed_words(alloc, words).expect(rt, "there is memory for a list");
    check_eq!(rt; closed.as_slice(), wanted, name);
}

/// The words that show the office's crosspoints.
fn crosspoint_words(rt: &impl Abort, alloc: Global, office: &Office) -> [u64; WORD_COUNT] {
    let crosspoints = office.crosspoints(alloc);
    let crosspoints = crosspoints.expect(rt, "there is memory for crosspoints");
    let mut words = [0; WORD_COUNT];
    for crosspoint in crosspoints.iter() {
        let number = usize::from(crosspoint.word.number());
        let is_line_switch = number < 200 && number % 20 < 10;
        let width = if is_line_switch { 6 } else { 4 };
        if number < WORD_COUNT && crosspoint.field < 10 {
            words[number] |= u64::from(crosspoint.value) << (width * u32::from(crosspoint.field));
        }
    }
    words
}

/// Checks that the records are one legal history, and the words those of the office after it: each
/// crosspoint, each busy member, the turns, and nothing else. So no connector is held or
/// requested.
pub fn check_history(
    rt: &impl Abort,
    alloc: Global,
    plan: &Plan,
    name: &str,
    records: &[Record],
    words: &[u64],
) {
    let office = audit(alloc, plan, records).expect(rt, "the records are legal");
    let mut wanted = crosspoint_words(rt, alloc, &office);
    for path in office.paths() {
        if let Some(found) = plan.member_of(path.place) {
            wanted[400 + usize::from(found.group % 16)] |= 1 << (found.index % 64);
        }
    }
    wanted[452] = records.len() as u64;
    let wanted = closed_words(alloc, &wanted).expect(rt, "there is memory for a list");
    check_words(rt, alloc, name, words, &wanted);
}
