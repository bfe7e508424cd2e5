//! The longest attempts at a call inside the office: as many connectors as a job ever holds, and a
//! second trial.

use super::moving::{check_next, make_steps, program_of};
use super::*;
use test_tools::check;
use xbar_equip::{Channel, Len, Link, LinkKind, Path, Ten};
use xbar_office::{Card, Cards, End, Reply};
use xbar_plan_text::PlanText;

/// A call that meets a faulty link, and the words that it finds besides those of its register.
struct Longest {
    name: &'static str,
    /// The line that begins the plan's text, and that of its numbers.
    version: &'static str,
    numbers: &'static str,
    /// Line switches on which a line is busy.
    busy: &'static [usize],
    /// How many steps come before the turn, how many connectors are held then, and how many steps
    /// there are in all.
    before: u32,
    held: usize,
    steps: u32,
}

const CALLS: [Longest; 2] = [
    // 20 steps to request and seize, and 32 tests: 4 of the register's path, one of the called
    // line, 4 of groups, 4 of trunk switches and 19 of line junctor switches. Then the turn, 5
    // opens, 9 closes and 10 frees.
    Longest {
        name: "a number of one line",
        version: "version = 1",
        numbers: "numbers = [\"0003 1000\"]",
        busy: &[],
        before: 52,
        held: 10,
        steps: 77,
    },
    // Nine lines more, on eight line link frames more: 16 steps more to request and seize, 9
    // tests, and 8 frees.
    Longest {
        name: "a number of ten lines",
        version: "version = 2",
        numbers: "numbers = [\"0003 0000 2000 3100 4000 5000 6000 7000 8000 9000 1000\"]",
        busy: &[0, 40, 61, 80, 100, 120, 140, 160, 180],
        before: 77,
        held: 18,
        steps: 110,
    },
];

/// The rest of the plan: four groups of pairs, of which only the last has an idle member.
const REST: &str = r#"groups = [
  "REG register 417",
  "I1 intra 600-601",
  "I2 intra 610-611",
  "I3 intra 620-621",
  "I4 intra 700-711 800-811",
]
codes = ["234 I1 I2 I3 I4"]
faults = ["JU370"]
"#;

/// The plan of a call.
fn plan_of(rt: &impl Abort, alloc: Global, call: &Longest) -> Plan {
    let text = format!(in alloc; "{}\n{}\n{}", call.version, call.numbers, REST);
    let text = text.expect(rt, "there is memory for a text");
    Plan::read(alloc, text.as_bytes()).expect(rt, "this is a plan")
}

/// The words of an office in which line 3041 has a register, the first three groups of pairs are
/// busy, and so is the line at place 0 of these line switches.
fn words_with(busy: &[usize]) -> [u64; WORD_COUNT] {
    let mut words = [0; WORD_COUNT];
    words[60] = 22;
    words[70] = 65536;
    words[281] = 8;
    words[290] = 8192;
    words[400] = 1;
    words[401] = 1;
    words[402] = 1;
    words[403] = 1;
    for switch in busy {
        if *switch < WORD_COUNT {
            words[*switch] = 1;
        }
    }
    words
}

/// The second trial finds the paths 3041-5-800 and 1000-5-811. The first met a faulty junctor.
fn wanted() -> Reply {
    let channel = Channel::new(5);
    let calling = Path {
        line: Len::new(3, 0, 21),
        channel,
        place: Ten::new(8, 0, 0),
    };
    let called = Path {
        line: Len::new(1, 0, 0),
        channel,
        place: Ten::new(8, 1, 1),
    };
    Reply {
        end: End::Connected {
            calling,
            called: Some(called),
            trial: 2,
        },
        cards: Cards::one(Card {
            trial: 1,
            link: Link::new(LinkKind::Junctor, 3, 7, 0),
        }),
    }
}

fn check_longest(rt: &impl Abort, alloc: Global, call: &Longest) {
    let plan = plan_of(rt, alloc, call);
    let mut words = words_with(call.busy);
    let mut program = program_of(rt, &plan, "C 3041 2340003");
    make_steps(&mut program, &plan, 0, &mut words, call.before as usize);
    check_next(rt, call.name, &program, Step::Turn, call.before);
    check_eq!(rt; program.held().len(), call.held, call.name);
    // More than are left: a job that is done makes none.
    make_steps(&mut program, &plan, 0, &mut words, 128);
    check_next(rt, call.name, &program, Step::Finished, call.steps);
    let Some(reply) = program.reply() else {
        panic!(rt; "the job has taken its turn");
    };
    check!(rt; *reply == wanted(), call.name);
}

#[test]
fn the_longest_attempts_have_as_many_steps_as_promised(rt: HostRuntime) {
    for call in &CALLS {
        check_longest(&rt, rt.alloc(), call);
    }
}
