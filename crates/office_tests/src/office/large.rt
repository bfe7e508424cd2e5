//! Offices with many paths, and audits of many records.

use crate::fixtures::{check_printed, example, near_path, path_of, read_plan, record};
use std::alloc::Global;
use std::process::Abort;
use test_tools::{check, check_eq};
use xbar_equip::{Channel, Dialled, Len, Path, Ten};
use xbar_office::{AuditFault, End, Job, Office, Record, Reply, audit};
use xbar_plan::Plan;

/// The number of calls in the large office: more than there are junctors of one channel.
const CALLS: u8 = 120;

/// One register, and 120 trunks in three groups, to which one code leads. Trunk `i` has the last
/// two digits of `i` as its frame and its switch, so each of the first hundred has a switch of its
/// own.
const MANY_TRUNKS: &str = "version = 1
groups = [
  \"REG register 999\",
  \"OUT0 outgoing 000 010 020 030 040 050 060 070 080 090 100 110 120 130 140 150 160 170 180 190 \
200 210 220 230 240 250 260 270 280 290 300 310 320 330 340 350 360 370 380 390\",
  \"OUT1 outgoing 400 410 420 430 440 450 460 470 480 490 500 510 520 530 540 550 560 570 580 590 \
600 610 620 630 640 650 660 670 680 690 700 710 720 730 740 750 760 770 780 790\",
  \"OUT2 outgoing 800 810 820 830 840 850 860 870 880 890 900 910 920 930 940 950 960 970 980 990 \
001 011 021 031 041 051 061 071 081 091 101 111 121 131 141 151 161 171 181 191\",
]
numbers = []
codes = [\"555 OUT0 OUT1 OUT2\"]
faults = []
";

/// Checks that the office does this job with this end and without a trouble card.
fn check_job(rt: &impl Abort, office: &mut Office<'_>, job: Job, end: End) {
    let reply = office.whole(job).expect(rt, "there is memory for a job");
    check_eq!(rt; reply, Reply::plain(end));
}

/// Makes one call. Call `i` takes trunk `i`. Its line is on the frame with the number of the
/// trunk's switch, and on the switch with the number of the trunk's frame. So no two of the first
/// hundred calls share a switch or the junctors between two frames, and channel 0 is idle for each
/// of them. For the others it is busy.
fn check_call(rt: &impl Abort, office: &mut Office<'_>, call: u8) {
    let (frame, switch, channel) = (call / 10 % 10, call % 10, call / 100);
    assert!(rt; frame < 10 && switch < 10 && channel < 10);
    let dialled = Path {
        line: Len::new(switch, frame, channel),
        channel: Channel::new(channel),
        place: Ten::new(9, 9, 9),
    };
    let end = End::DialTone {
        path: dialled,
        trial: 1,
    };
    check_job(rt, office, Job::Dial(dialled.line), end);
    let end = End::Connected {
        calling: Path {
            place: Ten::new(frame, switch, channel),
            ..dialled
        },
        called: None,
        trial: 1,
    };
    let job = Job::Complete(dialled.line, Dialled::new(5_550_000));
    check_job(rt, office, job, end);
}

fn count_closed(rt: &impl Abort, alloc: Global, office: &Office<'_>) -> usize {
    let closed = office
        .crosspoints(alloc)
        .expect(rt, "there is memory for crosspoints");
    closed.len()
}

fn check_calls(rt: &impl Abort, alloc: Global, office: &mut Office<'_>) {
    for call in 0..CALLS {
        check_call(rt, office, call);
    }
    let counts = (office.paths().len(), count_closed(rt, alloc, office));
    check_eq!(rt; counts, (120, 480));
}

/// The paths of two calls that are released.
const RELEASED: &[(&str, &str, &str)] = &[("5400", "0", "450"), ("9101", "1", "191")];

/// Releases a line that has no call, and then two lines that have one.
fn check_releases(rt: &impl Abort, office: &mut Office<'_>) {
    check_job(rt, office, Job::Release(Len::new(5, 4, 1)), End::NoCall);
    for (line, channel, place) in RELEASED {
        let own = path_of(line, channel, place).expect(rt, "these are a path's texts");
        let job = Job::Release(own.line);
        check_job(rt, office, job, End::Released { own, other: None });
    }
    check_eq!(rt; office.paths().len(), 118);
}

fn check_calls_and_releases(rt: &impl Abort, alloc: Global, office: &mut Office<'_>) {
    check_calls(rt, alloc, office);
    check_releases(rt, office);
}

#[test]
fn a_hundred_and_twenty_calls_stand(rt: HostRuntime) {
    let plan = read_plan(&rt, rt.alloc(), MANY_TRUNKS);
    check_calls_and_releases(&rt, rt.alloc(), &mut Office::open(rt.alloc(), &plan));
}

/// The number of records that are audited.
const RECORDS: u64 = 100_500;

/// The first job gets dial tone. The later ones alternate: a line without a register tries to
/// complete a call, and the first line asks for dial tone again and is busy.
fn record_at(turn: u64) -> Record {
    let path = near_path();
    let (job, end) = match (turn, turn % 2) {
        (0, _) => (Job::Dial(path.line), End::DialTone { path, trial: 1 }),
        (_, 0) => (Job::Dial(path.line), End::LineBusy),
        _ => (
            Job::Complete(Len::new(1, 0, 0), Dialled::new(5_551_234)),
            End::NoRegister,
        ),
    };
    record(turn, job, end)
}

fn many_records(rt: &impl Abort, alloc: Global) -> Vec<Record> {
    let mut records = Vec::new(alloc);
    for turn in 0..RECORDS {
        check!(rt; records.push(record_at(turn)).is_ok(), "there is memory for records");
    }
    records
}

/// Checks that the audit in the example office finds this fault, with this text.
fn check_refused(
    rt: &impl Abort,
    alloc: Global,
    records: &[Record],
    wanted: AuditFault,
    text: &str,
) {
    let plan = example(rt, alloc);
    check_eq!(rt; audit(alloc, &plan, records).err(), Some(wanted));
    check_printed(rt, alloc, &wanted, text);
}

/// Makes one more reply wrong, and checks that it is found, as the first of the wrong ones.
fn check_other_reply(
    rt: &impl Abort,
    alloc: Global,
    records: &mut [Record],
    turn: usize,
    end: End,
    text: &str,
) {
    if let Some(record) = records.get_mut(turn) {
        record.reply = Reply::plain(end);
    }
    let turn = turn as u64;
    check_refused(rt, alloc, records, AuditFault::Reply { turn }, text);
}

/// Checks that each change of the records is found, and that of a turn before those of replies.
fn check_changes(rt: &impl Abort, alloc: Global, records: &mut [Record]) {
    let text = "the reply of turn 100400 is another";
    check_other_reply(rt, alloc, records, 100_400, End::RegistersBusy, text);
    let text = "the reply of turn 70001 is another";
    check_other_reply(rt, alloc, records, 70_001, End::NoCall, text);
    if let Some(record) = records.get_mut(100_450) {
        record.turn = 100_451;
    }
    let turns = AuditFault::Turns { place: 100_450 };
    let text = "the record at place 100450 hasn't turn 100450";
    check_refused(rt, alloc, records, turns, text);
}

/// Audits one dial tone job of the line in `near_path`. Its turn or its end is wrong.
fn check_one_record(
    rt: &impl Abort,
    alloc: Global,
    turn: u64,
    end: End,
    wanted: AuditFault,
    text: &str,
) {
    let mut records = Vec::new(alloc);
    let job = Job::Dial(near_path().line);
    check!(rt; records.push(record(turn, job, end)).is_ok(), "there is memory for a record");
    check_refused(rt, alloc, &records, wanted, text);
}

fn check_single_records(rt: &impl Abort, alloc: Global) {
    let path = near_path();
    let tone = End::DialTone { path, trial: 1 };
    let text = "the record at place 0 hasn't turn 0";
    check_one_record(rt, alloc, 1, tone, AuditFault::Turns { place: 0 }, text);
    let text = "the reply of turn 0 is another";
    let reply = AuditFault::Reply { turn: 0 };
    check_one_record(rt, alloc, 0, End::LineBusy, reply, text);
}

/// The number of paths that legal records leave.
fn count_left(rt: &impl Abort, alloc: Global, plan: &Plan, records: &[Record]) -> usize {
    let office = audit(alloc, plan, records).expect(rt, "the records are legal");
    office.paths().len()
}

#[test]
fn a_hundred_thousand_records_are_audited(rt: HostRuntime) {
    let plan = example(&rt, rt.alloc());
    let mut records = many_records(&rt, rt.alloc());
    check_eq!(rt; count_left(&rt, rt.alloc(), &plan, &records), 1);
    check_changes(&rt, rt.alloc(), &mut records);
    check_single_records(&rt, rt.alloc());
}
