//! Texts of records: when memory is refused, and with many records.

use std::test::Fail;
use test_tools::{check, check_eq};
use xbar_equip::Len;
use xbar_office::{Cards, End, Job, Record, Reply};
use xbar_report::{ReportFault, read, report};

/// Texts, each with its fault, if it has one: one with three cards and counts, one whose third
/// line is a card of no record, and one with a wrong turn.
const TEXTS: &[(&str, Option<ReportFault>)] = &[
    (
        "0,1,0,D,3041,-,TROUBLE,-,-,-\n\
        1,2,1,C,3052,2340004,CONNECTED,1,3052-0-600,3100-1-601\n\
        TROUBLE,0,1,1,JU340\n\
        TROUBLE,0,1,2,JU345\n\
        TROUBLE,1,2,1,LL301\n\
        PATHS,2\n\
        CLOSED,8\n",
        None,
    ),
    (
        "0,1,0,D,3041,-,TROUBLE,-,-,-\n\
        1,2,1,D,3052,-,LINEBUSY,-,-,-\n\
        TROUBLE,2,1,1,JU340\n",
        Some(ReportFault::Line { number: 3 }),
    ),
    (
        "1,1,0,D,3041,-,NOPATH,-,-,-\n",
        Some(ReportFault::Turns { place: 0 }),
    ),
];

/// Passes whichever allocation is refused.
#[test]
fn a_text_is_judged_right_or_memory_is_told(rt: HostRuntime) {
    for (text, wanted) in TEXTS {
        let fault = read(rt.alloc(), text.as_bytes()).err();
        if fault != Some(ReportFault::Memory) {
            check_eq!(rt; fault, *wanted);
        }
    }
}

/// A record of a line that is busy.
fn record(turn: u64) -> Record {
    Record {
        turn,
        marker: 0,
        job_no: 7,
        job: Job::Dial(Len::new(3, 0, 21)),
        reply: Reply {
            end: End::LineBusy,
            cards: Cards::new(),
        },
    }
}

#[test]
fn the_text_of_many_records(rt: HostRuntime) -> Result<(), Fail> {
    let mut records = Vec::new(rt.alloc());
    for turn in 0..100_001 {
        records.push(record(turn))?;
    }
    let text = report(rt.alloc(), &records, 0, 0)?;
    // The turns have 488,896 digits, and each line has 29 bytes more.
    check_eq!(rt; text.len(), 3_388_942);
    let last = b"\n100000,7,0,D,3041,-,LINEBUSY,-,-,-\nPATHS,0\nCLOSED,0\n";
    check!(rt; text.ends_with(last));
    Ok(())
}
