//! Standard streams that fail, and an input without end.

use super::*;
use crossbar5::EngineFault;
use crossbar5_cli::Ending;
use std::process::Abort;
use std::test::Fail;
use test_tools::{DeviceCall, Endless, Recorder, check, check_eq};

/// Command lines, each with an input.
const TASKS: &[(&str, &str)] = &[
    ("replay", FIRST),
    ("walk", "J,0,7,R,3041\nS,0,9,,\n"),
    ("walk --json", "J,0,7,R,3041\nS,0,9,,\n"),
    ("look", "J,0,7,R,3041\nS,0,2,,\n"),
    ("look --json", "J,0,7,R,3041\nS,0,2,,\n"),
    ("look --svg", FIRST),
    ("live", "C,7,3041,5551234,R\n"),
    ("audit", FIRST_TEXT),
    // The record is wrong.
    ("audit", "0,1,0,D,3041,-,NOPATH,-,-,-\n"),
    ("draw --text", FIRST_TEXT),
    ("draw", "PATHS,0\nCLOSED,0\n"),
    ("draw --text", "PATHS,0\nCLOSED,0\n"),
    ("page", "PATHS,0\nCLOSED,0\n"),
    (
        "replay",
        "J,0,1,D,3041\nS,0,96,,\nJ,0,2,C,3041 2340004\nS,0,96,,\n",
    ),
    // These inputs are refused.
    ("replay", "PATHS,0\n"),
    ("walk", "PATHS,0\n"),
    ("look --json", "PATHS,0\n"),
    ("live", "PATHS,0\n"),
    ("audit", "PATHS,0\n"),
];

/// The same, with a plan in a file.
const PLANNED: &[(&str, &str)] = &[
    ("replay --plan town.toml", FIRST),
    (
        "draw --text --plan town.toml",
        "0,7,1,D,3052,-,DIALTONE,2,3052-5-418,-\nTROUBLE,0,7,1,JU340\n",
    ),
];

/// Command lines whose input isn't a text of records, so nothing is drawn.
const UNDRAWN: &[(&str, &str)] = &[("draw", "PATHS,0\n"), ("page", "PATHS,0\n")];

const UNREADABLE: &str = "FAULT,DEVICE\ncrossbar5: cannot read standard input\n";

const UNWRITABLE: &str = "FAULT,DEVICE\ncrossbar5: cannot write standard output\n";

const TOO_LONG: &str = "FAULT,LONG\ncrossbar5: standard input is too long\n";

/// One read returns bytes, and the next finds the end. Each of the two fails in one run.
fn check_unreadable<T: Threads + Wait + Sync + Abort>(
    rt: &T,
    alloc: Global,
    task: (&str, &str),
) -> Result<(), Fail> {
    let (line, input) = task;
    for calls in 0..2 {
        let mut streams = Streams::new(alloc, input, Fails::Input(calls));
        let exit = streams.run(rt, alloc, &FAULTY, line)?;
        check_eq!(rt; (exit.status(), streams.said()), (6, UNREADABLE), line);
        check_eq!(rt; (streams.input.failures(), streams.written()), (1, ""), line);
    }
    Ok(())
}

#[test]
fn a_failed_read_leaves_nothing_written(rt: HostRuntime) -> Result<(), Fail> {
    for task in TASKS.iter().chain(PLANNED).chain(UNDRAWN) {
        check_unreadable(&rt, rt.alloc(), *task)?;
    }
    Ok(())
}

/// Command lines that need no input, and how many calls of the output pass before one fails.
const TOLD: &[(&str, u32)] = &[("--help", 0), ("--version", 0), ("--version", 1)];

/// Checks a run in which the output fails the call after `calls` others.
fn check_unwritable<T: Threads + Wait + Sync + Abort>(
    rt: &T,
    alloc: Global,
    task: (&str, &str),
    calls: u32,
) -> Result<(), Fail> {
    let (line, input) = task;
    let mut streams = Streams::new(alloc, input, Fails::Output(calls));
    let exit = streams.run(rt, alloc, &FAULTY, line)?;
    check_eq!(rt; (exit.status(), streams.said()), (6, UNWRITABLE), line);
    check_eq!(rt; (streams.output.failures(), exit.is_printed), (1, true), line);
    Ok(())
}

#[test]
fn a_failed_write_or_flush_is_told(rt: HostRuntime) -> Result<(), Fail> {
    for task in TASKS.iter().chain(PLANNED) {
        for calls in 0..2 {
            check_unwritable(&rt, rt.alloc(), *task, calls)?;
        }
    }
    for (line, calls) in TOLD {
        check_unwritable(&rt, rt.alloc(), (*line, ""), *calls)?;
    }
    Ok(())
}

/// Command lines that write on standard error, with their status.
const SAID: &[(&str, u8)] = &[
    ("call", 2),
    ("live --dial 0", 2),
    ("replay --markers Y", 2),
    ("replay --plan missing.toml", 6),
    ("draw --plan /dev/null", 3),
];

#[test]
fn a_failed_message_changes_no_status(rt: HostRuntime) -> Result<(), Fail> {
    for (line, status) in SAID {
        let mut streams = Streams::new(rt.alloc(), "", Fails::Errors(0));
        let exit = streams.run(&rt, rt.alloc(), &RealFiles { rt: &rt }, line)?;
        check_eq!(rt; (exit.status(), exit.is_printed), (*status, false), line);
        check!(rt; exit.ending != Ending::Printed, line);
    }
    Ok(())
}

/// The stream whose first call fails, and the number of failures of each stream.
const EARLIER: &[(Fails, [u64; 3])] = &[
    (Fails::Input(0), [1, 0, 0]),
    (Fails::Output(0), [0, 1, 0]),
    (Fails::Errors(0), [0, 0, 1]),
];

/// A failure of a stream before the run isn't a failure of the run.
#[test]
fn an_earlier_failure_is_none_of_the_run(rt: HostRuntime) -> Result<(), Fail> {
    for (fails, wanted) in EARLIER {
        let mut streams = Streams::new(rt.alloc(), FIRST, *fails);
        let _read = streams.input.read_and_count(&mut []);
        let _flushed = streams.output.flush_and_count();
        let _told = streams.errors.flush_and_count();
        let failures = [
            streams.input.failures(),
            streams.output.failures(),
            streams.errors.failures(),
        ];
        check_eq!(rt; failures, *wanted);
        let exit = streams.run(&rt, rt.alloc(), &RealFiles { rt: &rt }, "replay")?;
        check_eq!(rt; (exit.status(), streams.written()), (0, FIRST_TEXT));
    }
    Ok(())
}

#[test]
fn output_goes_out_in_one_write_and_one_flush(rt: HostRuntime) -> Result<(), Fail> {
    let alloc = rt.alloc();
    let mut input = Counted::new(Recorder::new(alloc, FIRST.as_bytes()));
    let mut output = Counted::new(Recorder::new(alloc, Vec::new(alloc)));
    let mut errors = counted(Vec::new(alloc), None);
    let files = RealFiles { rt: &rt };
    run_line(
        &rt,
        alloc,
        &files,
        "replay",
        &mut input,
        &mut output,
        &mut errors,
    )?;
    // The second read finds the end.
    let reads = [DeviceCall::Read(4096); 2];
    check_eq!(rt; input.get_ref().calls.as_slice(), reads.as_slice());
    let writes = [DeviceCall::Write(FIRST_TEXT.len()), DeviceCall::Flush];
    check_eq!(rt; output.get_ref().calls.as_slice(), writes.as_slice());
    check_eq!(rt; text_in(&errors), "");
    Ok(())
}

#[test]
fn input_without_end_is_too_long(rt: HostRuntime) -> Result<(), Fail> {
    let alloc = rt.alloc();
    for line in ["replay", "live"] {
        let mut input = Counted::new(Endless);
        let mut output = counted(Vec::new(alloc), None);
        let mut errors = counted(Vec::new(alloc), None);
        let files = RealFiles { rt: &rt };
        let exit = run_line(
            &rt,
            alloc,
            &files,
            line,
            &mut input,
            &mut output,
            &mut errors,
        )?;
        check_eq!(rt; (exit.status(), text_in(&errors)), (4, TOO_LONG), line);
        check_eq!(rt; (input.reads(), text_in(&output)), (1_048_576, ""), line);
    }
    Ok(())
}

const TEXTS: &[(EngineFault, &str)] = &[
    (EngineFault::Memory, "Memory"),
    (EngineFault::Device, "Device"),
    (EngineFault::Long, "Long"),
];

#[test]
fn texts_of_faults(rt: HostRuntime) -> Result<(), Fail> {
    for (fault, text) in TEXTS {
        check_eq!(rt; fault.to_string(rt.alloc())?.as_str(), *text);
    }
    Ok(())
}
