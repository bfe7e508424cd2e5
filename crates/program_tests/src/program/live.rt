//! Calls that compete: the outcome is right, whichever comes first.

use super::*;
use crossbar5::{EngineFault, PlanSource, Status};
use crossbar5_live::{open_gates, run_live};
use std::test::Fail;
use test_tools::{check, check_eq};
use xbar_markers::CallMarkers;

const THREE: &str = "C,1,3041,5551234,K\nC,2,1000,5551234,K\nC,3,2000,5551234,K\n";

const FOUR: &str =
    "C,1,3041,5551234,K\nC,2,1000,5551234,K\nC,3,2000,5551234,K\nC,4,3052,5551234,K\n";

/// Calls, with the fewest and the most lines of their output.
const COMPETING: &[(&str, usize, usize)] = &[(THREE, 8, 8), (FOUR, 9, 10)];

#[test]
fn calls_that_compete_leave_three_paths(rt: HostRuntime) -> Result<(), Fail> {
    for (calls, fewest, most) in COMPETING {
        for _time in 0..20 {
            let mut streams = Streams::new(rt.alloc(), calls, Fails::Nothing);
            let line = "live --dial 2 --completing 2";
            let exit = streams.run(&rt, rt.alloc(), &RealFiles { rt: &rt }, line)?;
            let text = streams.written();
            check_eq!(rt; exit.status(), 0);
            check!(rt; text.ends_with("\nPATHS,3\nCLOSED,12\n"), text);
            let lines = text.lines().count();
            check!(rt; *fewest <= lines && lines <= *most, text);
        }
    }
    Ok(())
}

/// The rows of examples/live_calls.csv.
const EXAMPLE_CALLS: &str =
    "C,1,3041,5551234,R\nC,2,1000,5551234,R\nC,3,2000,5551234,K\nC,4,3052,2340004,K\n";

/// Calls of sixty lines to another office.
fn sixty_calls(alloc: Global) -> Result<String, AllocError> {
    let mut calls = String::new(alloc);
    for call in 0..60 {
        let (frame, switch) = (call % 10, call / 10);
        write!(calls, "C,{call},{frame}{switch}00,5551234,R\n")?;
    }
    Ok(calls)
}

/// Does calls with these markers. Returns the status and the output.
fn done<T: Threads + Wait + Sync>(
    threads: &T,
    alloc: Global,
    markers: &CallMarkers,
    calls: &str,
) -> Result<(Status, Vec<u8>), EngineFault> {
    let gates = open_gates(alloc, markers)?;
    let mut source = Counted::new(calls.as_bytes());
    let mut sink = Counted::new(Vec::new(alloc));
    let status = run_live(
        threads,
        alloc,
        PlanSource::Text(EXAMPLE.as_bytes()),
        markers,
        gates,
        &mut source,
        &mut sink,
    )?;
    Ok((status, sink.into_inner()))
}

/// The records are one legal history in which each call is dialled once.
#[test]
fn calls_are_one_legal_history(rt: HostRuntime) -> Result<(), Fail> {
    let sixty = sixty_calls(rt.alloc())?;
    for (calls, dialled) in [(EXAMPLE_CALLS, 4), (sixty.as_str(), 60)] {
        for of_each in [1, 2] {
            let markers = CallMarkers::new(of_each, of_each).expect(&rt, "there are few");
            let (status, written) = done(&rt, rt.alloc(), &markers, calls)?;
            let text = str::from_utf8(&written).unwrap_or("this is no text");
            check_eq!(rt; (status, text.matches(",D,").count()), (Status::Fine, dialled), text);
            let mut streams = Streams::new(rt.alloc(), text, Fails::Nothing);
            let exit = streams.run(&rt, rt.alloc(), &RealFiles { rt: &rt }, "audit")?;
            check_eq!(rt; exit.status(), 0, text);
        }
    }
    Ok(())
}
