//! Many rows of traffic.

use std::alloc::{AllocError, Global};
use std::test::Fail;
use test_tools::check_eq;
use xbar_traffic::{Mode, RowFault, Traffic, TrafficFault};

/// A row for each job number there is, and then rows of steps.
fn many_rows(alloc: Global) -> Result<String, AllocError> {
    let mut text = String::new(alloc);
    for job_no in 0..10_000 {
        write!(text, "J,0,{job_no},D,3041\n")?;
    }
    let steps = "S,0,9999,,\n".repeat(alloc, 500)?;
    text.push_str(&steps)?;
    Ok(text)
}

#[test]
fn many_rows_are_read(rt: HostRuntime) -> Result<(), Fail> {
    let mut text = many_rows(rt.alloc())?;
    let traffic = Traffic::read(rt.alloc(), Mode::Replay, text.as_bytes())?;
    check_eq!(rt; (traffic.rows.len(), traffic.refusal()), (10_500, None));
    text.push_str("J,0,0,D,3041\n")?;
    let traffic = Traffic::read(rt.alloc(), Mode::Replay, text.as_bytes())?;
    let refusal = TrafficFault {
        row: 10_501,
        fault: RowFault::NumberTwice,
    };
    check_eq!(rt; (traffic.rows.len(), traffic.refusal()), (10_500, Some(refusal)));
    Ok(())
}
