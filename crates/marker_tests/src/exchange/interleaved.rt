//! Two markers that share the jobs of a list, in several interleavings.

use super::*;

/// A number of steps of marker 0, then a number of steps of marker 1, and so on from the first.
const RHYTHMS: [[(u32, u32); 2]; 7] = [
    [(0, 128), (1, 0)],
    [(0, 1), (1, 1)],
    [(0, 3), (1, 1)],
    [(0, 1), (1, 5)],
    [(0, 7), (1, 11)],
    [(0, 22), (1, 19)],
    [(0, 27), (1, 27)],
];

const LISTS: [&[&str]; 4] = [
    // Trunks are used up.
    &[
        "D 3041",
        "C 3041 5551234",
        "D 3052",
        "C 3052 5550000",
        "D 1000",
        "C 1000 5559999",
        "D 2000",
        "C 2000 5550000",
    ],
    // Busy lines are called.
    &[
        "D 3052",
        "D 3041",
        "C 3041 2340001",
        "D 3041",
        "C 3041 2340002",
    ],
    // A call inside the office is made and released.
    &["D 3041", "C 3041 2340004", "D 1000", "R 3100", "R 3041"],
    // One releases the call from one side while the other marker is at the other side.
    &[
        "D 3041",
        "C 3041 2340004",
        "R 3100",
        "R 3041",
        "D 3100",
        "D 3041",
        "C 3041 2340004",
        "C 3100 2340003",
    ],
];

/// Has the marker, if it is idle, take the next job. The jobs are numbered from 1 on.
fn take_job(rt: &impl Abort, office: &mut Exchange, marker: u32, jobs: &[&str], begun: &mut u32) {
    if office.has_no_job(marker) {
        if let Some(text) = jobs.get(*begun as usize) {
            *begun = begun.saturating_add(1);
            assign(rt, office, marker, *begun, text);
        }
    }
}

/// Has two markers do the jobs. In step with one another they may keep each other from a connector
/// for ever, as each changes its word just before the other would seize it. So what is left in the
/// end is done by one marker alone.
fn work_off(rt: &impl Abort, office: &mut Exchange, rhythm: &[(u32, u32)], jobs: &[&str]) {
    let mut begun = 0;
    for _round in 0..600 {
        for (marker, count) in rhythm {
            if *count > 0 {
                take_job(rt, office, *marker, jobs, &mut begun);
                go_on_for(office, *marker, *count);
            }
        }
    }
    settle(office);
    for text in jobs {
        take_job(rt, office, 0, jobs, &mut begun);
        go_on_for(office, 0, MOST_STEPS_ALONE);
        check!(rt; office.has_no_job(0), text);
    }
}

#[test]
fn two_markers_work_off_a_list_in_all_rhythms(rt: HostRuntime) {
    let plan = example(&rt, rt.alloc());
    for jobs in LISTS {
        for rhythm in &RHYTHMS {
            let mut office = open_exchange(&rt, rt.alloc(), &plan, TWO);
            work_off(&rt, &mut office, rhythm, jobs);
            check_eq!(rt; office.records().len(), jobs.len(), "{jobs:?} by {rhythm:?}");
            check_settled(&rt, rt.alloc(), "worked off", &office);
        }
    }
}
