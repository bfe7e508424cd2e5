//! One, two and four desks of the office on threads of their own; and for comparison the same
//! number of threads that do whole jobs behind one lock, of markers of `xbar_core` behind one lock
//! that they acquire for each step, and of threads that make plain atomic operations.

ghost use Rattle.std.specs.Prelude.{◌≤◌};
ghost use Rattle.xbar_fabric.specs.Views.{IsDeskOf};

mod plain;
mod state;

use crate::lone_marker::{Pace, serve};
use crate::markers::step;
use crate::timing::{Tally, nanoseconds_each};
use state::State;
use std::alloc::Global;
use std::rt::Clock;
use std::sync::{Mutex, Wait};
use std::thread::Threads;
use std::time::Instant;
use std::{io, thread};
use xbar_core::{Event, Exchange};
use xbar_equip::WORD_COUNT;
use xbar_fabric::{Answer, Desk, Fabric, Kind, Kinds};
use xbar_plan::Plan;

/// Markers to run, each on a thread of its own: the plan of their office, their kinds, and the
/// number of times that each goes on.
#[derive(Drop)]
struct Crew<'a> {
    plan: &'a Plan,
    kinds: &'a Kinds,
    times: u32,
}

/// Makes the desk's next step and those after it that ask for no connector, or assigns its next
/// job. A desk that is denied a connector gives back all that it holds, and waits.
fn go_on(fabric: &Fabric, desk: &mut Desk, state: &mut State)
    requires { IsDeskOf desk.old fabric.now }
    ensures { IsDeskOf desk.new fabric.now }
{
    let Some(answer) = desk.step(fabric) else {
        let job = state.next_job(desk.marker());
        let _assigned = desk.assign(0, job);
        return;
    };
    if let Answer::Held(_) | Answer::Preferred(_) = answer {
        let _given = desk.give_back(fabric);
        state.wait();
        return;
    }
    // After a request that wasn't denied, the connector is seized next.
    if let Answer::Asked(_) = answer {
        state.count(1, false);
        return;
    }
    let more = desk.run(fabric, &mut ()) as u64;
    let has_ended = desk.is_idle();
    if has_ended {
        let _record = desk.record();
    }
    state.count(more.saturating_add(1), has_ended);
}

/// Has a desk go on `times` times, and then leave no connector held, which the others would be
/// denied for ever.
fn work(fabric: &Fabric, mut desk: Desk, times: u32) -> Tally
    requires { IsDeskOf desk fabric.now }
{
    let mut state = State::default();
    for _made in 0..times {
        go_on(fabric, &mut desk, &mut state);
    }
    let _given = desk.give_back(fabric);
    // Past its turn a job can't be denied anything, and is done to its end.
    let _made = desk.run(fabric, &mut ());
    state.tally
}

/// Has the crew's markers work as desks. Returns how much all have done.
fn work_at_desks<R: Threads + Sync>(rt: &R, alloc: Global, crew: &Crew) -> io::Result<Tally> {
    let times = crew.times;
    let Ok((fabric, desks)) = Fabric::open(alloc, crew.plan, crew.kinds) else {
        return Ok(Tally::default());
    };
    let tallies = thread::map_vec(
        rt,
        desks,
        &|desk: Desk| -> Tally
            requires { IsDeskOf desk fabric }
        { work(&fabric, desk, times) },
    )?;
    Ok(Tally::of_all(&tallies))
}

/// Has a marker of a number below 10 do `jobs` jobs, each whole, on the words under the lock.
fn work_whole<R: Wait>(
    rt: &R,
    plan: &Plan,
    words: &Mutex<[u64; WORD_COUNT]>,
    marker: u32,
    jobs: u32,
) -> Tally {
    let mut state = State::default();
    for _done in 0..jobs {
        let job = state.next_job(marker);
        let mut words = words.lock(rt);
        let steps = serve(plan, &mut *words, job, Pace::Runs);
        state.tally.count(u64::from(steps), true);
    }
    state.tally
}

/// Has the crew's markers do whole jobs behind one lock, one for each four times that they would go
/// on otherwise. Returns how much all have done.
fn work_at_whole_jobs<R: Threads + Wait + Sync>(
    rt: &R,
    alloc: Global,
    crew: &Crew,
) -> io::Result<Tally> {
    let (plan, jobs) = (crew.plan, crew.times / 4);
    let words = Mutex::new([0; WORD_COUNT]);
    let tallies = thread::map_indices(
        rt,
        alloc,
        crew.kinds.as_slice().len(),
        &|marker: usize| -> Tally { work_whole(rt, plan, &words, (marker % 10) as u32, jobs) },
    )?;
    Ok(Tally::of_all(&tallies))
}

/// Makes the marker's next step, or assigns its next job. Returns whether the marker gave back.
fn go_on_locked(office: &mut Exchange, marker: u32, state: &mut State) -> bool {
    let has_ended = match step(office, marker) {
        Event::Idle => {
            let _assigned = office.assign(marker, 0, state.next_job(marker));
            return false;
        }
        Event::Finished(_) => true,
        Event::Moved | Event::Refused { .. } | Event::Preferred(_) => false,
    };
    let gives_up = state.count(1, has_ended) && marker < office.marker_count();
    if gives_up {
        let _given = office.give_back(marker);
    }
    gives_up
}

/// Has the marker leave no connector held, which the others would be denied for ever: it gives
/// back, or past its turn does its job to the end.
fn let_go(office: &mut Exchange, marker: u32) {
    if marker >= office.marker_count() {
        return;
    }
    if office.is_past_turn(marker) {
        // More steps than a job past its turn has left.
        office.steps(marker, 128);
    } else {
        let _given = office.give_back(marker);
    }
}

/// Has a marker go on `times` times, each time under the lock.
fn work_locked<R: Wait>(rt: &R, office: &Mutex<Exchange>, marker: u32, times: u32) -> Tally {
    let mut state = State::default();
    for _made in 0..times {
        let gave = go_on_locked(&mut office.lock(rt), marker, &mut state);
        if gave {
            thread::yield_now();
        }
    }
    let_go(&mut office.lock(rt), marker);
    state.tally
}

/// Has the crew's markers work in one office behind a lock. Returns how much all have done.
fn work_behind_lock<R: Threads + Wait + Sync>(
    rt: &R,
    alloc: Global,
    crew: &Crew,
) -> io::Result<Tally> {
    let times = crew.times;
    let Ok(office) = Exchange::open(alloc, crew.plan, crew.kinds) else {
        return Ok(Tally::default());
    };
    let office = Mutex::new(office);
    let tallies = thread::map_indices(
        rt,
        alloc,
        crew.kinds.as_slice().len(),
        &|marker: usize| -> Tally { work_locked(rt, &office, marker as u32, times) },
    )?;
    Ok(Tally::of_all(&tallies))
}

/// Measures all of these, with each thread going on 1000 * `thousands` times, and prints the
/// times.
pub fn measure<R: Eprint + Clock + Threads + Wait + Sync>(
    rt: &R,
    alloc: Global,
    plan: &Plan,
    thousands: u32,
) -> io::Result<()>
    requires { thousands ≤ 100000 }
{
    let times = thousands * 1000;
    let kinds = [Kind::Combined; 4];
    for count in [1_u32, 2, 4] {
        let Some(kinds) = Kinds::new(&kinds[..count as usize]) else {
            continue;
        };
        let crew = Crew {
            plan,
            kinds: &kinds,
            times,
        };
        let start = Instant::now(rt)?;
        let done = work_at_desks(rt, alloc, &crew)?;
        let (step, job) = done.paces(start.elapsed(rt)?, count);
        eprintln!(rt; "{count} desks of the office: {step} ns a step, {job} ns a job")?;
        let start = Instant::now(rt)?;
        let done = work_at_whole_jobs(rt, alloc, &crew)?;
        let (step, job) = done.paces(start.elapsed(rt)?, count);
        eprintln!(rt; "{count} threads, a lock for each job: {step} ns a step, {job} ns a job")?;
        let start = Instant::now(rt)?;
        let done = work_behind_lock(rt, alloc, &crew)?;
        let (step, job) = done.paces(start.elapsed(rt)?, count);
        eprintln!(rt; "{count} markers, a lock for each step: {step} ns a step, {job} ns a job")?;
        let start = Instant::now(rt)?;
        plain::operate(rt, alloc, count, times)?;
        let step = nanoseconds_each(start.elapsed(rt)?, 1, u64::from(times));
        eprintln!(rt; "{count} threads of plain operations: {step} ns each")?;
    }
    Ok(())
}
