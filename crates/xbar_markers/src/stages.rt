//! Runs workers, each on its own thread.

ghost use Rattle.std.specs.Prelude.{◌≡◌, All, IfOk, Ok, map, vec_len};
ghost use Rattle.std.specs.Thread.{IsSend, IsSync};
ghost use Rattle.xbar_moves.specs.declared.kinds.Kind.TheVariants.{Completing, Dial};
ghost use Rattle.xbar_fabric.specs.Views.{DeskView};
ghost use Rattle.xbar_markers.specs.ThreadStates.{HasWorkedOn, HaveWorkedOn, IsThreadState};
ghost use Rattle.xbar_markers.specs.Shares.{AreOpen, HasStopped, MayUse};

use crate::dialled_call::DialledCall;
use crate::gate::Gate;
use crate::queues::Queues;
use crate::share::Share;
use crate::task::Task;
use crate::thread_state::ThreadState;
use crate::words::Words;
use fair_queue::Item;
use std::alloc::{AllocError, Global};
use std::sync::Wait;
use std::thread;
use std::thread::{Threads, join, map_vec};
use xbar_fabric::{Desk, Fabric};

/// All results, if none of them is an error.
fn all_ok<T: Drop>(alloc: Global, results: Vec<Result<T, AllocError>>) -> Result<Vec<T>, AllocError>
    ensures { IfOk result (λ all. results.items ≡ map Ok all.items) }
{
    let mut all = Vec::with_capacity(alloc, results.len())?;
    for one in results {
        all.push(one?)?;
    }
    Ok(all)
}

/// Has a worker dial calls until the first queue is empty.
fn dial_at<G: Gate + Drop, R: Wait, W: Words>(
    rt: &R,
    fabric: &Fabric,
    queues: &Queues<DialledCall<W>>,
    mut state: ThreadState<Desk, G, DialledCall<W>>,
) -> Result<ThreadState<Desk, G, DialledCall<W>>, AllocError>
    requires words { W.table ≡ fabric.now.table }
    requires open { AreOpen queues.now }
    requires state { IsThreadState Dial fabric.now queues.now state }
    ensures { IfOk result (HasWorkedOn Dial fabric.now queues.now state) }
{
    state.worker.dial_all(rt, fabric, queues, &mut state.share)?;
    Ok(state)
}

/// Runs the workers that dial, each on its own thread.
fn dial_stage<G: Gate + Send + Drop, R: Threads + Wait + Sync, W: Words + Send + Sync>(
    rt: &R,
    alloc: Global,
    fabric: &Fabric,
    queues: &Queues<DialledCall<W>>,
    states: Vec<ThreadState<Desk, G, DialledCall<W>>>,
) -> Result<Vec<ThreadState<Desk, G, DialledCall<W>>>, AllocError>
    requires words { W.table ≡ fabric.now.table }
    requires open { AreOpen queues.now }
    requires states { All (IsThreadState Dial fabric.now queues.now) states.items }
    ensures { IfOk result (λ after.
        HaveWorkedOn Dial fabric.now queues.now states.items after.items) }
{
    let after = map_vec(
        rt,
        states,
        &|state: ThreadState<Desk, G, DialledCall<W>>| -> Result<
            ThreadState<Desk, G, DialledCall<W>>,
            AllocError,
        >
            requires words { W.table ≡ fabric.now.table }
            requires open { AreOpen queues.now }
            requires state { IsThreadState Dial fabric.now queues.now state }
            ensures { IfOk result (HasWorkedOn Dial fabric.entry.now queues.entry.now state) }
        { dial_at(rt, fabric, queues, state) },
    )?;
    all_ok(alloc, after)
}

/// Has a worker complete calls until it takes a stop.
fn complete_at<G: Gate + Drop, R: Wait, W: Words>(
    rt: &R,
    fabric: &Fabric,
    queues: &Queues<DialledCall<W>>,
    mut state: ThreadState<Desk, G, DialledCall<W>>,
) -> Result<ThreadState<Desk, G, DialledCall<W>>, AllocError>
    requires words { W.table ≡ fabric.now.table }
    requires open { AreOpen queues.now }
    requires state { IsThreadState Completing fabric.now queues.now state }
    ensures { IfOk result (HasWorkedOn Completing fabric.now queues.now state) }
{
    state
        .worker
        .complete_all(rt, fabric, queues, &mut state.share, true)?;
    Ok(state)
}

/// Runs the workers that complete calls, each on its own thread.
fn complete_stage<G: Gate + Send + Drop, R: Threads + Wait + Sync, W: Words + Send + Sync>(
    rt: &R,
    alloc: Global,
    fabric: &Fabric,
    queues: &Queues<DialledCall<W>>,
    states: Vec<ThreadState<Desk, G, DialledCall<W>>>,
) -> Result<Vec<ThreadState<Desk, G, DialledCall<W>>>, AllocError>
    requires words { W.table ≡ fabric.now.table }
    requires open { AreOpen queues.now }
    requires states { All (IsThreadState Completing fabric.now queues.now) states.items }
    ensures { IfOk result (λ after.
        HaveWorkedOn Completing fabric.now queues.now states.items after.items) }
{
    let after = map_vec(
        rt,
        states,
        &|state: ThreadState<Desk, G, DialledCall<W>>| -> Result<
            ThreadState<Desk, G, DialledCall<W>>,
            AllocError,
        >
            requires words { W.table ≡ fabric.now.table }
            requires open { AreOpen queues.now }
            requires state { IsThreadState Completing fabric.now queues.now state }
            ensures { IfOk result (HasWorkedOn Completing fabric.entry.now queues.entry.now state) }
        { complete_at(rt, fabric, queues, state) },
    )?;
    all_ok(alloc, after)
}

/// Puts a stop, for one worker that completes calls, into the second queue, which has room for it.
fn stop_one<R: Wait, W: Words>(
    rt: &R,
    queues: &Queues<DialledCall<W>>,
    whole: &mut Share<DialledCall<W>>,
)
    requires may { MayUse whole.old queues.now }
    ensures { HasStopped whole.old whole.new }
{
    for _ in rt.forever() {
        if queues
            .tasks_in
            .put(rt, &mut whole.tasks, Task::Stop)
            .is_ok()
        {
            return;
        }
        thread::yield_now();
    }
    unreachable!()
}

/// Puts `stops` stops into the second queue.
fn stop_all<R: Wait, W: Words>(
    rt: &R,
    queues: &Queues<DialledCall<W>>,
    whole: &mut Share<DialledCall<W>>,
    stops: usize,
)
    requires may { MayUse whole.old queues.now }
    ensures { HasStopped whole.old whole.new }
{
    for _ in 0..stops {
        stop_one(rt, queues, whole);
    }
}

/// Runs the workers that dial, and then puts the stops, so that no worker waits for ever.
fn dial_and_stop<G: Gate + Send + Drop, R: Threads + Wait + Sync, W: Words + Send + Sync>(
    rt: &R,
    alloc: Global,
    fabric: &Fabric,
    queues: &Queues<DialledCall<W>>,
    states: Vec<ThreadState<Desk, G, DialledCall<W>>>,
    mut whole: Share<DialledCall<W>>,
    stops: usize,
) -> (
    Result<Vec<ThreadState<Desk, G, DialledCall<W>>>, AllocError>,
    Share<DialledCall<W>>,
)
    requires words { W.table ≡ fabric.now.table }
    requires open { AreOpen queues.now }
    requires states { All (IsThreadState Dial fabric.now queues.now) states.items }
    requires may { MayUse whole queues.now }
    ensures states { IfOk result.0 (λ after.
        HaveWorkedOn Dial fabric.now queues.now states.items after.items) }
    ensures whole { HasStopped whole result.1 }
{
    let states = dial_stage(rt, alloc, fabric, queues, states);
    stop_all(rt, queues, &mut whole, stops);
    (states, whole)
}

/// The states of workers that dial and of workers that complete calls, and the share with the
/// remaining parts of the tickets.
pub struct Stages<D: Drop, G: Gate + Drop, C: Item + Drop> {
    pub dialling: Vec<ThreadState<D, G, C>>,
    pub completing: Vec<ThreadState<D, G, C>>,
    pub whole: Share<C>,
}

/// Runs workers of both kinds at once, until each has ended.
pub fn run_stages<G: Gate + Send + Drop, R: Threads + Wait + Sync, W: Words + Send + Sync>(
    rt: &R,
    alloc: Global,
    fabric: &Fabric,
    queues: &Queues<DialledCall<W>>,
    before: Stages<Desk, G, DialledCall<W>>,
) -> Result<Stages<Desk, G, DialledCall<W>>, AllocError>
    requires words { W.table ≡ fabric.now.table }
    requires open { AreOpen queues.now }
    requires dialling { All (IsThreadState Dial fabric.now queues.now) before.dialling.items }
    requires completing { All
        (IsThreadState Completing fabric.now queues.now) before.completing.items }
    requires may { MayUse before.whole queues.now }
    ensures dialling { IfOk result (λ after.
        HaveWorkedOn Dial fabric.now queues.now before.dialling.items after.dialling.items) }
    ensures completing { IfOk result (λ after. HaveWorkedOn Completing fabric.now queues.now
        before.completing.items after.completing.items) }
    ensures whole { IfOk result (λ after. HasStopped before.whole after.whole) }
{
    let Stages {
        dialling,
        completing,
        whole,
    } = before;
    let stops = completing.len();
    // If no thread can be made, the second closure is run first, so that no worker waits for ever.
    let (completed, (dialled, whole)) = join(
        rt,
        move || -> Result<Vec<ThreadState<Desk, G, DialledCall<W>>>, AllocError>
            requires { IsSync R.row × IsSend G.row × IsSend W.row × IsSync W.row
                × (W.table ≡ fabric.now.table) × AreOpen queues.now
                × All (IsThreadState Completing fabric.now queues.now) completing.items }
            ensures { IfOk result (λ after. HaveWorkedOn Completing fabric.entry.now
                queues.entry.now completing.items after.items) }
        { complete_stage(rt, alloc, fabric, queues, completing) },
        move || -> (
            Result<Vec<ThreadState<Desk, G, DialledCall<W>>>, AllocError>,
            Share<DialledCall<W>>,
        )
            requires { IsSync R.row × IsSend G.row × IsSend W.row × IsSync W.row
                × (W.table ≡ fabric.now.table) × AreOpen queues.now
                × All (IsThreadState Dial fabric.now queues.now) dialling.items
                × MayUse whole queues.now }
            ensures { IfOk result.0 (λ after. HaveWorkedOn Dial fabric.entry.now queues.entry.now
                dialling.items after.items)
                × HasStopped whole result.1 }
        { dial_and_stop(rt, alloc, fabric, queues, dialling, whole, stops) },
    );
    Ok(Stages {
        dialling: dialled?,
        completing: completed?,
        whole,
    })
}
