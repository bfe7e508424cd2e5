//! Workers with their shares, before they go to threads and when they come back.

ghost use Rattle.std.specs.Prelude.{◌≡◌, ◌+◌, ◌-◌, ◌<◌, ◌++◌, List, All, IfOk, OnOk, map, vec_len};
ghost use Rattle.fair_queue.specs.Tickets.{with_fewer_parts};
ghost use Rattle.xbar_moves.specs.declared.kinds.Kind.{Kind as KindView};
ghost use Rattle.xbar_fabric.specs.Views.{DeskView};
ghost use Rattle.xbar_markers.specs.Gates.{AreForDesks};
ghost use Rattle.xbar_markers.specs.ThreadStates.{AreStatesOf, IsThreadState, desk_at};
ghost use Rattle.xbar_markers.specs.Shares.{IsShareOf, MayUse};
ghost use Rattle.xbar_markers.specs.Work.{IsReady};

use crate::counted_gate::CountedGate;
use crate::dialled_call::DialledCall;
use crate::gate::Gate;
use crate::lists::put_behind;
use crate::queues::Queues;
use crate::share::Share;
use crate::words::Words;
use crate::worker::Worker;
use fair_queue::Item;
use std::alloc::{AllocError, Global};
use xbar_fabric::{Desk, Fabric};

/// A worker and its share. It is `Send` if the desk and the gate are.
#[derive(Drop)]
pub struct ThreadState<D: Drop, G: Gate + Drop, C: Item + Drop> {
    pub worker: Worker<D, G>,
    pub share: Share<C>,
}

/// A thread state for each of the desks, with a gate and one part of each queue's ticket.
pub fn open_states<G: Gate + Drop, W: Words>(
    alloc: Global,
    fabric: &Fabric,
    queues: &Queues<DialledCall<W>>,
    whole: &mut Share<DialledCall<W>>,
    desks: Vec<Desk>,
    gates: Vec<G>,
) -> Result<Vec<ThreadState<Desk, G, DialledCall<W>>>, AllocError>
    requires may { MayUse whole.old queues.now }
    requires gates { vec_len gates ≡ vec_len desks }
    requires for_desks { AreForDesks G.IsAt gates.items desks.items }
    requires parts { (vec_len desks < whole.old.calls.parts)
        × (vec_len desks < whole.old.tasks.parts) }
    requires ready { All (λ desk. IsReady desk fabric.now) desks.items }
    ensures calls { OnOk result
        (whole.new.calls ≡ with_fewer_parts whole.old.calls (vec_len desks)) }
    ensures tasks { OnOk result
        (whole.new.tasks ≡ with_fewer_parts whole.old.tasks (vec_len desks)) }
    ensures lists { (whole.new.kept ≡ whole.old.kept) × (whole.new.ended ≡ whole.old.ended) }
    ensures desks { IfOk result (λ states. map desk_at states.items ≡ desks.items) }
    ensures states { IfOk result (λ states.
        All (λ state. IsThreadState (desk_at state).kind fabric.now queues.now state)
        states.items) }
    ensures none { IfOk result (λ states. AreStatesOf desks.items states.items) }
{
    let mut states = Vec::with_capacity(alloc, desks.len())?;
    let mut gates = gates.into_iter();
    for desk in desks {
        let Some(gate) = gates.next() else {
            unreachable!()
        };
        let gate = CountedGate::new(gate, desk.marker());
        let worker = Worker { desk, gate };
        let share = whole.cut(alloc, queues);
        put_behind(&mut states, ThreadState { worker, share })?;
    }
    Ok(states)
}

/// Joins the shares of thread states into `whole`, and appends their workers to `workers`.
pub fn gather<G: Gate + Drop, W: Words>(
    _fabric: &Fabric,
    queues: &Queues<DialledCall<W>>,
    states: Vec<ThreadState<Desk, G, DialledCall<W>>>,
    whole: &mut Share<DialledCall<W>>,
    workers: &mut Vec<Worker<Desk, G>>,
) -> Result<(), AllocError>
    requires may { MayUse whole.old queues.now }
    requires states { (kind : KindView) × All
        (IsThreadState kind _fabric.now queues.now) states.items }
    ensures may { MayUse whole.new queues.now }
    ensures calls { OnOk result (whole.new.calls.parts ≡ whole.old.calls.parts + vec_len states) }
    ensures tasks { OnOk result (whole.new.tasks.parts ≡ whole.old.tasks.parts + vec_len states) }
    ensures put { OnOk result (whole.new.calls.put ≡ whole.old.calls.put) }
    ensures workers { OnOk result
        (workers.new.items ≡ workers.old.items ++ map (λ state. state.worker) states.items) }
    ensures shares { OnOk result ((befores desks others : List DeskView) →
        IsShareOf befores desks whole.old → AreStatesOf others states.items →
        IsShareOf (befores ++ others) (desks ++ map desk_at states.items) whole.new) }
{
    for state in states {
        let ThreadState { worker, share } = state;
        whole.join(queues, share)?;
        put_behind(workers, worker)?;
    }
    Ok(())
}
