//! Calls done by all desks of a fabric, each on its own thread.

ghost use Rattle.std.specs.Prelude.{◌≡◌, ◌≤◌, ◌<◌, ℕ, List, [], All, IfOk, OnOk, length, map, slice_get};
ghost use Rattle.std.specs.Prelude.{vec_len};
ghost use Rattle.std.specs.List.Sorted.{IsNonDecreasingBy};
ghost use Rattle.fair_queue.specs.Items.{SameItems};
ghost use Rattle.fair_queue.specs.Tickets.{IsWhole};
ghost use Rattle.xbar_moves.specs.declared.kinds.Kind.TheVariants.{Completing, Dial};
ghost use Rattle.xbar_fabric.specs.Meetings.{AreAllIdle};
ghost use Rattle.xbar_fabric.specs.Views.{DeskView};
ghost use Rattle.xbar_markers.specs.Calls.{AreServed, HasCallNo, HasDialTone};
ghost use Rattle.xbar_markers.specs.ThreadStates.{HaveServed, IsThere, desks_at};
ghost use Rattle.xbar_markers.specs.Shares.{AreOpen, HasTickets, IsFilled, IsNewShare};
ghost use Rattle.xbar_markers.specs.Shares.{IsShareOf, MayUse};
ghost use Rattle.xbar_markers.specs.DesksByKind.{AreDesksByKind, kinds_of};
ghost use Rattle.xbar_markers.specs.Gates.{AreForDesks};
ghost use Rattle.xbar_markers.specs.Work.{AreShort, HaveWorked};
ghost use Rattle.xbar_markers.specs.declared.call.Call.{Call as CallView};

use crate::call::Call;
use crate::dialled_call::DialledCall;
use crate::gate::Gate;
use crate::gathering::{desks_of, in_turn_order};
use crate::queues::Queues;
use crate::share::Share;
use crate::stages::{Stages, run_stages};
use crate::thread_state::{gather, open_states};
use crate::words::Words;
use crate::worker::Worker;
use std::alloc::{AllocError, Global};
use std::marker::Brand;
use std::mem;
use std::sync::Wait;
use std::thread::Threads;
use xbar_fabric::{Desk, Fabric, Kind};
use xbar_office::Record;

/// The number of desks before the first that completes calls.
fn count_dialling(desks: &[Desk]) -> usize
    ensures { (dialling completing : ℕ) →
        map (λ desk. desk.kind) desks.now ≡ kinds_of dialling completing → result ≡ dialling }
{
    let mut count = 0;
    for desk in desks {
        if let Kind::Completing = desk.kind() {
            return count;
        }
        count += 1;
    }
    count
}

/// Puts all calls into the first queue, which has room for them.
fn fill<R: Wait, W: Words>(
    rt: &R,
    queues: &Queues<DialledCall<W>>,
    whole: &mut Share<DialledCall<W>>,
    calls: &[Call],
)
    requires new { IsNewShare queues.now whole.old }
    requires room { length calls.now ≤ queues.now.calls_in.capacity }
    requires call_nos { All HasCallNo calls.now }
    ensures { IsFilled queues.now calls.now whole.new }
{
    for call in calls {
        let Ok(()) = queues.calls_in.put(rt, &mut whole.calls, *call) else {
            unreachable!()
        };
    }
}

/// Has the first worker dial the calls that are still in the first queue.
fn dial_left<G: Gate + Drop, R: Wait, W: Words>(
    rt: &R,
    fabric: &Fabric,
    queues: &Queues<DialledCall<W>>,
    workers: &mut Vec<Worker<Desk, G>>,
    whole: &mut Share<DialledCall<W>>,
) -> Result<(), AllocError>
    requires words { W.table ≡ fabric.now.table }
    requires open { AreOpen queues.now }
    requires may { MayUse whole.old queues.now }
    requires parts { IsWhole whole.old.calls }
    requires first { IsThere Dial fabric.now workers.old.items 0 }
    ensures tickets { HasTickets whole.old whole.new }
    ensures gone { OnOk result (SameItems whole.new.calls.put whole.new.calls.taken) }
    ensures served { OnOk result
        (HaveServed workers.old.items whole.old workers.new.items whole.new) }
    ensures others { OnOk result ((k : ℕ) → 0 < k →
        slice_get workers.new.items k ≡ slice_get workers.old.items k) }
{
    let Some(first) = workers.get_mut(0) else {
        unreachable!()
    };
    first.dial_all(rt, fabric, queues, whole)
}

/// Has the worker at this index complete the calls that are still in the second queue, or that
/// this queue handed back.
fn complete_rest<G: Gate + Drop, R: Wait, W: Words>(
    rt: &R,
    fabric: &Fabric,
    queues: &Queues<DialledCall<W>>,
    workers: &mut Vec<Worker<Desk, G>>,
    at: usize,
    whole: &mut Share<DialledCall<W>>,
) -> Result<(), AllocError>
    requires words { W.table ≡ fabric.now.table }
    requires open { AreOpen queues.now }
    requires may { MayUse whole.old queues.now }
    requires parts { IsWhole whole.old.tasks }
    requires kept { All HasDialTone whole.old.kept.items }
    requires worker { IsThere Completing fabric.now workers.old.items at }
    ensures calls { whole.new.calls ≡ whole.old.calls }
    ensures gone { OnOk result (SameItems whole.new.tasks.put whole.new.tasks.taken) }
    ensures none { OnOk result (whole.new.kept.items ≡ []) }
    ensures served { OnOk result
        (HaveServed workers.old.items whole.old workers.new.items whole.new) }
{
    let Some(worker) = workers.get_mut(at) else {
        unreachable!()
    };
    worker.complete_all(rt, fabric, queues, whole, false)?;
    worker.complete_kept(rt, fabric, whole)
}

/// Lets all desks work, each on its own thread, until both queues have nothing for them. Returns
/// the workers, their shares joined into one, and the number of workers that dial.
fn work_all<G: Gate + Send + Drop, R: Threads + Wait + Sync, W: Words + Send + Sync>(
    rt: &R,
    alloc: Global,
    fabric: &Fabric,
    queues: &Queues<DialledCall<W>>,
    mut whole: Share<DialledCall<W>>,
    desks: Vec<Desk>,
    gates: Vec<G>,
) -> Result<(Vec<Worker<Desk, G>>, Share<DialledCall<W>>, usize), AllocError>
    requires words { W.table ≡ fabric.now.table }
    requires open { AreOpen queues.now }
    requires filled { (calls : List CallView) × IsFilled queues.now calls whole }
    requires desks { AreDesksByKind desks.items fabric.now }
    requires gates { vec_len gates ≡ vec_len desks }
    requires for_desks { AreForDesks G.IsAt gates.items desks.items }
    ensures may { IfOk result (λ done. MayUse done.1 queues.now) }
    ensures parts { IfOk result (λ done. IsWhole done.1.calls × IsWhole done.1.tasks) }
    ensures put { IfOk result (λ done. done.1.calls.put ≡ whole.calls.put) }
    ensures dialling { IfOk result (λ done. (0 < done.2)
        × IsThere Dial fabric.now done.0.items 0) }
    ensures completing { IfOk result (λ done.
        IsThere Completing fabric.now done.0.items done.2) }
    ensures share { IfOk result (λ done.
        IsShareOf desks.items (desks_at done.0.items) done.1) }
{
    let dialling_count = count_dialling(desks.as_slice());
    let mut dialling = open_states(alloc, fabric, queues, &mut whole, desks, gates)?;
    let completing = dialling.split_off(dialling_count)?;
    let before = Stages {
        dialling,
        completing,
        whole,
    };
    let Stages {
        dialling,
        completing,
        mut whole,
    } = run_stages(rt, alloc, fabric, queues, before)?;
    let mut workers = Vec::new(alloc);
    gather(fabric, queues, dialling, &mut whole, &mut workers)?;
    gather(fabric, queues, completing, &mut whole, &mut workers)?;
    Ok((workers, whole, dialling_count))
}

/// Has the first worker of each kind do what is still in the queues. Returns the records of all
/// jobs, in turn order.
fn finish<G: Gate + Drop, R: Wait, W: Words>(
    rt: &R,
    alloc: Global,
    fabric: &Fabric,
    queues: &Queues<DialledCall<W>>,
    workers: &mut Vec<Worker<Desk, G>>,
    dialling: usize,
    whole: &mut Share<DialledCall<W>>,
) -> Result<Vec<Record>, AllocError>
    requires words { W.table ≡ fabric.now.table }
    requires open { AreOpen queues.now }
    requires may { MayUse whole.old queues.now }
    requires parts { IsWhole whole.old.calls × IsWhole whole.old.tasks }
    requires first { (0 < dialling) × IsThere Dial fabric.now workers.old.items 0 }
    requires worker { IsThere Completing fabric.now workers.old.items dialling }
    requires share { (befores : List DeskView) ×
        IsShareOf befores (desks_at workers.old.items) whole.old }
    ensures desks { IfOk result (λ records. (befores : List DeskView) →
        IsShareOf befores (desks_at workers.old.items) whole.old →
        HaveWorked befores (desks_at workers.new.items) records.items) }
    ensures served { IfOk result (λ records. (befores : List DeskView) →
        IsShareOf befores (desks_at workers.old.items) whole.old →
        AreServed (AreShort (desks_at workers.new.items)) whole.old.calls.put records.items) }
    ensures order { IfOk result (λ records. IsNonDecreasingBy (λ r. r.turn) records.items) }
{
    dial_left(rt, fabric, queues, workers, whole)?;
    complete_rest(rt, fabric, queues, workers, dialling, whole)?;
    in_turn_order(alloc, mem::replace(&mut whole.ended, Vec::new(alloc)))
}

/// Does the calls in the first queue. Returns the desks and the records of all jobs, in turn
/// order.
fn run_filled<G: Gate + Send + Drop, R: Threads + Wait + Sync, W: Words + Send + Sync>(
    rt: &R,
    alloc: Global,
    fabric: &Fabric,
    queues: &Queues<DialledCall<W>>,
    whole: Share<DialledCall<W>>,
    desks: Vec<Desk>,
    gates: Vec<G>,
) -> Result<(Vec<Desk>, Vec<Record>), AllocError>
    requires words { W.table ≡ fabric.now.table }
    requires open { AreOpen queues.now }
    requires filled { (calls : List CallView) × IsFilled queues.now calls whole }
    requires desks { AreDesksByKind desks.items fabric.now }
    requires gates { vec_len gates ≡ vec_len desks }
    requires for_desks { AreForDesks G.IsAt gates.items desks.items }
    ensures desks { IfOk result (λ ran. HaveWorked desks.items ran.0.items ran.1.items) }
    ensures served { IfOk result (λ ran.
        AreServed (AreShort ran.0.items) whole.calls.put ran.1.items) }
    ensures order { IfOk result (λ ran. IsNonDecreasingBy (λ r. r.turn) ran.1.items) }
{
    let (mut workers, mut whole, dialling) = work_all(
        rt, alloc, fabric, queues, whole, desks, gates,
    )?;
    let records = finish(
        rt,
        alloc,
        fabric,
        queues,
        &mut workers,
        dialling,
        &mut whole,
    )?;
    Ok((desks_of(alloc, workers)?, records))
}

/// Does all calls as `run_desks` does, with notes that are of the fabric's words.
fn run_on<W: Words + Send + Sync, G: Gate + Send + Drop, R: Threads + Wait + Sync>(
    rt: &R,
    alloc: Global,
    fabric: &Fabric,
    desks: Vec<Desk>,
    calls: &[Call],
    gates: Vec<G>,
) -> Result<(Vec<Desk>, Vec<Record>), AllocError>
    requires words { W.table ≡ fabric.now.table }
    requires desks { AreDesksByKind desks.items fabric.now }
    requires call_nos { All HasCallNo calls.now }
    requires gates { vec_len gates ≡ vec_len desks }
    requires for_desks { AreForDesks G.IsAt gates.items desks.items }
    ensures desks { IfOk result (λ ran. HaveWorked desks.items ran.0.items ran.1.items) }
    ensures served { IfOk result (λ ran.
        AreServed (AreShort ran.0.items) calls.now ran.1.items) }
    ensures order { IfOk result (λ ran. IsNonDecreasingBy (λ r. r.turn) ran.1.items) }
{
    let (queues, mut whole) = Queues::<DialledCall<W>>::open(alloc, calls.len(), desks.len())?;
    fill(rt, &queues, &mut whole, calls);
    run_filled(rt, alloc, fabric, &queues, whole, desks, gates)
}

/// Does all calls with all desks of a fabric, each on its own thread. Returns the desks and the
/// records of all jobs, in turn order. Each desk has the gate at its index, which is for its
/// marker.
///
/// If memory runs out the desks are lost, and the turns that they took stay in the fabric.
pub fn run_desks<G: Gate + Send + Drop, R: Threads + Wait + Sync>(
    rt: &R,
    alloc: Global,
    fabric: &Fabric,
    desks: Vec<Desk>,
    calls: &[Call],
    gates: Vec<G>,
) -> Result<(Vec<Desk>, Vec<Record>), AllocError>
    requires desks { AreDesksByKind desks.items fabric.now }
    requires call_nos { All HasCallNo calls.now }
    requires gates { vec_len gates ≡ vec_len desks }
    requires for_markers { AreForDesks G.IsAt gates.items desks.items }
    ensures desks { IfOk result (λ ran. HaveWorked desks.items ran.0.items ran.1.items) }
    ensures served { IfOk result (λ ran.
        AreServed (AreShort ran.0.items) calls.now ran.1.items) }
    ensures order { IfOk result (λ ran. IsNonDecreasingBy (λ r. r.turn) ran.1.items) }
    ensures by_kind { IfOk result (λ ran. AreDesksByKind ran.0.items fabric.now) }
    ensures idle { IfOk result (λ ran.
        AreAllIdle desks.items fabric.now → AreAllIdle ran.0.items fabric.now) }
{
    run_on::<Brand, G, R>(rt, alloc, fabric, desks, calls, gates)
}
