//! Workers that complete calls and release them.

ghost use Rattle.std.specs.Prelude.{◌≡◌, ◌+◌, ◌*◌, ◌++◌, [], All, OnOk, Ok, false};
ghost use Rattle.fair_queue.specs.Items.{SameItems};
ghost use Rattle.fair_queue.specs.Tickets.{IsWhole};
ghost use Rattle.xbar_moves.specs.declared.kinds.Kind.TheVariants.{Completing};
ghost use Rattle.xbar_markers.specs.Calls.{HasDialTone, is_connected as is_connected_end};
ghost use Rattle.xbar_markers.specs.Shares.{HasCompleted, HasServed, HasTickets, MayServe};
ghost use Rattle.xbar_markers.specs.Work.{IsReady};

use crate::call_records::CallRecords;
use crate::dialled_call::DialledCall;
use crate::gate::Gate;
use crate::lists::put_behind;
use crate::queues::Queues;
use crate::share::Share;
use crate::task::Task;
use crate::words::Words;
use crate::worker::Worker;
use std::alloc::AllocError;
use std::sync::Wait;
use xbar_fabric::{Desk, Fabric};
use xbar_office::{End, Job, Record};

fn is_connected(complete: &Record) -> bool
    ensures { result ≡ is_connected_end complete.now.reply.end }
{
    matches!(complete.reply.end, End::Connected { .. })
}

impl<G: Gate + Drop> Worker<Desk, G> {
    /// Does what is left to do for a call with dial tone: completes it, and releases it if that is
    /// asked for and it is connected. Learns the call's note first, so that this comes after the
    /// call's dial tone job.
    fn complete<R: Wait, W: Words>(
        &mut self,
        rt: &R,
        fabric: &Fabric,
        call: DialledCall<W>,
    ) -> CallRecords
        requires words { W.table ≡ fabric.now.table }
        requires ready { IsReady self.old.desk fabric.now }
        requires kind { self.old.desk.kind ≡ Completing }
        requires tone { HasDialTone call }
        ensures { HasCompleted self.old.desk self.new.desk call result }
    {
        let DialledCall {
            call,
            dial,
            note,
            ..
        } = call;
        self.desk.learn(fabric, note);
        let first = 3 * call.call_no;
        let complete = self.do_job(rt, fabric, first + 1, Job::Complete(call.line, call.digits));
        let release = if call.release && is_connected(&complete) {
            Some(self.do_job(rt, fabric, first + 2, Job::Release(call.line)))
        } else {
            None
        };
        CallRecords {
            call,
            dial,
            complete: Some(complete),
            release,
        }
    }

    /// Takes a task and does it. With `wait` it waits for a task. Returns whether to go on: not if
    /// there was no task, nor after a stop if it waits.
    fn complete_next<R: Wait, W: Words>(
        &mut self,
        rt: &R,
        fabric: &Fabric,
        queues: &Queues<DialledCall<W>>,
        share: &mut Share<DialledCall<W>>,
        wait: bool,
    ) -> Result<bool, AllocError>
        requires words { W.table ≡ fabric.now.table }
        requires serve { MayServe Completing fabric.now queues.now self.old.desk share.old }
        ensures nothing { result ≡ Ok false → wait ≡ false → IsWhole share.old.tasks →
            SameItems share.new.tasks.put share.new.tasks.taken }
        ensures ready { IsReady self.new.desk fabric.now }
        ensures kind { self.new.desk.kind ≡ Completing }
        ensures tickets { HasTickets share.old share.new }
        ensures put { share.new.tasks.put ≡ share.old.tasks.put }
        ensures calls { share.new.calls ≡ share.old.calls }
        ensures kept { share.new.kept.items ≡ share.old.kept.items }
        ensures served { OnOk result (HasServed self.old.desk share.old self.new.desk share.new) }
    {
        let task = if wait {
            queues.tasks_out.take(rt, &mut share.tasks)
        } else {
            queues.tasks_out.try_take(rt, &mut share.tasks)
        };
        match task {
            None => Ok(false),
            Some(Task::Stop) => Ok(!wait),
            Some(Task::Complete(call)) => {
                put_behind(&mut share.ended, self.complete(rt, fabric, call))?;
                Ok(true)
            }
        }
    }

    /// Completes calls: with `wait` until it takes a stop, else until the queue is empty.
    pub fn complete_all<R: Wait, W: Words>(
        &mut self,
        rt: &R,
        fabric: &Fabric,
        queues: &Queues<DialledCall<W>>,
        share: &mut Share<DialledCall<W>>,
        wait: bool,
    ) -> Result<(), AllocError>
        requires words { W.table ≡ fabric.now.table }
        requires serve { MayServe Completing fabric.now queues.now self.old.desk share.old }
        ensures nothing { OnOk result (wait ≡ false → IsWhole share.old.tasks →
            SameItems share.new.tasks.put share.new.tasks.taken) }
        ensures ready { IsReady self.new.desk fabric.now }
        ensures kind { self.new.desk.kind ≡ Completing }
        ensures tickets { HasTickets share.old share.new }
        ensures calls { share.new.calls ≡ share.old.calls }
        ensures kept { share.new.kept.items ≡ share.old.kept.items }
        ensures served { OnOk result (HasServed self.old.desk share.old self.new.desk share.new) }
    {
        for _ in rt.forever() {
            if !self.complete_next(rt, fabric, queues, share, wait)? {
                return Ok(());
            }
        }
        unreachable!()
    }

    /// Completes the calls that the second queue handed back.
    pub fn complete_kept<R: Wait, W: Words>(
        &mut self,
        rt: &R,
        fabric: &Fabric,
        share: &mut Share<DialledCall<W>>,
    ) -> Result<(), AllocError>
        requires words { W.table ≡ fabric.now.table }
        requires ready { IsReady self.old.desk fabric.now }
        requires kind { self.old.desk.kind ≡ Completing }
        requires kept { All HasDialTone share.old.kept.items }
        ensures ready { IsReady self.new.desk fabric.now }
        ensures kind { self.new.desk.kind ≡ Completing }
        ensures tickets { (share.new.calls ≡ share.old.calls)
            × (share.new.tasks ≡ share.old.tasks) }
        ensures none { OnOk result (share.new.kept.items ≡ []) }
        ensures served { OnOk result (HasServed self.old.desk share.old self.new.desk share.new) }
    {
        while let Some(call) = share.kept.pop() {
            put_behind(&mut share.ended, self.complete(rt, fabric, call))?;
        }
        Ok(())
    }
}
