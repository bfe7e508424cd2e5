//! Workers that take calls from the first queue and dial them.

ghost use Rattle.std.specs.Prelude.{◌≡◌, ◌+◌, ◌*◌, OnOk, Ok, false};
ghost use Rattle.fair_queue.specs.Items.{SameItems};
ghost use Rattle.fair_queue.specs.Tickets.{IsWhole};
ghost use Rattle.xbar_office.specs.declared.job.Job.TheVariants as job;
ghost use Rattle.xbar_moves.specs.declared.kinds.Kind.TheVariants.{Dial};
ghost use Rattle.xbar_markers.specs.Calls.{HasCallNo, IsDialled};
ghost use Rattle.xbar_markers.specs.Shares.{HasServed, HasTickets, MayServe};
ghost use Rattle.xbar_markers.specs.Work.{HasDone, IsReady};

use crate::call::Call;
use crate::dialled_call::DialledCall;
use crate::gate::Gate;
use crate::lists::put_behind;
use crate::queues::Queues;
use crate::share::Share;
use crate::words::Words;
use crate::worker::Worker;
use std::alloc::AllocError;
use std::sync::Wait;
use xbar_fabric::{Desk, Fabric};
use xbar_office::{End, Job};

impl<G: Gate + Drop> Worker<Desk, G> {
    /// Does a call's dial tone job.
    fn dial<R: Wait, W: Words>(&mut self, rt: &R, fabric: &Fabric, call: Call) -> DialledCall<W>
        requires words { W.table ≡ fabric.now.table }
        requires ready { IsReady self.old.desk fabric.now }
        requires kind { self.old.desk.kind ≡ Dial }
        requires call_no { HasCallNo call }
        ensures call { result.call ≡ call }
        ensures dialled { IsDialled result }
        ensures done { HasDone self.old.desk self.new.desk (3 * call.call_no) (job.Dial call.line)
            result.dial }
    {
        let dial = self.do_job(rt, fabric, 3 * call.call_no, Job::Dial(call.line));
        let note = self.desk.note(fabric);
        DialledCall::new(call, dial, note)
    }

    /// Takes a call, does its dial tone job, and passes it on if its line has dial tone. Returns
    /// whether there was a call.
    fn dial_next<R: Wait, W: Words>(
        &mut self,
        rt: &R,
        fabric: &Fabric,
        queues: &Queues<DialledCall<W>>,
        share: &mut Share<DialledCall<W>>,
    ) -> Result<bool, AllocError>
        requires words { W.table ≡ fabric.now.table }
        requires serve { MayServe Dial fabric.now queues.now self.old.desk share.old }
        ensures none { result ≡ Ok false → IsWhole share.old.calls →
            SameItems share.new.calls.put share.new.calls.taken }
        ensures ready { IsReady self.new.desk fabric.now }
        ensures kind { self.new.desk.kind ≡ Dial }
        ensures tickets { HasTickets share.old share.new }
        ensures served { OnOk result (HasServed self.old.desk share.old self.new.desk share.new) }
    {
        let Some(call) = queues.calls_out.try_take(rt, &mut share.calls) else {
            return Ok(false);
        };
        let call: DialledCall<W> = self.dial(rt, fabric, call);
        if let End::DialTone { .. } = call.dial.reply.end {
            share.pass_on(rt, queues, call)?;
        } else {
            put_behind(&mut share.ended, call.into_records())?;
        }
        Ok(true)
    }

    /// Does the dial tone jobs of calls until the queue is empty.
    pub fn dial_all<R: Wait, W: Words>(
        &mut self,
        rt: &R,
        fabric: &Fabric,
        queues: &Queues<DialledCall<W>>,
        share: &mut Share<DialledCall<W>>,
    ) -> Result<(), AllocError>
        requires words { W.table ≡ fabric.now.table }
        requires serve { MayServe Dial fabric.now queues.now self.old.desk share.old }
        ensures none { OnOk result (IsWhole share.old.calls →
            SameItems share.new.calls.put share.new.calls.taken) }
        ensures ready { IsReady self.new.desk fabric.now }
        ensures kind { self.new.desk.kind ≡ Dial }
        ensures tickets { HasTickets share.old share.new }
        ensures served { OnOk result (HasServed self.old.desk share.old self.new.desk share.new) }
    {
        for _ in rt.forever() {
            if !self.dial_next(rt, fabric, queues, share)? {
                return Ok(());
            }
        }
        unreachable!()
    }
}
