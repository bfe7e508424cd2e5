ghost use Rattle.std.specs.Prelude.{◌≡◌, ◌<◌, ◌++◌, [], ◌∷◌, OnOk};
ghost use Rattle.fair_queue.specs.Tickets.{new_ticket, ticket_of_both, with_fewer_parts};
ghost use Rattle.xbar_markers.specs.Calls.{HasDialTone};
ghost use Rattle.xbar_markers.specs.Shares.{HasPassedOn, HasTickets, MayUse};

use crate::call::Call;
use crate::call_records::CallRecords;
use crate::dialled_call::DialledCall;
use crate::lists::{put_all_behind, put_behind};
use crate::queues::Queues;
use crate::task::Task;
use crate::words::Words;
use fair_queue::{Item, Ticket};
use std::alloc::{AllocError, Global};
use std::sync::Wait;

/// A worker's share of the work: what it took from the queues, and what became of that.
#[derive(Drop)]
pub struct Share<C: Item + Drop> {
    pub calls: Ticket<Call>,
    pub tasks: Ticket<Task<C>>,
    /// Calls with dial tone that the second queue handed back.
    pub kept: Vec<C>,
    /// Calls for which nothing is left to do.
    pub ended: Vec<CallRecords>,
}

impl<W: Words> Share<DialledCall<W>> {
    /// A share with these tickets and no calls.
    pub fn new(alloc: Global, calls: Ticket<Call>, tasks: Ticket<Task<DialledCall<W>>>) -> Self
        ensures tickets { (result.calls ≡ calls) × (result.tasks ≡ tasks) }
        ensures none { (result.kept.items ≡ []) × (result.ended.items ≡ []) }
    {
        Share {
            calls,
            tasks,
            kept: Vec::new(alloc),
            ended: Vec::new(alloc),
        }
    }

    /// Puts a call with dial tone into the second queue, or keeps it if that hands it back.
    pub fn pass_on<R: Wait>(
        &mut self,
        rt: &R,
        queues: &Queues<DialledCall<W>>,
        call: DialledCall<W>,
    ) -> Result<(), AllocError>
        requires may { MayUse self.old queues.now }
        requires tone { HasDialTone call }
        ensures tickets { HasTickets self.old self.new }
        ensures passed { OnOk result (HasPassedOn call self.old self.new) }
    {
        match queues
            .tasks_in
            .put(rt, &mut self.tasks, Task::Complete(call))
        {
            Ok(()) | Err(Task::Stop) => {}
            Err(Task::Complete(call)) => put_behind(&mut self.kept, call)?,
        }
        Ok(())
    }

    /// Cuts off a share without calls, which has one part of each queue's ticket.
    pub fn cut(&mut self, alloc: Global, queues: &Queues<DialledCall<W>>) -> Self
        requires may { MayUse self.old queues.now }
        requires parts { (1 < self.old.calls.parts) × (1 < self.old.tasks.parts) }
        ensures calls { self.new.calls ≡ with_fewer_parts self.old.calls 1 }
        ensures tasks { self.new.tasks ≡ with_fewer_parts self.old.tasks 1 }
        ensures lists { (self.new.kept ≡ self.old.kept) × (self.new.ended ≡ self.old.ended) }
        ensures cut_calls { result.calls ≡ new_ticket self.old.calls.queue }
        ensures cut_tasks { result.tasks ≡ new_ticket self.old.tasks.queue }
        ensures none { (result.kept.items ≡ []) × (result.ended.items ≡ []) }
    {
        let calls = self.calls.cut(&queues.calls_in);
        let tasks = self.tasks.cut(&queues.tasks_in);
        Share::new(alloc, calls, tasks)
    }

    /// Adds another worker's share to this one.
    pub fn join(
        &mut self,
        queues: &Queues<DialledCall<W>>,
        other: Share<DialledCall<W>>,
    ) -> Result<(), AllocError>
        requires may { MayUse self.old queues.now }
        requires other { MayUse other queues.now }
        ensures calls { self.new.calls ≡ ticket_of_both self.old.calls other.calls }
        ensures tasks { self.new.tasks ≡ ticket_of_both self.old.tasks other.tasks }
        ensures kept { OnOk result (self.new.kept.items ≡ self.old.kept.items ++ other.kept.items) }
        ensures ended { OnOk result
            (self.new.ended.items ≡ self.old.ended.items ++ other.ended.items) }
    {
        let Share {
            calls,
            tasks,
            kept,
            ended,
        } = other;
        self.calls.join(&queues.calls_in, calls);
        self.tasks.join(&queues.tasks_in, tasks);
        put_all_behind(&mut self.kept, kept)?;
        put_all_behind(&mut self.ended, ended)
    }
}
