ghost use Rattle.std.specs.Prelude.{◌≤◌, IfOk};
ghost use Rattle.xbar_markers.specs.Shares.{AreOpen, IsNewShare};

use crate::call::Call;
use crate::dialled_call::DialledCall;
use crate::share::Share;
use crate::task::Task;
use crate::words::Words;
use fair_queue::{Inlet, Item, Outlet, bounded};
use std::alloc::{AllocError, Global};

/// The two queues: calls to workers that dial, and tasks from these to workers that complete
/// calls.
#[derive(Drop)]
pub struct Queues<C: Item + Drop> {
    pub calls_in: Inlet<Call>,
    pub calls_out: Outlet<Call>,
    pub tasks_in: Inlet<Task<C>>,
    pub tasks_out: Outlet<Task<C>>,
}

impl<W: Words> Queues<DialledCall<W>> {
    /// Opens queues for this number of calls and of workers, with a share that has all parts of
    /// both. The second queue has room for the stops too.
    pub fn open(
        alloc: Global,
        calls: usize,
        workers: usize,
    ) -> Result<(Self, Share<DialledCall<W>>), AllocError>
        ensures open { IfOk result (λ opened. AreOpen opened.0) }
        ensures room { IfOk result (λ opened. calls ≤ opened.0.calls_in.capacity) }
        ensures share { IfOk result (λ opened. IsNewShare opened.0 opened.1) }
    {
        let (calls_in, calls_out, calls_ticket) = bounded(alloc, calls.max(1))?;
        let room = calls.saturating_add(workers).max(1);
        let (tasks_in, tasks_out, tasks_ticket) = bounded(alloc, room)?;
        let queues = Queues {
            calls_in,
            calls_out,
            tasks_in,
            tasks_out,
        };
        Ok((queues, Share::new(alloc, calls_ticket, tasks_ticket)))
    }
}
