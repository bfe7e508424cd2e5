ghost use Rattle.std.specs.Prelude.{◌≡◌, ◌<◌, IfOk};
ghost use Rattle.fair_queue.specs.Tickets.{first_ticket};

use crate::inlet::Inlet;
use crate::item::Item;
use crate::outlet::Outlet;
use crate::rule::{Fair, Hand};
use crate::ticket::Ticket;
use crossbeam_channel::bounded_with;
use std::alloc::{AllocError, Global};

/// Opens a queue that holds at most `capacity` items. Returns its two ends, and the ticket with
/// every part. Fails if memory runs out.
pub fn bounded<X: Item + Drop>(
    alloc: Global,
    capacity: usize,
) -> Result<(Inlet<X>, Outlet<X>, Ticket<X>), AllocError>
    requires { 0 < capacity }
    ensures one { IfOk result (λ queue. queue.1 ≡ queue.0) }
    ensures capacity { IfOk result (λ queue. queue.0.capacity ≡ capacity) }
    ensures ticket { IfOk result (λ queue. queue.2 ≡ first_ticket queue.0.name) }
{
    let (sender, receiver, pass) = bounded_with::<X, Hand<X>, Fair, Global>(alloc, capacity)?;
    let kept_open = receiver.try_clone()?;
    Ok((
        Inlet { sender, kept_open },
        Outlet { receiver },
        Ticket { pass },
    ))
}
