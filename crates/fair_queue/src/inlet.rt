ghost use Rattle.std.specs.Prelude.{◌≡◌, ◌+◌, IfErr, OnErr, OnOk, length};
ghost use Rattle.fair_queue.specs.Tickets.{IsUsable, IsWhole, with_put};

use crate::item::Item;
use crate::rule::{Fair, Hand, Puts};
use crate::ticket::Ticket;
use crossbeam_channel::{RuledReceiver, RuledSender, TrySendError};
use std::marker::Model;
use std::sync::Wait;

/// The end of a queue where items are put. Threads share a reference to this end.
#[derive(Drop)]
pub struct Inlet<X: Item + Drop> {
    pub(crate) sender: RuledSender<X, Hand<X>, Fair>,
    /// Keeps the channel open: with a receiver here, the sender never finds it closed.
    pub(crate) kept_open: RuledReceiver<X, Hand<X>, Fair>,
}

impl<X: Item + Drop> Model for Inlet<X> {
    ghost use Rattle.crossbeam_channel.specs.Claims.{IsKeyed};
    ghost use Rattle.crossbeam_channel.specs.Ends.{sends_on, ruled_capacity};
    ghost use Rattle.fair_queue.specs.Tickets.{QueueView};

    ghost Value = { QueueView X };

    ghost view = { λ i. record {
      name = record {
        table = (sends_on i.sender).stamps.shared.table_id;
        badge = (sends_on i.sender).stamps.shared.key;
      };
      capacity = ruled_capacity (sends_on i.sender);
    } };

    ghost invariant = { λ i. IsKeyed (sends_on i.sender) };
}

impl<X: Item + Drop> Inlet<X> {
    /// Puts an item into the queue. If the queue is full, doesn't wait for room but returns the
    /// item.
    pub fn put<R: Wait>(&self, rt: &R, ticket: &mut Ticket<X>, item: X) -> Result<(), X>
        requires ticket { IsUsable ticket.old self.now }
        requires sound { X.sound item }
        ensures put { OnOk result (ticket.new ≡ with_put ticket.old item) }
        ensures back { IfErr result (λ back. back ≡ item) }
        ensures same { OnErr result (ticket.new ≡ ticket.old) }
        ensures full { OnErr result (IsWhole ticket.old →
            length ticket.old.put ≡ length ticket.old.taken + self.now.capacity) }
    {
        let mut item = item;
        for _ in rt.forever() {
            match self
                .sender
                .try_send_as::<Puts, R>(rt, &mut ticket.pass, item)
            {
                Ok(()) => return Ok(()),
                Err(TrySendError::Full(back)) => return Err(back),
                // This never happens, since the channel is kept open.
                Err(error) => item = error.into_inner(),
            }
        }
        unreachable!()
    }
}
