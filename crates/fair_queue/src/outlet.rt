ghost use Rattle.std.specs.Prelude.{◌≡◌, IfNone, IfSome};
ghost use Rattle.fair_queue.specs.Items.{SameItems};
ghost use Rattle.fair_queue.specs.Tickets.{IsUsable, IsWhole, with_taken};

use crate::item::Item;
use crate::rule::{Fair, Hand, Takes};
use crate::ticket::Ticket;
use crossbeam_channel::RuledReceiver;
use std::marker::Model;
use std::sync::Wait;

/// The end of a queue where items are taken. Threads share a reference to this end.
#[derive(Drop)]
pub struct Outlet<X: Item + Drop> {
    pub(crate) receiver: RuledReceiver<X, Hand<X>, Fair>,
}

impl<X: Item + Drop> Model for Outlet<X> {
    ghost use Rattle.crossbeam_channel.specs.Claims.{IsKeyed};
    ghost use Rattle.crossbeam_channel.specs.Ends.{receives_on, ruled_capacity};
    ghost use Rattle.fair_queue.specs.Tickets.{QueueView};

    ghost Value = { QueueView X };

    ghost view = { λ o. record {
      name = record {
        table = (receives_on o.receiver).stamps.shared.table_id;
        badge = (receives_on o.receiver).stamps.shared.key;
      };
      capacity = ruled_capacity (receives_on o.receiver);
    } };

    ghost invariant = { λ o. IsKeyed (receives_on o.receiver) };
}

impl<X: Item + Drop> Outlet<X> {
    /// Takes an item. If there is none, waits for one as long as the inlet exists: to stop threads
    /// that take, put an item for each of them that says so.
    pub fn take<R: Wait>(&self, rt: &R, ticket: &mut Ticket<X>) -> Option<X>
        requires ticket { IsUsable ticket.old self.now }
        ensures taken { IfSome result (λ item. ticket.new ≡ with_taken ticket.old item) }
        ensures sound { IfSome result X.sound }
        ensures none { IfNone result (ticket.new ≡ ticket.old) }
        ensures whole { IfNone result (IsWhole ticket.old →
            SameItems ticket.old.put ticket.old.taken) }
    {
        self.receiver.recv_as::<Takes, R>(rt, &mut ticket.pass).ok()
    }

    /// Takes an item if there is one, and doesn't wait.
    pub fn try_take<R: Wait>(&self, rt: &R, ticket: &mut Ticket<X>) -> Option<X>
        requires ticket { IsUsable ticket.old self.now }
        ensures taken { IfSome result (λ item. ticket.new ≡ with_taken ticket.old item) }
        ensures sound { IfSome result X.sound }
        ensures none { IfNone result (ticket.new ≡ ticket.old) }
        ensures whole { IfNone result (IsWhole ticket.old →
            SameItems ticket.old.put ticket.old.taken) }
    {
        self.receiver
            .try_recv_as::<Takes, R>(rt, &mut ticket.pass)
            .ok()
    }
}
