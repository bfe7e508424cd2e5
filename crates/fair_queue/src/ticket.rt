ghost use Rattle.std.specs.Prelude.{◌≡◌, ◌<◌, ◌++◌, List, All, IfOk, OnErr, OnOk, replicate};
ghost use Rattle.fair_queue.specs.Items.{SameItems};
ghost use Rattle.fair_queue.specs.Tickets.{IsTicketOf, IsWhole, new_ticket, with_fewer_parts};
ghost use Rattle.fair_queue.specs.Tickets.{ticket_of_all, ticket_of_both};

use crate::inlet::Inlet;
use crate::item::Item;
use crate::rule::{Cut, Hand, Looks};
use crossbeam_channel::Pass;
use std::alloc::{AllocError, Global};
use std::marker::Model;

/// What was put into a queue and taken from it with this ticket, and its parts of the right to
/// know the whole. It has no bytes. If a ticket is dropped, its parts are lost, and no ticket has
/// every part again.
#[derive(Drop)]
pub struct Ticket<X> {
    pub(crate) pass: Pass<X, Hand<X>>,
}

impl<X> Model for Ticket<X> {
    ghost use Rattle.std.specs.Prelude.{◌≡◌, []};
    ghost use Rattle.crossbeam_channel.specs.Claims.{view as knowledge};
    ghost use Rattle.fair_queue.specs.Tickets.{TicketView};

    ghost Value = { TicketView X };

    ghost view = { λ t. record {
      queue = record { table = t.pass.table_id; badge = t.pass.me.0.of };
      parts = (knowledge t.pass).parts;
      put = (knowledge t.pass).put;
      taken = (knowledge t.pass).taken;
    } };

    ghost invariant = { λ t. t.pass.me.1 ≡ [] };
}

impl<X: Item + Drop> Ticket<X> {
    /// Cuts off a ticket of one part.
    pub fn cut(&mut self, inlet: &Inlet<X>) -> Ticket<X>
        requires queue { IsTicketOf self.old inlet.now }
        requires parts { 1 < self.old.parts }
        ensures left { self.new ≡ with_fewer_parts self.old 1 }
        ensures cut { result ≡ new_ticket self.old.queue }
    {
        let pass = inlet.sender.another::<Cut>(&mut self.pass);
        Ticket { pass }
    }

    /// Cuts off `count` tickets of one part each, or none if memory runs out.
    pub fn cut_many(
        &mut self,
        alloc: Global,
        inlet: &Inlet<X>,
        count: usize,
    ) -> Result<Vec<Ticket<X>>, AllocError>
        requires queue { IsTicketOf self.old inlet.now }
        requires parts { count < self.old.parts }
        ensures left { OnOk result (self.new ≡ with_fewer_parts self.old count) }
        ensures cut { IfOk result (λ tickets. tickets.items ≡
            replicate count (new_ticket self.old.queue)) }
        ensures err { OnErr result (self.new ≡ self.old) }
    {
        let mut tickets = Vec::with_capacity(alloc, count)?;
        for _ in 0..count {
            tickets.push_reserved(self.cut(inlet));
        }
        Ok(tickets)
    }

    /// Joins another ticket into this one.
    pub fn join(&mut self, inlet: &Inlet<X>, other: Ticket<X>)
        requires queue { IsTicketOf self.old inlet.now }
        requires other { IsTicketOf other inlet.now }
        ensures { self.new ≡ ticket_of_both self.old other }
    {
        let Ticket { pass } = other;
        inlet.sender.absorb::<Cut>(&mut self.pass, pass);
    }

    /// Joins other tickets into this one, in their order.
    pub fn join_all(&mut self, inlet: &Inlet<X>, others: Vec<Ticket<X>>)
        requires queue { IsTicketOf self.old inlet.now }
        requires others { All (λ other. IsTicketOf other inlet.now) others.items }
        ensures { self.new ≡ ticket_of_all self.old others.items }
    {
        for other in others {
            self.join(inlet, other);
        }
    }

    /// Looks at the queue. If the ticket has every part, the queue holds what was put and not
    /// taken with it, and each of these items is sound.
    pub fn audit(&mut self, inlet: &Inlet<X>)
        requires queue { IsTicketOf self.old inlet.now }
        ensures same { self.new ≡ self.old }
        ensures rest { IsWhole self.old → (rest : List X)
            × SameItems self.old.put (self.old.taken ++ rest) × All X.sound rest }
    {
        inlet.sender.learn_as::<Looks>(&mut self.pass);
    }
}
