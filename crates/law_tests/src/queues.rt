//! Queues of one thread, and of four threads.

ghost use Rattle.std.specs.Prelude.{◌≡◌, ◌<◌, All, IfOk};
ghost use Rattle.fair_queue.specs.Tickets.{IsTicketOf, IsUsable, with_put};

use fair_queue::{Inlet, Item, Outlet, Ticket, bounded};
use std::alloc::{AllocError, Global};
use std::sync::atomic::{AtomicU64, Ordering};
use std::sync::{Mutex, Wait};
use std::test::Fail;
use std::thread;
use std::thread::Threads;

#[derive(Clone, Copy, Debug, Drop, PartialEq)]
struct Parcel {
    by: u64,
    number: u32,
}

impl Item for Parcel {
    ghost sound = { λ parcel. parcel.number < 200 };
}

fn may_be_moved<T: Send>() {}

fn may_be_shared<T: Sync>() {}

/// If items may be moved to other threads, so may the ends and tickets of a queue, and threads may
/// share the ends.
fn queues_may_cross_threads<X: Item + Drop + Send>() {
    may_be_moved::<Inlet<X>>();
    may_be_moved::<Outlet<X>>();
    may_be_moved::<Ticket<X>>();
    may_be_shared::<Inlet<X>>();
    may_be_shared::<Outlet<X>>();
}

/// Puts a parcel as soon as there is room.
fn put_at_last<R: Wait>(rt: &R, inlet: &Inlet<Parcel>, ticket: &mut Ticket<Parcel>, parcel: Parcel)
    requires queue { IsTicketOf ticket.old inlet.now }
    requires part { 0 < ticket.old.parts }
    requires sound { parcel.number < 200 }
    ensures { ticket.new ≡ with_put ticket.old parcel }
{
    for _ in rt.forever() {
        if inlet.put(rt, ticket, parcel).is_ok() {
            return;
        }
        thread::yield_now();
    }
    unreachable!()
}

/// Puts 200 parcels, and takes one after each, if there is one. Returns the ticket.
fn put_and_take<R: Wait>(
    rt: &R,
    inlet: &Inlet<Parcel>,
    outlet: &Outlet<Parcel>,
    mut ticket: Ticket<Parcel>,
    by: u64,
    taken: &mut Vec<Parcel>,
) -> Ticket<Parcel>
    requires ends { outlet.now ≡ inlet.now }
    requires queue { IsTicketOf ticket inlet.now }
    requires part { 0 < ticket.parts }
    ensures { IsTicketOf result inlet.now }
{
    for number in 0..200 {
        put_at_last(rt, inlet, &mut ticket, Parcel { by, number });
        if let Some(parcel) = outlet.take(rt, &mut ticket) {
            let _ = taken.push(parcel);
        }
    }
    ticket
}

/// Puts and takes parcels on one thread for each ticket. Returns the tickets, and what was taken.
fn at_once<R: Threads + Wait + Sync>(
    rt: &R,
    alloc: Global,
    inlet: &Inlet<Parcel>,
    outlet: &Outlet<Parcel>,
    tickets: Vec<Ticket<Parcel>>,
) -> Result<(Vec<Ticket<Parcel>>, Vec<Parcel>), AllocError>
    requires ends { outlet.now ≡ inlet.now }
    requires tickets { All (λ ticket. IsUsable ticket inlet.now) tickets.items }
    ensures { IfOk result (λ after. All (λ ticket. IsTicketOf ticket inlet.now) after.0.items) }
{
    let number = AtomicU64::new(0);
    let all = Mutex::new(Vec::new(alloc));
    let work = |ticket: Ticket<Parcel>| -> Ticket<Parcel>
        requires ends { outlet.now ≡ inlet.now }
        requires ticket { IsUsable ticket inlet.now }
        ensures { IsTicketOf result inlet.entry.now }
    {
        let by = number.fetch_add(1, Ordering::SeqCst);
        let mut taken = Vec::new(alloc);
        let ticket = put_and_take(rt, inlet, outlet, ticket, by, &mut taken);
        let _ = all.lock(rt).append(&mut taken);
        ticket
    };
    let tickets = thread::map_vec(rt, tickets, &work)?;
    Ok((tickets, all.into_inner()))
}

#[test]
fn a_full_queue_hands_back_and_an_empty_one_has_nothing(rt: HostRuntime) -> Result<(), Fail> {
    let (inlet, outlet, mut ticket) = bounded::<Parcel>(rt.alloc(), 2)?;
    let ticket = &mut ticket;
    let parcel = |number| Parcel { by: 0, number };
    let (one, two, three) = (parcel(1), parcel(2), parcel(3));
    assert_eq!(rt; inlet.put(&rt, ticket, one), Ok(()));
    assert_eq!(rt; inlet.put(&rt, ticket, two), Ok(()));
    assert_eq!(rt; inlet.put(&rt, ticket, three), Err(three));
    assert_eq!(rt; outlet.take(&rt, ticket), Some(one));
    assert_eq!(rt; inlet.put(&rt, ticket, three), Ok(()));
    assert_eq!(rt; outlet.try_take(&rt, ticket), Some(two));
    assert_eq!(rt; outlet.take(&rt, ticket), Some(three));
    assert_eq!(rt; outlet.try_take(&rt, ticket), None);
    Ok(())
}

#[test]
fn a_ticket_that_was_cut_off_puts_and_comes_back(rt: HostRuntime) -> Result<(), Fail> {
    let (inlet, outlet, mut ticket) = bounded::<Parcel>(rt.alloc(), 2)?;
    let mut other = ticket.cut(&inlet);
    let parcel = Parcel { by: 1, number: 7 };
    assert_eq!(rt; inlet.put(&rt, &mut other, parcel), Ok(()));
    ticket.join(&inlet, other);
    ticket.audit(&inlet);
    assert_eq!(rt; outlet.take(&rt, &mut ticket), Some(parcel));
    drop(inlet);
    assert_eq!(rt; outlet.take(&rt, &mut ticket), None);
    Ok(())
}

#[test]
fn a_queue_whose_outlet_is_gone_fills_up(rt: HostRuntime) -> Result<(), Fail> {
    let (inlet, outlet, mut ticket) = bounded::<Parcel>(rt.alloc(), 1)?;
    drop(outlet);
    let parcel = Parcel { by: 0, number: 5 };
    assert_eq!(rt; inlet.put(&rt, &mut ticket, parcel), Ok(()));
    assert_eq!(rt; inlet.put(&rt, &mut ticket, parcel), Err(parcel));
    Ok(())
}

#[test]
fn what_four_threads_put_is_what_they_take(rt: HostRuntime) -> Result<(), Fail> {
    queues_may_cross_threads::<Parcel>();
    let alloc = rt.alloc();
    let (inlet, outlet, mut ticket) = bounded::<Parcel>(alloc, 8)?;
    let tickets = ticket.cut_many(alloc, &inlet, 4)?;
    let (tickets, mut taken) = at_once(&rt, alloc, &inlet, &outlet, tickets)?;
    ticket.join_all(&inlet, tickets);
    assert_eq!(rt; outlet.try_take(&rt, &mut ticket), None);
    taken
        .as_mut_slice()
        .sort_unstable_by_key(|parcel| (parcel.by, parcel.number));
    assert_eq!(rt; taken.len(), 800);
    for (place, parcel) in taken.iter().enumerate() {
        let want = (place as u64 / 200, place as u32 % 200);
        assert_eq!(rt; (parcel.by, parcel.number), want);
    }
    Ok(())
}
