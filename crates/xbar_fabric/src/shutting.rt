ghost use Rattle.std.specs.Prelude.{◌≡◌, ◌≤◌, [], MatchResult, vec_capacity, vec_len};
ghost use Rattle.xbar_fabric.specs.Meetings.{AreAllIdle, FabricHasClosed, FabricIsShut};
ghost use Rattle.xbar_fabric.specs.Views.{AreBelow, IsDeskOf};

use crate::desk::Desk;
use crate::fabric::Fabric;
use crate::office::Office;
use std::alloc::Global;
use xbar_equip::WORD_COUNT;

/// There was no memory for a copy of the words. The fabric and the desk are returned unchanged.
#[derive(Drop)]
pub struct ShutFault<'p> {
    pub fabric: Fabric<'p>,
    pub desk: Desk,
}

/// Shuts the shared words with one of their desks, whose jobs may be under way, like the others',
/// and returns all 453, each at the index of its number. They are the words of an office, as at
/// every moment.
pub fn shut<'p>(alloc: Global, fabric: Fabric<'p>, desk: Desk) -> Result<Vec<u64>, ShutFault<'p>>
    requires { IsDeskOf desk fabric }
    ensures { MatchResult result
        (λ words. FabricIsShut fabric.entry.count desk words.items)
        (λ fault. (fault.fabric ≡ fabric.entry) × (fault.desk ≡ desk)) }
{
    let Fabric { plan, room } = fabric;
    let Desk { desk, kind } = desk;
    match desks::shut(alloc, room, plan, desk) {
        Ok(words) => Ok(words),
        Err((room, desk)) => Err(ShutFault {
            fabric: Fabric { plan, room },
            desk: Desk { desk, kind },
        }),
    }
}

/// There was no memory to shut all desks at once. The fabric and the desks are returned unchanged.
#[derive(Drop)]
pub struct ShutAllFault<'p> {
    pub fabric: Fabric<'p>,
    pub desks: Vec<Desk>,
}

/// Puts the desks of `desks`, which have no kind, into `rest`.
fn take_apart(desks: Vec<Desk>, rest: &mut Vec<desks::Desk<Office>>)
    requires { (rest.old.items ≡ []) × (vec_len desks ≤ vec_capacity rest.old) }
    ensures below { AreBelow rest.new.items desks.items }
    ensures len { vec_len rest.new ≡ vec_len desks }
{
    let mut desks = desks.into_iter();
    while let Some(desk) = desks.next() {
        rest.push_reserved(desk.desk);
    }
}

/// Shuts the shared words with all of their desks, each idle and at the index of its marker, and
/// returns all 453 words, each at the index of its number.
pub fn shut_all<'p>(
    alloc: Global,
    fabric: Fabric<'p>,
    desks: Vec<Desk>,
) -> Result<Vec<u64>, ShutAllFault<'p>>
    requires { AreAllIdle desks.items fabric }
    ensures { MatchResult result
        (λ words. FabricHasClosed fabric.entry.plan desks.items words.items)
        (λ fault. (fault.fabric ≡ fabric.entry) × (fault.desks ≡ desks)) }
{
    let Ok(words) = Vec::with_capacity(alloc, WORD_COUNT) else {
        return Err(ShutAllFault { fabric, desks });
    };
    let Ok(mut rest) = Vec::with_capacity(alloc, desks.len()) else {
        return Err(ShutAllFault { fabric, desks });
    };
    take_apart(desks, &mut rest);
    let Fabric { plan, room } = fabric;
    Ok(desks::shut_all_into(words, room, plan, rest))
}
