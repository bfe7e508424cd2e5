use crate::call::Call;
use fair_queue::Item;

/// What goes through the second queue, to workers that complete calls.
#[derive(Drop)]
pub enum Task<C: Drop> {
    /// A call whose line has dial tone.
    Complete(C),
    /// There are no more calls.
    Stop,
}

impl Item for Call {
    ghost use Rattle.xbar_markers.specs.Calls.{HasCallNo};

    ghost sound = { HasCallNo };
}

impl<C: Item + Drop> Item for Task<C> {
    ghost use Rattle.xbar_markers.specs.Tasks.{IsSound};

    ghost sound = { IsSound C.sound };
}
