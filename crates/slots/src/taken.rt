ghost use Rattle.std.specs.Prelude.{◌≡◌};
ghost use Rattle.slots.specs.Few.{list_of};

use crate::up_to_two::UpToTwo;
use std::marker::Model;

/// The reply of a job: the slots that it took, in order.
#[derive(Drop)]
pub struct Taken {
    slots: UpToTwo<u32>,
}

impl Model for Taken {
    ghost use Rattle.std.specs.Prelude.{ℕ, List};
    ghost use Rattle.slots.specs.Few.{list_of};

    ghost Value = { List ℕ };

    ghost view = { λ taken. list_of taken.slots };
}

impl Taken {
    pub fn new(slots: UpToTwo<u32>) -> Self
        ensures { result ≡ list_of slots }
    {
        Taken { slots }
    }

    pub fn slots(&self) -> UpToTwo<u32>
        ensures { list_of result ≡ self.now }
    {
        self.slots
    }
}
