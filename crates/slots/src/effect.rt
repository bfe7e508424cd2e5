ghost use Rattle.std.specs.Prelude.{◌≡◌};
ghost use Rattle.slots.specs.System.{operation_of};

use crate::bank::BANK_SIZE;
use turns::Operation;

/// A write to the word of a slot's bank.
#[derive(Clone, Copy, Debug, PartialEq, Eq)]
pub enum Effect {
    /// Sets the bit of this slot: the slot is taken.
    Mark(u32),
    /// Clears the bit of this slot: the slot is free.
    Clear(u32),
}

impl Effect {
    /// The atomic operation that makes this effect on its bank's word, which is word 0 or 1.
    pub fn operation(&self) -> Operation
        ensures { result ≡ operation_of self.now }
    {
        match self {
            Effect::Mark(slot) => Operation::Or(1 << (slot % BANK_SIZE)),
            Effect::Clear(slot) => Operation::And(!(1 << (slot % BANK_SIZE))),
        }
    }
}
