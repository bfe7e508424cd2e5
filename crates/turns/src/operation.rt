ghost use Rattle.std.specs.Prelude.{◌≡◌};
ghost use Rattle.turns.specs.Operations.{applied};

/// An atomic operation on a shared word.
#[derive(Clone, Copy, Debug, PartialEq, Eq)]
pub enum Operation {
    /// Leaves the word as it is.
    Load,
    /// Sets these bits.
    Or(u64),
    /// Keeps only these bits.
    And(u64),
    /// Adds this number, modulo 2^64.
    Add(u64),
    /// Subtracts this number, modulo 2^64.
    Sub(u64),
    /// Puts this number there, whatever is found.
    Store(u64),
    /// Replaces `expected` by `new`, and leaves any other number.
    CompareExchange { expected: u64, new: u64 },
}

impl Operation {
    /// The number that the operation leaves in a word in which it found `found`.
    pub fn apply(self, found: u64) -> u64
        ensures { result ≡ applied self found }
    {
        match self {
            Operation::Load => found,
            Operation::Or(bits) => found | bits,
            Operation::And(mask) => found & mask,
            Operation::Add(more) => found.wrapping_add(more),
            Operation::Sub(less) => found.wrapping_sub(less),
            Operation::Store(value) => value,
            Operation::CompareExchange { expected, new } => {
                if found == expected { new } else { found }
            }
        }
    }
}
