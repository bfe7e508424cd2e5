ghost use Rattle.std.specs.Prelude.{◌≡◌};
ghost use Rattle.xbar_plan.specs.declared.fault.PlanFault.TheVariants.{Memory};

use std::alloc::{AllocError, AllocFailed};
use std::fmt;
use thiserror::Error;

/// Why a plan was refused. The faults are looked for in this order, and the first one is reported.
/// `Memory` can be reported in place of any fault that would be found later.
///
/// The text of a fault is its number, `P1` to `P14`, or `MEMORY`.
#[derive(Clone, Copy, Debug, PartialEq, Eq, Error)]
pub enum PlanFault {
    /// The bytes are not a TOML document.
    NotToml,
    /// `version` is missing, or is neither the integer 1 nor the integer 2.
    Version,
    /// `groups`, `numbers`, `codes` or `faults` is missing.
    KeyMissing,
    /// The value of one of these four keys is not an array, or an item of it is not a string.
    NotTexts,
    /// An item does not have the form of its list.
    Malformed,
    /// There are more than 16 groups, 3,000 numbers, 64 codes or 100 faults; or a group does not
    /// have 1 to 40 members, a number 1 to 10 lines, or a code 1 to 4 groups.
    Limit,
    /// Two groups have the same name.
    GroupTwice,
    /// There is no register group, or more than one.
    RegisterGroups,
    /// A trunk place occurs twice: in one group or in two, in one pair or in two.
    PlaceTwice,
    /// The places of a pair are on different trunk link frames.
    PairApart,
    /// A directory number occurs twice.
    NumberTwice,
    /// A code occurs twice.
    CodeTwice,
    /// A code leads to a group that does not exist.
    UnknownGroup,
    /// A code leads to the register group, or to both intra and outgoing groups.
    MixedRoute,
    /// Memory ran out, and the rest of the plan was not checked.
    Memory,
}

impl fmt::Display for PlanFault {
    ghost use Rattle.std.specs.Prelude.{Some};
    ghost use Rattle.xbar_plan.specs.Fault.{fault_text};

    ghost output = { λ fault. Some (fault_text fault) };

    fn fmt<W: fmt::Write>(&self, f: &mut fmt::Formatter<W>) -> fmt::Result {
        f.write_str(match self {
            PlanFault::NotToml => "P1",
            PlanFault::Version => "P2",
            PlanFault::KeyMissing => "P3",
            PlanFault::NotTexts => "P4",
            PlanFault::Malformed => "P5",
            PlanFault::Limit => "P6",
            PlanFault::GroupTwice => "P7",
            PlanFault::RegisterGroups => "P8",
            PlanFault::PlaceTwice => "P9",
            PlanFault::PairApart => "P10",
            PlanFault::NumberTwice => "P11",
            PlanFault::CodeTwice => "P12",
            PlanFault::UnknownGroup => "P13",
            PlanFault::MixedRoute => "P14",
            PlanFault::Memory => "MEMORY",
        })
    }
}

impl From<AllocError> for PlanFault {
    ghost from_gives = { λ _ fault. fault ≡ Memory };

    fn from(_error: AllocError) -> Self {
        PlanFault::Memory
    }
}

impl<T: Drop> From<AllocFailed<T>> for PlanFault {
    ghost from_gives = { λ _ fault. fault ≡ Memory };

    fn from(_failed: AllocFailed<T>) -> Self {
        PlanFault::Memory
    }
}
