ghost use Rattle.std.specs.Prelude.{◌≡◌};
ghost use Rattle.xbar_plan_text.specs.declared.refusal.PlanRefusal.TheVariants.{Memory};

use crate::found::Found;
use std::alloc::{AllocError, AllocFailed};
use toml::de::Error;
use xbar_plan::{PlanFault, PlanList, TableFault};

/// An item of a list that does not have the form of its list.
#[derive(Debug, Drop)]
pub struct MalformedItem {
    pub list: PlanList,
    /// The item's index in its list, counted from 0.
    pub item: usize,
    pub text: Vec<u8>,
    /// The index of the part that is wrong, counted from 0. None if the text is wrong as a whole.
    pub part: Option<usize>,
    /// What is expected there, in words.
    pub expected: &'static str,
}

/// Why a plan's text was refused, and where. The fault is the first one of the text.
#[derive(Debug, Drop)]
pub enum PlanRefusal {
    /// The text stops being a TOML document at this line and column, both counted from 1. A column
    /// counts characters.
    NotToml {
        line: usize,
        column: usize,
        error: Error,
    },
    /// This was found at the key `version`.
    Version(Found),
    /// The first list whose key is missing.
    KeyMissing(PlanList),
    /// The first list that is something else than an array, or the first item of a list, counted
    /// from 0, that is something else than a string.
    NotTexts {
        list: PlanList,
        item: Option<usize>,
        found: Found,
    },
    Malformed(MalformedItem),
    /// The tables have this fault. The text is that of the item at fault, if there is one.
    Tables {
        fault: TableFault,
        text: Option<Vec<u8>>,
    },
    /// Memory ran out, and the rest of the text was not read.
    Memory,
}

impl PlanRefusal {
    ghost use Rattle.xbar_plan_text.specs.Refusal.{fault_of};

    /// The fault without its place.
    pub fn fault(&self) -> PlanFault
        ensures { result ≡ fault_of self.now }
    {
        match self {
            PlanRefusal::NotToml { .. } => PlanFault::NotToml,
            PlanRefusal::Version(_) => PlanFault::Version,
            PlanRefusal::KeyMissing(_) => PlanFault::KeyMissing,
            PlanRefusal::NotTexts { .. } => PlanFault::NotTexts,
            PlanRefusal::Malformed(_) => PlanFault::Malformed,
            PlanRefusal::Tables { fault, .. } => fault.fault(),
            PlanRefusal::Memory => PlanFault::Memory,
        }
    }
}

impl From<AllocError> for PlanRefusal {
    ghost from_gives = { λ _ refusal. refusal ≡ Memory };

    fn from(_error: AllocError) -> Self {
        PlanRefusal::Memory
    }
}

impl<T: Drop> From<AllocFailed<T>> for PlanRefusal {
    ghost from_gives = { λ _ refusal. refusal ≡ Memory };

    fn from(_failed: AllocFailed<T>) -> Self {
        PlanRefusal::Memory
    }
}
