ghost use Rattle.std.specs.Prelude.{◌≡◌, Some};
ghost use Rattle.xbar_plan_text.specs.declared.read.item_error.ItemError.TheVariants.{Memory};

use crate::refusal::{MalformedItem, PlanRefusal};
use std::alloc::{AllocError, AllocFailed, Global};
use xbar_plan::PlanList;

/// Why an item could not be read: where it is wrong, and what is expected there.
#[derive(Clone, Copy, Debug)]
pub enum ItemError {
    /// The part with this index, counted from 0, is wrong.
    Part(usize, &'static str),
    /// The text is wrong as a whole.
    Whole(&'static str),
    Memory,
}

impl ItemError {
    ghost use Rattle.xbar_plan_text.specs.Refusal.{IsMalformed};
    ghost use Rattle.xbar_plan_text.specs.declared.refusal.PlanRefusal.TheVariants as PlanRefusal;

    /// The refusal of a plan whose list has this item. Memory may run out. Rather than a part, a
    /// space too many is told, and of an empty text that `whole` is expected.
    pub fn refusal(
        self,
        alloc: Global,
        list: PlanList,
        item: usize,
        text: &[u8],
        whole: &'static str,
    ) -> PlanRefusal
        ensures item { IsMalformed (Some (record {
          list = list;
          index = item;
          text = text.now;
        })) result }
        ensures memory { self ≡ Memory → result ≡ PlanRefusal.Memory }
    {
        let (part, expected) = match self {
            ItemError::Part(..) if text.is_empty() => (None, whole),
            ItemError::Part(part, expected) => match wrong_space(text) {
                Some(expected) => (None, expected),
                None => (Some(part), expected),
            },
            ItemError::Whole(expected) => (None, expected),
            ItemError::Memory => return PlanRefusal::Memory,
        };
        let Ok(text) = text.to_vec(alloc) else {
            return PlanRefusal::Memory;
        };
        PlanRefusal::Malformed(MalformedItem {
            list,
            item,
            text,
            part,
            expected,
        })
    }
}

/// What is expected in place of a space that separates no two parts.
fn wrong_space(text: &[u8]) -> Option<&'static str> {
    if text.starts_with(b" ") || text.ends_with(b" ") {
        Some("expected no space before the first part or after the last")
    } else if text.windows(2).any(|pair| pair == b"  ".as_slice()) {
        Some("expected one space between parts")
    } else {
        None
    }
}

impl From<AllocError> for ItemError {
    ghost from_gives = { λ _ error. error ≡ Memory };

    fn from(_error: AllocError) -> Self {
        ItemError::Memory
    }
}

impl<T: Drop> From<AllocFailed<T>> for ItemError {
    ghost from_gives = { λ _ error. error ≡ Memory };

    fn from(_failed: AllocFailed<T>) -> Self {
        ItemError::Memory
    }
}
