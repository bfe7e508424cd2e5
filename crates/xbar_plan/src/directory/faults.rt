//! A mark for each link that is out of order.

ghost use Rattle.std.specs.Prelude.{◌≡◌, Some, IfOk, slice_get};
ghost use Rattle.std.specs.List.{list_any};
ghost use Rattle.xbar_equip.specs.Link.{Link as TheLink, IsLink, link_eq};
ghost use Rattle.xbar_plan.specs.Numbered.{link_number as number_of_link};

use crate::numbers::{link_number, unmarked};
use std::alloc::{AllocError, Global};
use xbar_equip::Link;

/// For each link, by its number, whether it is listed.
pub fn marked_links(alloc: Global, faults: &[Link]) -> Result<Vec<bool>, AllocError>
    ensures { IfOk result (λ marks. (link : TheLink) → IsLink link →
        slice_get marks.items (number_of_link link) ≡
        Some (list_any (λ fault. link_eq fault link) faults.now)) }
{
    let mut marks = unmarked(alloc, 3000)?;
    for link in faults {
        marks[usize::from(link_number(*link))] = true;
    }
    Ok(marks)
}
