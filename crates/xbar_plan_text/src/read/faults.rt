//! Reads the items of `faults`.

ghost use Rattle.std.specs.Prelude.{map};
ghost use Rattle.xbar_plan.specs.declared.table_fault.PlanList.TheVariants as PlanList;
ghost use Rattle.xbar_plan_text.specs.Texts.{fault_of};
ghost use Rattle.xbar_plan_text.specs.Refusal.{IsListRead};

use super::item_error::ItemError;
use super::text::read_link;
use crate::refusal::PlanRefusal;
use std::alloc::Global;
use xbar_equip::Link;
use xbar_plan::PlanList;

/// What is expected of a link.
const EXPECTED_LINK: &str = "expected LL, JU or TL and three digits";

pub fn read_faults(alloc: Global, texts: &[&[u8]]) -> Result<Vec<Link>, PlanRefusal>
    ensures { IsListRead PlanList.Faults fault_of (λ links. links.items)
        (map (λ text. text.now) texts.now) result }
{
    let mut links = Vec::with_capacity(alloc, texts.len())?;
    for (item, text) in texts.iter().enumerate() {
        let Some(link) = read_link(text) else {
            let (list, error) = (PlanList::Faults, ItemError::Whole(EXPECTED_LINK));
            return Err(error.refusal(alloc, list, item, text, EXPECTED_LINK));
        };
        links.push(link)?;
    }
    Ok(links)
}
