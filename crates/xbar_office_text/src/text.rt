ghost use Rattle.std.specs.Prelude.{◌≡◌, IfOk, string_bytes};
ghost use Rattle.xbar_office_text.specs.Text.{office_text as the_text};

use crate::cards::add_cards;
use crate::faults::add_faults;
use crate::glance::add_glance;
use crate::picture::add_pictures;
use std::alloc::{AllocError, Global};
use xbar_equip::Path;
use xbar_office::Record;
use xbar_plan::Plan;

/// The text of an office under this plan, with these paths after these records. Its lines have at
/// most 80 characters, and each of them ends with a line feed.
#[tactic(auto, unfolding(crate::specs::Text::office_text))]
pub fn office_text(
    alloc: Global,
    plan: &Plan,
    paths: &[Path],
    records: &[Record],
) -> Result<String, AllocError>
    ensures { IfOk result (λ text. string_bytes text ≡ the_text plan.now paths.now records.now) }
{
    let mut text = String::new(alloc);
    add_glance(&mut text, plan, paths)?;
    add_pictures(alloc, &mut text, plan, paths)?;
    add_faults(alloc, &mut text, plan)?;
    add_cards(alloc, &mut text, records)?;
    Ok(text)
}
