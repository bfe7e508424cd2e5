//! Values with commas between them.

ghost use Rattle.std.specs.Prelude.{◌≡◌, ◌++◌, OnOk, codes, flat_map, map, string_bytes};
ghost use Rattle.xbar_json.specs.Json.{array, listed};

use crate::json::Json;
use std::alloc::AllocError;

/// Appends an array of the items. If memory runs out, a part of it may have been added.
pub fn add_array<T: Json>(text: &mut String, items: &[T]) -> Result<(), AllocError>
    ensures { OnOk result (string_bytes text.new ≡ string_bytes text.old ++
        array (map T.json items.now)) }
{
    text.push_str("[")?;
    add_listed(text, items)?;
    text.push_str("]")?;
    Ok(())
}

/// Appends the items' texts, with commas between them, as `add_array` does.
#[tactic(auto, unfolding(crate::specs::Json::listed))]
pub fn add_listed<T: Json>(text: &mut String, items: &[T]) -> Result<(), AllocError>
    ensures { OnOk result (string_bytes text.new ≡ string_bytes text.old ++
        listed (map T.json items.now)) }
{
    if let [first, others @ ..] = items {
        first.add_json(text)?;
        add_others(text, others)?;
    }
    Ok(())
}

/// Appends the items' texts, each after a comma.
fn add_others<T: Json>(text: &mut String, items: &[T]) -> Result<(), AllocError>
    ensures { OnOk result (string_bytes text.new ≡ string_bytes text.old ++
        flat_map (λ other. codes "," ++ other) (map T.json items.now)) }
{
    for item in items {
        text.push_str(",")?;
        item.add_json(text)?;
    }
    Ok(())
}
