//! What a word shows, as JSON.

ghost use Rattle.std.specs.Prelude.{◌≡◌, ◌<◌, ◌++◌, ◌||◌, IfOk, OnOk, [], codes, filter, map, string_bytes, if◌then◌else◌};
ghost use Rattle.std.specs.List.{range_with_len};
ghost use Rattle.xbar_json.specs.Json.{listed};
ghost use Rattle.xbar_step_text.specs.Objects.{item_object, items_array, shown_object, step_items};
ghost use Rattle.xbar_step_text.specs.Shown.{is_shown, positions as positions_of};

use crate::place::Place;
use crate::place_object::PlaceObject;
use crate::shown::{Item, held_at, lead, positions};
use crate::words::cleared;
use std::alloc::AllocError;
use xbar_equip::WordNo;
use xbar_jobs::Step;

/// Adds a closed field with what it joins, or a busy member of a group.
#[tactic(auto, unfolding(crate::specs::Objects::item_object))]
fn add_item(text: &mut String, place: Place, word: u64, position: u8) -> Result<(), AllocError>
    requires { position < positions_of place }
    ensures { OnOk result (string_bytes text.new ≡ string_bytes text.old ++
        item_object place word position) }
{
    let held = held_at(place, word, position);
    let item = Item {
        place,
        position,
        at: held.saturating_sub(1),
    };
    write!(
        text,
        r#"{{"field":{position},"value":{held},"name":"{item}"}}"#
    )
}

/// Adds the item at a position, after a comma if it isn't the first. Adds nothing if the position
/// shows nothing. Returns whether any item has been added so far.
fn add_item_at(
    text: &mut String,
    place: Place,
    word: u64,
    position: u8,
    any: bool,
) -> Result<bool, AllocError>
    requires { position < positions_of place }
    ensures any { IfOk result (λ some. some ≡ (any || is_shown place word position)) }
    ensures text { OnOk result (string_bytes text.new ≡ string_bytes text.old ++
        (if is_shown place word position
        then (if any then codes "," else []) ++ item_object place word position else [])) }
{
    if held_at(place, word, position) == 0 {
        return Ok(any);
    }
    text.push_str(lead(any, "", ","))?;
    add_item(text, place, word, position)?;
    Ok(true)
}

/// Adds all items that a word shows, with commas between them.
fn add_listed(text: &mut String, place: Place, word: u64) -> Result<(), AllocError>
    ensures { OnOk result (string_bytes text.new ≡ string_bytes text.old ++
        listed (map (item_object place word)
        (filter (is_shown place word) (range_with_len 0 (positions_of place))))) }
{
    let mut any = false;
    for position in 0..positions(place) {
        let some = add_item_at(text, place, word, position, any)?;
        any = some;
    }
    Ok(())
}

/// Adds all items that a word shows, as an array.
#[tactic(auto, unfolding(crate::specs::Objects::items_array))]
pub fn add_items_array(text: &mut String, place: Place, word: u64) -> Result<(), AllocError>
    ensures { OnOk result (string_bytes text.new ≡ string_bytes text.old ++
        items_array place word) }
{
    text.push_str("[")?;
    add_listed(text, place, word)?;
    text.push_str("]")?;
    Ok(())
}

/// Adds the fields that a step finds closed, closes or opens, by the value that it finds in its
/// word.
#[tactic(auto, unfolding(crate::specs::Objects::step_items))]
pub fn add_step_items(text: &mut String, found: u64, step: &Step) -> Result<(), AllocError>
    ensures { OnOk result (string_bytes text.new ≡ string_bytes text.old ++
        step_items found step.now) }
{
    match *step {
        Step::Test(word) => add_items_array(text, Place::of(word), found),
        Step::Close(word, bits) => add_items_array(text, Place::of(word), bits),
        Step::Open(word, mask) => add_items_array(text, Place::of(word), cleared(found, mask)),
        _ => write!(text, "[]"),
    }
}

/// Adds a word with all that it shows, as a JSON object. If memory runs out, a part of it may have
/// been added.
#[tactic(auto, unfolding(crate::specs::Objects::shown_object))]
pub fn add_shown_object(text: &mut String, word: WordNo, value: u64) -> Result<(), AllocError>
    ensures { OnOk result (string_bytes text.new ≡ string_bytes text.old ++
        shown_object word value) }
{
    let number = word.number();
    let place = Place::of(word);
    let object = PlaceObject(place);
    write!(text, r#"{{"word":{number},"object":{object},"items":"#)?;
    add_items_array(text, place, value)?;
    text.push_str("}")?;
    Ok(())
}
