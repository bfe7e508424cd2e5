//! A marker's step as a JSON object.

ghost use Rattle.std.specs.Prelude.{◌≡◌, ◌++◌, OnOk, string_bytes};
ghost use Rattle.xbar_step_text.specs.Objects.{step_object};

use crate::acts::{act_name, add_object_of, word_of};
use crate::observation::Observation;
use crate::shown_object::add_step_items;
use crate::values::{EndedValue, FoundValue, HolderValue, PreferredValue, TurnValue, add_record};
use crate::words::add_words;
use std::alloc::AllocError;
use xbar_office::Record;

/// Adds a marker's step as a JSON object. `records` are those that the step added: one if it is a
/// turn, else none. If memory runs out, a part of it may have been added.
#[tactic(auto, unfolding(crate::specs::Objects::step_object))]
pub fn add_object(
    text: &mut String,
    number: u64,
    marker: u32,
    observed: &Observation,
    records: &[Record],
) -> Result<(), AllocError>
    ensures { OnOk result (string_bytes text.new ≡ string_bytes text.old ++
        step_object number marker observed.now records.now) }
{
    let (step, event) = (&observed.step, &observed.event);
    let found = observed.found;
    let act = act_name(step);
    write!(
        text,
        r#"{{"event":"step","step":{number},"marker":{marker},"act":"{act}","object":"#
    )?;
    add_object_of(text, step)?;
    let word = word_of(step);
    let value = FoundValue { found, step };
    write!(text, r#","word":{word},"found":{value},"items":"#)?;
    add_step_items(text, found, step)?;
    let holder = HolderValue(event);
    let preferred = PreferredValue(event);
    write!(
        text,
        r#","holder":{holder},"preferred":{preferred},"turn":"#
    )?;
    let turn = TurnValue(records);
    write!(text, r#"{turn},"record":"#)?;
    add_record(text, records)?;
    let ended = EndedValue(event);
    write!(text, r#","ended":{ended},"says":""#)?;
    add_words(text, observed, records)?;
    text.push_str("\"}")?;
    Ok(())
}
