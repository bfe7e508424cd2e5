//! The words of an office: what switches and groups show, and all words as strings.

ghost use Rattle.std.specs.Prelude.{◌≡◌, ◌<◌, ◌++◌, ◌||◌, nat_lt, IfOk, OnOk, [], codes, decimal, flat_map, length, map, slice_index, string_bytes, if◌then◌else◌};
ghost use Rattle.xbar_equip.specs.Word.{word_count};
ghost use Rattle.xbar_json.specs.Json.{array, listed, quoted};
ghost use Rattle.xbar_look.specs.Look.{shown_objects};
ghost use Rattle.xbar_step_text.specs.Objects.{shown_object};

use crate::values::lead;
use std::alloc::AllocError;
use xbar_equip::WordNo;
use xbar_step_text::add_shown_object;

/// How many of the words are those of switches and groups: the first ones.
const SHOWN_WORDS: u16 = 416;

/// Adds what a word shows, after a comma if `any` word is told already. Adds nothing if it shows
/// nothing. Returns whether any word is told by then.
fn add_word(text: &mut String, number: u16, word: u64, any: bool) -> Result<bool, AllocError>
    requires { number < word_count }
    ensures any { IfOk result (λ some. some ≡ (any || nat_lt 0 word)) }
    ensures text { OnOk result (string_bytes text.new ≡ string_bytes text.old ++
        (if nat_lt 0 word then (if any then codes "," else []) ++ shown_object number word
        else [])) }
{
    if word == 0 {
        return Ok(any);
    }
    text.push_str(lead(any))?;
    add_shown_object(text, WordNo::new(number), word)?;
    Ok(true)
}

/// Adds what switches and groups show, with commas between them.
fn add_listed_shown(text: &mut String, words: &[u64]) -> Result<(), AllocError>
    requires { length words.now ≡ word_count }
    ensures { OnOk result (string_bytes text.new ≡ string_bytes text.old ++
        listed (shown_objects words.now)) }
{
    let mut any = false;
    for number in 0..SHOWN_WORDS {
        let some = add_word(text, number, words[usize::from(number)], any)?;
        any = some;
    }
    Ok(())
}

/// Adds what switches and groups show, as an array.
pub fn add_shown(text: &mut String, words: &[u64]) -> Result<(), AllocError>
    requires { length words.now ≡ word_count }
    ensures { OnOk result (string_bytes text.new ≡ string_bytes text.old ++
        array (shown_objects words.now)) }
{
    text.push_str("[")?;
    add_listed_shown(text, words)?;
    text.push_str("]")?;
    Ok(())
}

/// Adds the words as strings, each after a comma.
fn add_other_words(text: &mut String, words: &[u64]) -> Result<(), AllocError>
    ensures { OnOk result (string_bytes text.new ≡ string_bytes text.old ++
        flat_map (λ other. codes "," ++ other) (map (λ word. quoted (decimal word)) words.now)) }
{
    for word in words {
        write!(text, ",\"{word}\"")?;
    }
    Ok(())
}

/// Adds the words as strings, with commas between them.
#[tactic(auto, unfolding(xbar_json::specs::Json::listed))]
fn add_listed_words(text: &mut String, words: &[u64]) -> Result<(), AllocError>
    ensures { OnOk result (string_bytes text.new ≡ string_bytes text.old ++
        listed (map (λ word. quoted (decimal word)) words.now)) }
{
    if let [first, others @ ..] = words {
        write!(text, "\"{first}\"")?;
        add_other_words(text, others)?;
    }
    Ok(())
}

/// Adds an array of the words as strings, since a JSON number may lose some of 64 bits.
pub fn add_words(text: &mut String, words: &[u64]) -> Result<(), AllocError>
    ensures { OnOk result (string_bytes text.new ≡ string_bytes text.old ++
        array (map (λ word. quoted (decimal word)) words.now)) }
{
    text.push_str("[")?;
    add_listed_words(text, words)?;
    text.push_str("]")?;
    Ok(())
}
