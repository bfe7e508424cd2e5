ghost use Rattle.std.specs.Prelude.{◌≡◌, ◌++◌, OnOk, string_bytes};
ghost use Rattle.svg.specs.Escape.{escaped, escaped_character, is_allowed as may_stand};

use std::alloc::AllocError;

/// The character that replaces C0 control characters, and characters that XML doesn't have.
const REPLACEMENT: char = '\u{FFFD}';

/// Adds a text, escaped for XML, between tags or in the double quotes of an attribute. If memory
/// runs out, a part of it may have been added.
pub fn add_escaped(text: &mut String, content: &str) -> Result<(), AllocError>
    ensures { OnOk result (string_bytes text.new ≡ string_bytes text.old ++ escaped content.now) }
{
    for character in content.chars() {
        add_character(text, character)?;
    }
    Ok(())
}

fn add_character(text: &mut String, character: char) -> Result<(), AllocError>
    ensures { OnOk result (string_bytes text.new ≡ string_bytes text.old ++
        escaped_character character) }
{
    match character {
        '&' => text.push_str("&amp;")?,
        '<' => text.push_str("&lt;")?,
        '>' => text.push_str("&gt;")?,
        '"' => text.push_str("&quot;")?,
        _ if is_allowed(character) => text.push(character)?,
        _ => text.push(REPLACEMENT)?,
    }
    Ok(())
}

/// Whether XML has the character and it is no C0 control character.
fn is_allowed(character: char) -> bool
    ensures { result ≡ may_stand character }
{
    character >= ' ' && character != '\u{FFFE}' && character != '\u{FFFF}'
}
