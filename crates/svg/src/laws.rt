//! Laws of the definitions, for the crates above. Each function does nothing: its contract is the
//! law.

ghost use Rattle.std.specs.Prelude.{ℕ, List};
ghost use Rattle.svg.specs.Escape.{escaped, IsContent};

/// No markup begins or ends in an escaped text, whatever the text.
pub fn escaped_text_is_content()
    ensures { (text : List ℕ) → IsContent (escaped text) }
{}
