use std::fmt;

/// The most characters of a text that are shown.
const MOST_CHARACTERS: usize = 40;

/// A text from an input, between double quotes. Double quotes, backslashes and characters that
/// aren't printable are escaped, as `\"`, `\n`, `\x1b` or `\u{200b}`, and so are bytes that aren't
/// UTF-8, as `\xff`. Of a text of more than 40 characters the first 40 are shown, with two dots
/// after the quotes.
#[derive(Clone, Copy)]
pub struct Quoted<'t>(pub &'t [u8]);

impl fmt::Display for Quoted<'_> {
    fn fmt<W: fmt::Write>(&self, f: &mut fmt::Formatter<W>) -> fmt::Result {
        f.write_str("\"")?;
        let dots = write_start(f, self.0)?;
        write!(f, "\"{dots}")
    }
}

/// The same without the quotes, for a text that is a word.
#[derive(Clone, Copy, PartialEq)]
pub struct Bare<'t>(pub &'t [u8]);

impl fmt::Display for Bare<'_> {
    fn fmt<W: fmt::Write>(&self, f: &mut fmt::Formatter<W>) -> fmt::Result {
        let dots = write_start(f, self.0)?;
        f.write_str(dots)
    }
}

/// Writes the characters that are shown. Returns the two dots if there are more, else nothing.
fn write_start<W: fmt::Write>(
    f: &mut fmt::Formatter<W>,
    text: &[u8],
) -> Result<&'static str, fmt::Error> {
    let mut left = MOST_CHARACTERS;
    for chunk in text.utf8_chunks() {
        for character in chunk.valid().chars() {
            if left == 0 {
                return Ok("..");
            }
            left -= 1;
            write_character(f, character)?;
        }
        for byte in chunk.invalid() {
            if left == 0 {
                return Ok("..");
            }
            left -= 1;
            write!(f, "{}", byte.escape_ascii())?;
        }
    }
    Ok("")
}

/// Writes a character, escaped if it has to be.
fn write_character<W: fmt::Write>(f: &mut fmt::Formatter<W>, character: char) -> fmt::Result {
    match u8::try_from(character) {
        Ok(b'\'') => f.write_str("'"),
        Ok(byte) if byte.is_ascii() => write!(f, "{}", byte.escape_ascii()),
        _ => write!(f, "{}", character.escape_debug()),
    }
}
