//! Diagnostics of the kinds of markers, a text with a letter for each marker.

ghost use Rattle.std.specs.Prelude.{◌≡◌, not, option_map, position};
ghost use Rattle.xbar_diagnostics.specs.Kinds.{is_kind_letter as names_a_kind, wrong_in};

use crate::quoted::{Bare, Quoted};
use std::fmt;

/// The largest number of markers in an office.
const MOST_MARKERS: usize = 48;

/// What is wrong with the kinds of markers.
#[derive(Clone, Copy, Debug, PartialEq, Eq)]
pub enum KindsWrong {
    /// The first letter that names no kind, counted from 1.
    Letter(usize),
    /// Each letter names a kind, but the number of letters is out of range.
    Count(usize),
}

/// What is wrong with a text of markers' kinds. Its sentence begins with the option `--markers`.
#[derive(Clone, Copy, Debug)]
pub struct KindsDiagnostic<'t> {
    pub kinds: &'t str,
    pub wrong: KindsWrong,
}

impl fmt::Display for KindsDiagnostic<'_> {
    fn fmt<W: fmt::Write>(&self, f: &mut fmt::Formatter<W>) -> fmt::Result {
        let kinds = Bare(self.kinds.as_bytes());
        write!(f, "--markers {kinds}: ")?;
        match self.wrong {
            KindsWrong::Letter(number) => {
                let letter = letter_at(self.kinds, number.saturating_sub(1)).unwrap_or("");
                let letter = Quoted(letter.as_bytes());
                write!(f, "letter {number} is {letter}; expected D, C or X")
            }
            KindsWrong::Count(count) => {
                write!(f, "expected 1 to {MOST_MARKERS} letters, found {count}")
            }
        }
    }
}

/// The letter at this index, counted from 0, as a text.
fn letter_at(kinds: &str, number: usize) -> Option<&str> {
    let (start, letter) = kinds.char_indices().nth(number)?;
    kinds.get(start..start.saturating_add(letter.len_utf8()))
}

/// Finds what is wrong with the letters of markers' kinds, if anything is.
pub fn kinds_diagnostic(kinds: &str) -> Option<KindsDiagnostic<'_>>
    ensures { result
        ≡ option_map (λ wrong. record { kinds = kinds.entry; wrong = wrong }) (wrong_in kinds.now) }
{
    let wrong = match first_wrong(kinds.as_bytes()) {
        Some(place) => KindsWrong::Letter(place + 1),
        None if kinds.is_empty() || kinds.len() > MOST_MARKERS => KindsWrong::Count(kinds.len()),
        None => return None,
    };
    Some(KindsDiagnostic { kinds, wrong })
}

/// The index of the first letter that names no kind.
fn first_wrong(letters: &[u8]) -> Option<usize>
    ensures { result ≡ position (λ letter. not (names_a_kind letter)) letters.now }
{
    letters.iter().position(|letter| !is_kind_letter(*letter))
}

fn is_kind_letter(letter: u8) -> bool
    ensures { result ≡ names_a_kind letter }
{
    matches!(letter, b'D' | b'C' | b'X')
}
