//! Splits the text of an item into parts, and parses the numbers in them.

ghost use Rattle.std.specs.Prelude.{◌≡◌, ◌==◌, [], ◌∷◌, IfOk, MatchOption, map, position};
ghost use Rattle.xbar_plan_text.specs.Texts.{parts, IsFirstPart, line_of, place_of, number_of, code_of, fault_of};

use std::alloc::{AllocError, Global};
use xbar_equip::{DirNo, Len, Link, Ten};

/// Splits a text at its spaces. Two spaces in a row have an empty part between them.
pub fn split_parts<'t>(alloc: Global, text: &'t [u8]) -> Result<Vec<&'t [u8]>, AllocError>
    ensures { IfOk result (λ found. map (λ part. part.now) found.items ≡ parts text.now) }
{
    let mut found = Vec::new(alloc);
    let mut rest = text;
    while let Some((first, others)) = split_first_part(rest) {
        found.push(first)?;
        rest = others;
    }
    found.push(rest)?;
    Ok(found)
}

/// The text before the first space and the text after it, or `None` if there is no space.
#[tactic(auto, using(crate::proofs::Parts::parts_none, crate::proofs::Parts::first_part))]
fn split_first_part(text: &[u8]) -> Option<(&[u8], &[u8])>
    ensures { MatchOption result (parts text.now ≡ text.now ∷ [])
        (λ split. IsFirstPart text.now split.0.now split.1.now) }
{
    let end = first_space(text)?;
    Some((&text[..end], &text[end + 1..]))
}

fn first_space(text: &[u8]) -> Option<usize>
    ensures { result ≡ position (λ byte. byte == 32) text.now }
{
    text.iter().position(|byte| *byte == b' ')
}

pub fn read_line(text: &[u8]) -> Option<Len>
    ensures { result ≡ line_of text.now }
{
    Len::parse(text).ok()
}

pub fn read_place(text: &[u8]) -> Option<Ten>
    ensures { result ≡ place_of text.now }
{
    Ten::parse(text).ok()
}

pub fn read_number(text: &[u8]) -> Option<DirNo>
    ensures { result ≡ number_of text.now }
{
    DirNo::parse(text).ok()
}

/// Parses an item of `faults`.
pub fn read_link(text: &[u8]) -> Option<Link>
    ensures { result ≡ fault_of text.now }
{
    Link::parse(text).ok()
}

/// Parses the three digits of a code.
pub fn read_code(text: &[u8]) -> Option<u16>
    ensures { result ≡ code_of text.now }
{
    let [a, b, c] = text else {
        return None;
    };
    if a.is_ascii_digit() && b.is_ascii_digit() && c.is_ascii_digit() {
        Some(100 * u16::from(a - b'0') + 10 * u16::from(b - b'0') + u16::from(c - b'0'))
    } else {
        None
    }
}
