//! Texts as one line.

ghost use Rattle.std.specs.Prelude.{◌≡◌, IfOk, map};
ghost use Rattle.crossbar5_cli.specs.Printed.{IsOneLine, without_line_end as specified};

use std::alloc::{AllocError, Global};
use std::fmt::Display;

/// The text as one line with its line end. Each line end in the text becomes a space.
pub fn one_line<D: Display>(alloc: Global, text: &D) -> Result<Vec<u8>, AllocError>
    ensures { IfOk result (λ line. IsOneLine (D.output text.now) line.items) }
{
    let text = text.to_string(alloc)?;
    let mut line = without_line_ends(alloc, text.as_bytes())?;
    line.push(b'\n')?;
    Ok(line)
}

fn without_line_ends(alloc: Global, text: &[u8]) -> Result<Vec<u8>, AllocError>
    ensures { IfOk result (λ line. line.items ≡ map specified text.now) }
{
    text.iter()
        .map(|byte| without_line_end(*byte))
        .collect(alloc)
}

/// The byte, or a space in place of a line end.
fn without_line_end(byte: u8) -> u8
    ensures { result ≡ specified byte }
{
    match byte {
        b'\n' => b' ',
        _ => byte,
    }
}
