ghost use Rattle.std.specs.Prelude.{Some};
ghost use Rattle.std.specs.Str.{IsAscii};
ghost use Rattle.std.specs.Fmt.{DisplaysOnOk, DisplaysStyledOnOk, formatter_spec, styled_text};

use std::{fmt, str};

/// Writes ASCII text with the formatter's options applied, for example the width of `{:>8}`.
pub fn pad_ascii<W: fmt::Write>(f: &mut fmt::Formatter<W>, text: &[u8]) -> fmt::Result
    requires { IsAscii text.now }
    ensures writes { DisplaysOnOk W.write_str_gives f.old result (Some text.now) f.new }
    ensures styled { DisplaysStyledOnOk W.write_str_gives f.old result
        (Some (styled_text (formatter_spec f.old) text.now)) f.new }
{
    let Ok(text) = str::from_utf8(text) else {
        unreachable!();
    };
    f.pad(text)
}
