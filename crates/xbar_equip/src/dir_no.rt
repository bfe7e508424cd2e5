ghost use Rattle.std.specs.Prelude.{◌≡◌, ◌<◌, ◌^◌, ℕ, MatchResult, IfOk, Some, None, Ok};
ghost use Rattle.std.specs.Fmt.{styled_text};
ghost use Rattle.std.specs.Str.{IsAscii};
ghost use Rattle.xbar_equip.specs.DirNo.{IsDirNo, dir_no_text};
ghost use Rattle.xbar_equip.specs.Fault.{digits_fault};

use crate::ascii::pad_ascii;
use crate::digits::number;
use crate::fault::EquipFault;
use std::fmt;
use std::marker::Model;

/// A directory number, 0000 to 9999, by which the office's own telephones are called.
///
/// A plan gives each number in use one or more lines, which are hunted in order.
#[derive(Clone, Copy, Debug, PartialEq, Eq, PartialOrd, Ord)]
pub struct DirNo {
    number: u16,
}

impl Model for DirNo {
    ghost use Rattle.std.specs.Prelude.{ℕ};
    ghost use Rattle.xbar_equip.specs.DirNo.{IsDirNo};

    ghost Value = { ℕ };

    ghost view = { λ a. a.number };

    ghost invariant = { λ a. IsDirNo a.number };

    ghost inverse = { λ number. record { number = number } };
}

impl DirNo {
    /// The directory number with the four digits of `number`, 0 to 9999.
    pub fn new(number: u16) -> Self
        requires { number < 10 ^ 4 }
        ensures { result ≡ number }
    {
        DirNo { number }
    }

    /// Parses four digits, for example `0042`.
    pub fn parse(text: &[u8]) -> Result<Self, EquipFault>
        ensures reads { (dir_no : ℕ) → IsDirNo dir_no → text.now ≡ dir_no_text dir_no →
            result ≡ Ok dir_no }
        ensures only { IfOk result (λ dir_no. IsDirNo dir_no × (text.now ≡ dir_no_text dir_no)) }
        ensures fault { MatchResult result (λ _. digits_fault 4 text.now ≡ None)
            (λ fault. digits_fault 4 text.now ≡ Some fault) }
    {
        if text.len() != 4 {
            return Err(EquipFault::Length);
        }
        let number = number(text)? as u16;
        Ok(DirNo { number })
    }

    /// The four ASCII digits, with leading zeros.
    pub fn text(self) -> [u8; 4]
        ensures text { result ≡ dir_no_text self }
        ensures ascii { IsAscii result }
    {
        let digit = |place: u16| b'0' + (self.number / place % 10) as u8;
        [digit(1000), digit(100), digit(10), digit(1)]
    }

    /// The four digits as a number, 0 to 9999.
    pub fn number(self) -> u16
        ensures value { result ≡ self }
        ensures range { IsDirNo self }
    {
        self.number
    }
}

impl fmt::Display for DirNo {
    ghost output = { λ dir_no. Some (dir_no_text dir_no) };

    ghost styled_output = { λ dir_no spec. Some (styled_text spec (dir_no_text dir_no)) };

    fn fmt<W: fmt::Write>(&self, f: &mut fmt::Formatter<W>) -> fmt::Result {
        pad_ascii(f, &self.text())
    }
}
