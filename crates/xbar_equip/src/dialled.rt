ghost use Rattle.std.specs.Prelude.{◌≡◌, ◌<◌, ◌^◌, ℕ, MatchResult, IfOk, Some, None, Ok};
ghost use Rattle.std.specs.Fmt.{styled_text};
ghost use Rattle.std.specs.Str.{IsAscii};
ghost use Rattle.xbar_equip.specs.Dialled.{IsDialled, dialled_text, code_of, number_of};
ghost use Rattle.xbar_equip.specs.Fault.{digits_fault};

use crate::ascii::pad_ascii;
use crate::digits::number;
use crate::dir_no::DirNo;
use crate::fault::EquipFault;
use std::fmt;
use std::marker::Model;

/// The seven digits that a caller dials: an office code of three and a directory number of four.
#[derive(Clone, Copy, Debug, PartialEq, Eq)]
pub struct Dialled {
    number: u32,
}

impl Model for Dialled {
    ghost use Rattle.std.specs.Prelude.{ℕ};
    ghost use Rattle.xbar_equip.specs.Dialled.{IsDialled};

    ghost Value = { ℕ };

    ghost view = { λ a. a.number };

    ghost invariant = { λ a. IsDialled a.number };

    ghost inverse = { λ number. record { number = number } };
}

impl Dialled {
    /// The seven digits of `number`, 0 to 9,999,999, with leading zeros.
    pub fn new(number: u32) -> Self
        requires { number < 10 ^ 7 }
        ensures { result ≡ number }
    {
        Dialled { number }
    }

    /// Parses seven digits, for example `5551234`.
    pub fn parse(text: &[u8]) -> Result<Self, EquipFault>
        ensures reads { (dialled : ℕ) → IsDialled dialled → text.now ≡ dialled_text dialled →
            result ≡ Ok dialled }
        ensures only { IfOk result (λ dialled. IsDialled dialled ×
            (text.now ≡ dialled_text dialled)) }
        ensures fault { MatchResult result (λ _. digits_fault 7 text.now ≡ None)
            (λ fault. digits_fault 7 text.now ≡ Some fault) }
    {
        if text.len() != 7 {
            return Err(EquipFault::Length);
        }
        let number = number(text)?;
        Ok(Dialled { number })
    }

    /// The seven ASCII digits, with leading zeros.
    pub fn text(self) -> [u8; 7]
        ensures text { result ≡ dialled_text self }
        ensures ascii { IsAscii result }
    {
        let digit = |place: u32| b'0' + (self.number / place % 10) as u8;
        [
            digit(1_000_000),
            digit(100_000),
            digit(10_000),
            digit(1000),
            digit(100),
            digit(10),
            digit(1),
        ]
    }

    /// The seven digits as one number, 0 to 9,999,999.
    pub fn value(self) -> u32
        ensures value { result ≡ self }
        ensures range { IsDialled self }
    {
        self.number
    }

    /// The office code, by which a call is routed: the first three digits, 0 to 999.
    pub fn code(self) -> u16
        ensures value { result ≡ code_of self }
        ensures range { result < 1000 }
    {
        (self.number / 10_000) as u16
    }

    /// The last four digits: the called number, if the call is within this office.
    pub fn number(self) -> DirNo
        ensures { result ≡ number_of self }
    {
        DirNo::new((self.number % 10_000) as u16)
    }
}

impl fmt::Display for Dialled {
    ghost output = { λ dialled. Some (dialled_text dialled) };

    ghost styled_output = { λ dialled spec. Some (styled_text spec (dialled_text dialled)) };

    fn fmt<W: fmt::Write>(&self, f: &mut fmt::Formatter<W>) -> fmt::Result {
        pad_ascii(f, &self.text())
    }
}
