ghost use Rattle.std.specs.Prelude.{◌≡◌, ◌<◌, ℕ, MatchResult, IfOk, Some, None, Ok};
ghost use Rattle.std.specs.Fmt.{styled_text};
ghost use Rattle.std.specs.Str.{IsAscii};
ghost use Rattle.xbar_equip.specs.Channel.{IsChannel, channel_text};
ghost use Rattle.xbar_equip.specs.Fault.{digits_fault};

use crate::ascii::pad_ascii;
use crate::digits::digit_value;
use crate::fault::EquipFault;
use std::fmt;
use std::marker::Model;

/// A channel, 0 to 9: the number that the line link, the junctor and the trunk link of a path
/// share.
///
/// Its text is one digit.
#[derive(Clone, Copy, Debug, PartialEq, Eq, PartialOrd, Ord)]
pub struct Channel {
    number: u8,
}

impl Model for Channel {
    ghost use Rattle.std.specs.Prelude.{ℕ};
    ghost use Rattle.xbar_equip.specs.Channel.{IsChannel};

    ghost Value = { ℕ };

    ghost view = { λ a. a.number };

    ghost invariant = { λ a. IsChannel a.number };

    ghost inverse = { λ number. record { number = number } };
}

impl Channel {
    /// The channel with this number, 0 to 9.
    pub fn new(number: u8) -> Self
        requires { number < 10 }
        ensures { result ≡ number }
    {
        Channel { number }
    }

    /// Parses one digit, for example `7`.
    pub fn parse(text: &[u8]) -> Result<Self, EquipFault>
        ensures reads { (channel : ℕ) → IsChannel channel → text.now ≡ channel_text channel →
            result ≡ Ok channel }
        ensures only { IfOk result (λ channel. IsChannel channel ×
            (text.now ≡ channel_text channel)) }
        ensures fault { MatchResult result (λ _. digits_fault 1 text.now ≡ None)
            (λ fault. digits_fault 1 text.now ≡ Some fault) }
    {
        let &[number] = text else {
            return Err(EquipFault::Length);
        };
        Ok(Channel {
            number: digit_value(number)?,
        })
    }

    /// The ASCII digit.
    pub fn text(self) -> [u8; 1]
        ensures text { result ≡ channel_text self }
        ensures ascii { IsAscii result }
    {
        [b'0' + self.number]
    }

    /// The channel's number, 0 to 9, which is also the number of its field in a line switch and in
    /// a trunk switch.
    pub fn number(self) -> u8
        ensures value { result ≡ self }
        ensures range { IsChannel self }
    {
        self.number
    }
}

impl fmt::Display for Channel {
    ghost output = { λ channel. Some (channel_text channel) };

    ghost styled_output = { λ channel spec. Some (styled_text spec (channel_text channel)) };

    fn fmt<W: fmt::Write>(&self, f: &mut fmt::Formatter<W>) -> fmt::Result {
        pad_ascii(f, &self.text())
    }
}
