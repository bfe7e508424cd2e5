ghost use Rattle.std.specs.Prelude.{◌≡◌, ◌<◌, MatchResult, IfOk, Some, None, Ok};
ghost use Rattle.std.specs.Fmt.{styled_text};
ghost use Rattle.std.specs.Str.{IsAscii};
ghost use Rattle.xbar_equip.specs.Ten.{TrunkPlace, IsTrunkPlace, place_text};
ghost use Rattle.xbar_equip.specs.Fault.{digits_fault};

use crate::ascii::pad_ascii;
use crate::digits::digit_value;
use crate::fault::EquipFault;
use std::fmt;
use std::marker::Model;

/// A trunk equipment number (TEN): the place of a trunk or a register, by its trunk link frame,
/// trunk switch and appearance on that switch. There are 1,000 places.
///
/// Its text has these three digits.
#[derive(Clone, Copy, Debug, PartialEq, Eq, PartialOrd, Ord)]
pub struct Ten {
    frame: u8,
    switch: u8,
    appearance: u8,
}

impl Model for Ten {
    ghost use Rattle.xbar_equip.specs.Ten.{TrunkPlace, IsTrunkPlace};

    ghost Value = { TrunkPlace };

    ghost view = { λ a. record { frame = a.frame; switch = a.switch; appearance = a.appearance } };

    ghost invariant = { λ a. IsTrunkPlace (record {
      frame = a.frame;
      switch = a.switch;
      appearance = a.appearance;
    }) };

    ghost inverse = { λ place. record {
      frame = place.frame;
      switch = place.switch;
      appearance = place.appearance;
    } };
}

impl Ten {
    /// The trunk place with this frame, switch and appearance, each 0 to 9.
    pub fn new(frame: u8, switch: u8, appearance: u8) -> Self
        requires frame { frame < 10 }
        requires switch { switch < 10 }
        requires appearance { appearance < 10 }
        ensures { result ≡ record { frame = frame; switch = switch; appearance = appearance } }
    {
        Ten {
            frame,
            switch,
            appearance,
        }
    }

    /// Parses three digits, for example `417`.
    pub fn parse(text: &[u8]) -> Result<Self, EquipFault>
        ensures reads { (place : TrunkPlace) → IsTrunkPlace place → text.now ≡ place_text place →
            result ≡ Ok place }
        ensures only { IfOk result (λ place. IsTrunkPlace place × (text.now ≡ place_text place)) }
        ensures fault { MatchResult result (λ _. digits_fault 3 text.now ≡ None)
            (λ fault. digits_fault 3 text.now ≡ Some fault) }
    {
        let &[frame, switch, appearance] = text else {
            return Err(EquipFault::Length);
        };
        Ok(Ten {
            frame: digit_value(frame)?,
            switch: digit_value(switch)?,
            appearance: digit_value(appearance)?,
        })
    }

    /// The three ASCII digits, for example `417`.
    pub fn text(self) -> [u8; 3]
        ensures text { result ≡ place_text self }
        ensures ascii { IsAscii result }
    {
        [
            b'0' + self.frame,
            b'0' + self.switch,
            b'0' + self.appearance,
        ]
    }

    /// The trunk link frame, 0 to 9.
    pub fn frame(self) -> u8
        ensures value { result ≡ self.frame }
        ensures range { IsTrunkPlace self }
    {
        self.frame
    }

    /// The trunk switch, 0 to 9.
    pub fn switch(self) -> u8
        ensures value { result ≡ self.switch }
        ensures range { IsTrunkPlace self }
    {
        self.switch
    }

    /// The appearance on the trunk switch, 0 to 9.
    pub fn appearance(self) -> u8
        ensures value { result ≡ self.appearance }
        ensures range { IsTrunkPlace self }
    {
        self.appearance
    }
}

impl fmt::Display for Ten {
    ghost output = { λ place. Some (place_text place) };

    ghost styled_output = { λ place spec. Some (styled_text spec (place_text place)) };

    fn fmt<W: fmt::Write>(&self, f: &mut fmt::Formatter<W>) -> fmt::Result {
        pad_ascii(f, &self.text())
    }
}
