ghost use Rattle.std.specs.Prelude.{◌≡◌, ◌<◌, ◌/◌, ◌%◌, MatchResult, IfOk, Some, None, Ok};
ghost use Rattle.std.specs.Fmt.{styled_text};
ghost use Rattle.std.specs.Str.{IsAscii};
ghost use Rattle.xbar_equip.specs.Len.{Line, IsLine, line_text, line_fault};

use crate::ascii::pad_ascii;
use crate::digits::digit_value;
use crate::fault::EquipFault;
use std::fmt;
use std::marker::Model;

/// A line equipment number (LEN): a line, by its line link frame, line switch and place on that
/// switch. There are ten frames of ten switches with thirty places, for 3,000 lines.
///
/// Its text has four digits: the frame, the horizontal group (the switch), the vertical group and
/// the vertical file.
#[derive(Clone, Copy, Debug, PartialEq, Eq, PartialOrd, Ord)]
pub struct Len {
    frame: u8,
    switch: u8,
    x: u8,
}

impl Model for Len {
    ghost use Rattle.xbar_equip.specs.Len.{Line, IsLine};

    ghost Value = { Line };

    ghost view = { λ a. record { frame = a.frame; switch = a.switch; x = a.x } };

    ghost invariant = { λ a. IsLine (record { frame = a.frame; switch = a.switch; x = a.x }) };

    ghost inverse = { λ line. record { frame = line.frame; switch = line.switch; x = line.x } };
}

impl Len {
    /// The line at frame 0 to 9, switch 0 to 9 and place 0 to 29.
    pub fn new(frame: u8, switch: u8, x: u8) -> Self
        requires frame { frame < 10 }
        requires switch { switch < 10 }
        requires x { x < 30 }
        ensures { result ≡ record { frame = frame; switch = switch; x = x } }
    {
        Len { frame, switch, x }
    }

    /// Parses four digits, for example `3041`.
    pub fn parse(text: &[u8]) -> Result<Self, EquipFault>
        ensures reads { (line : Line) → IsLine line → text.now ≡ line_text line → result ≡ Ok line }
        ensures only { IfOk result (λ line. IsLine line × (text.now ≡ line_text line)) }
        ensures fault { MatchResult result (λ _. line_fault text.now ≡ None)
            (λ fault. line_fault text.now ≡ Some fault) }
    {
        let &[frame, switch, group, file] = text else {
            return Err(EquipFault::Length);
        };
        let frame = digit_value(frame)?;
        let switch = digit_value(switch)?;
        let group = digit_value(group)?;
        let file = digit_value(file)?;
        if group > 5 || file > 4 {
            return Err(EquipFault::Range);
        }
        let x = 5 * group + file;
        Ok(Len { frame, switch, x })
    }

    /// The four ASCII digits, for example `3041`.
    pub fn text(self) -> [u8; 4]
        ensures text { result ≡ line_text self }
        ensures ascii { IsAscii result }
    {
        [
            b'0' + self.frame,
            b'0' + self.switch,
            b'0' + self.vertical_group(),
            b'0' + self.vertical_file(),
        ]
    }

    /// The line link frame, 0 to 9.
    pub fn frame(self) -> u8
        ensures value { result ≡ self.frame }
        ensures range { IsLine self }
    {
        self.frame
    }

    /// The line switch, 0 to 9, also called the horizontal group.
    pub fn switch(self) -> u8
        ensures value { result ≡ self.switch }
        ensures range { IsLine self }
    {
        self.switch
    }

    /// The place on the line switch, 0 to 29.
    pub fn x(self) -> u8
        ensures value { result ≡ self.x }
        ensures range { IsLine self }
    {
        self.x
    }

    /// The vertical group, 0 to 5: the line's block of five places on the switch, and the third
    /// digit of the text.
    pub fn vertical_group(self) -> u8
        ensures { result ≡ self.x / 5 }
    {
        self.x / 5
    }

    /// The vertical file, 0 to 4: the line's place in its vertical group, and the fourth digit of
    /// the text.
    pub fn vertical_file(self) -> u8
        ensures { result ≡ self.x % 5 }
    {
        self.x % 5
    }
}

impl fmt::Display for Len {
    ghost output = { λ line. Some (line_text line) };

    ghost styled_output = { λ line spec. Some (styled_text spec (line_text line)) };

    fn fmt<W: fmt::Write>(&self, f: &mut fmt::Formatter<W>) -> fmt::Result {
        pad_ascii(f, &self.text())
    }
}
