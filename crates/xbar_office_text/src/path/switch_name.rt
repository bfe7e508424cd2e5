ghost use Rattle.std.specs.Prelude.{Some};
ghost use Rattle.xbar_office_text.specs.PathLines.{switch_text};

use std::fmt;

/// A switch, by its frame and its number on the frame.
#[derive(Clone, Copy)]
pub struct SwitchName(pub u8, pub u8);

impl fmt::Display for SwitchName {
    ghost output = { λ name. Some (switch_text name.0 name.1) };

    #[tactic(auto, unfolding(crate::specs::PathLines::switch_text))]
    fn fmt<W: fmt::Write>(&self, f: &mut fmt::Formatter<W>) -> fmt::Result {
        let SwitchName(frame, switch) = self;
        write!(f, "{frame},{switch}")
    }
}
