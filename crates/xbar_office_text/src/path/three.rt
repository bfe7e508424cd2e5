ghost use Rattle.std.specs.Prelude.{Some};
ghost use Rattle.xbar_office_text.specs.PathLines.{in_three};

use std::fmt;

/// A number, right-aligned in three columns.
#[derive(Clone, Copy)]
pub struct InThree(pub u16);

impl fmt::Display for InThree {
    ghost output = { λ number. Some (in_three number.0) };

    #[tactic(auto, unfolding(crate::specs::PathLines::in_three))]
    fn fmt<W: fmt::Write>(&self, f: &mut fmt::Formatter<W>) -> fmt::Result {
        let number = self.0;
        if number < 10 {
            write!(f, "  {number}")
        } else if number < 100 {
            write!(f, " {number}")
        } else {
            write!(f, "{number}")
        }
    }
}
