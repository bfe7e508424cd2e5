ghost use Rattle.std.specs.Prelude.{Some};
ghost use Rattle.xbar_json.specs.Office.{path_value};

use std::fmt;
use xbar_equip::Path;

/// A path as a string; `null` if there is none.
#[derive(Clone, Copy)]
pub struct PathValue<'p>(pub &'p Option<Path>);

impl fmt::Display for PathValue<'_> {
    ghost output = { λ value. Some (path_value value.0.now) };

    fn fmt<W: fmt::Write>(&self, f: &mut fmt::Formatter<W>) -> fmt::Result {
        match self.0 {
            Some(path) => write!(f, "\"{path}\""),
            None => f.write_str("null"),
        }
    }
}
