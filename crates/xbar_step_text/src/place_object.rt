ghost use Rattle.std.specs.Prelude.{Some};
ghost use Rattle.xbar_step_text.specs.Objects.{place_object};

use crate::place::Place;
use std::fmt;

/// A place as a JSON object.
#[derive(Clone, Copy)]
pub struct PlaceObject(pub Place);

impl fmt::Display for PlaceObject {
    ghost output = { λ object. Some (place_object object.0) };

    #[tactic(auto, unfolding(crate::specs::Objects::place_object))]
    fn fmt<W: fmt::Write>(&self, f: &mut fmt::Formatter<W>) -> fmt::Result {
        let kind = self.0.kind_name();
        match self.0 {
            Place::LineSwitch(frame, number)
            | Place::LineJunctor(frame, number)
            | Place::TrunkSwitch(frame, number)
            | Place::TrunkJunctor(frame, number) => {
                write!(
                    f,
                    r#"{{"kind":"{kind}","frame":{frame},"number":{number}}}"#
                )
            }
            Place::Group(number) => write!(f, r#"{{"kind":"group","number":{number}}}"#),
            Place::Other(number) => write!(f, r#"{{"kind":"word","number":{number}}}"#),
        }
    }
}
