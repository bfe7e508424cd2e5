//! The words of switches, and the crosspoints of a path in them.

ghost use Rattle.std.specs.Prelude.{◌≡◌, ◌<◌, ℕ, length, slice_index};
ghost use Rattle.xbar_equip.specs.Word.{word_count};
ghost use Rattle.xbar_match.specs.Switches.{shape_at as shape_of_switch};
ghost use Rattle.xbar_equip.specs.Path.{IsPath};
ghost use Rattle.xbar_equip.specs.Crosspoint.{crosspoints};

use xbar_equip::{Crosspoint, Path, WordNo};
use xbar_switch::Shape;

/// The shape of a switch, by its number among the 400.
#[tactic(auto, unfolding(crate::specs::Switches::shape_at))]
pub fn shape_at(number: u16) -> Shape
    requires { number < 400 }
    ensures { result ≡ shape_of_switch number }
{
    if number < 200 && number % 20 < 10 {
        Shape::Line
    } else {
        Shape::Other
    }
}

/// The value of one word of the list of all words.
pub(crate) fn word_at(words: &[u64], word: WordNo) -> u64
    requires { length words.now ≡ word_count }
    ensures { result ≡ slice_index words.now word }
{
    words[usize::from(word.number())]
}

/// The crosspoints that a marker closes for a path and later opens, both times in this order.
pub fn effects_of(path: &Path) -> [Crosspoint; 4]
    ensures crosspoints { result ≡ crosspoints path.now }
    ensures range { IsPath path.now }
{
    path.crosspoints()
}
