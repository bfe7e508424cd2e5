//! The number of paths and of closed crosspoints that words show.

ghost use Rattle.std.specs.Prelude.{◌≡◌, ◌*◌, ◌/◌, ◌%◌, ◌<◌, ◌≤◌, List, length};
ghost use Rattle.xbar_equip.specs.Word.{LineSwitch, word_count};
ghost use Rattle.xbar_equip.specs.Paths.{IsSet, AreApart};
ghost use Rattle.xbar_equip.specs.declared.path.Path.{Path};
ghost use Rattle.xbar_match.specs.Switches.{word_of};
ghost use Rattle.xbar_match.specs.Shows.{AreInRange, ShowsPaths};
ghost use Rattle.xbar_match.specs.Counts.{closed_fields, closed_line_fields, closed_switch_fields};

use crate::words::{shape_at, word_at};
use xbar_equip::line_switch;
use xbar_switch::{Shape, field};

/// The number of closed fields of a switch's word.
fn count_fields(shape: Shape, word: u64) -> u16
    ensures count { result ≡ closed_fields shape word }
    ensures range { result ≤ 10 }
{
    let mut count = 0;
    for v in 0..10 {
        if field(shape, word, v) != 0 {
            count += 1;
        }
    }
    count
}

/// The word of line switch `k` of the hundred.
fn line_word(words: &[u64], k: u8) -> u64
    requires words { length words.now ≡ word_count }
    requires switch { k < 100 }
    ensures { result ≡ word_of words.now (LineSwitch (k / 10) (k % 10)) }
{
    word_at(words, line_switch(k / 10, k % 10))
}

/// The number of closed fields of the hundred line switches.
fn count_line_fields(words: &[u64]) -> u16
    requires { length words.now ≡ word_count }
    ensures { result ≡ closed_line_fields words.now }
{
    let mut count = 0;
    for k in 0..100 {
        count += count_fields(Shape::Line, line_word(words, k));
    }
    count
}

/// The number of closed fields of all 400 switches.
fn count_switch_fields(words: &[u64]) -> u16
    requires { length words.now ≡ word_count }
    ensures { result ≡ closed_switch_fields words.now }
{
    let mut count = 0;
    for number in 0..400 {
        count += count_fields(shape_at(number), words[usize::from(number)]);
    }
    count
}

/// The number of paths that the words show. Each path has one line link, and so one closed field
/// in the line switches.
pub fn count_paths(words: &[u64]) -> u16
    requires { length words.now ≡ word_count }
    ensures exact { result ≡ closed_line_fields words.now }
    ensures shown { (paths : List Path) → ShowsPaths words.now paths → AreInRange paths →
        AreApart paths → IsSet paths
        → result ≡ length paths }
{
    count_line_fields(words)
}

/// The number of closed crosspoints that the words show. Each path has four.
pub fn count_closed(words: &[u64]) -> u16
    requires { length words.now ≡ word_count }
    ensures exact { result ≡ closed_switch_fields words.now }
    ensures shown { (paths : List Path) → ShowsPaths words.now paths → AreInRange paths →
        AreApart paths → IsSet paths
        → result ≡ 4 * length paths }
{
    count_switch_fields(words)
}
