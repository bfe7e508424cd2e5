//! Traces of a path through the words, from its line or from its trunk place.

ghost use Rattle.std.specs.Prelude.{◌≡◌, List, IfSome, length, find};
ghost use Rattle.xbar_equip.specs.Len.{IsLine};
ghost use Rattle.xbar_equip.specs.Ten.{IsTrunkPlace};
ghost use Rattle.xbar_equip.specs.Path.{IsPath};
ghost use Rattle.xbar_equip.specs.Paths.{AreApart, has_line, has_place};
ghost use Rattle.xbar_equip.specs.declared.path.Path.{Path};
ghost use Rattle.xbar_equip.specs.Word.{word_count};
ghost use Rattle.xbar_match.specs.Shows.{AreInRange, ShowsPaths};
ghost use Rattle.xbar_match.specs.Traces.{traced, traced_back};

use crate::fields::{find_line, find_number, line_place_of, place_of};
use crate::words::word_at;
use xbar_equip::{Channel, Len, Path, Ten, line_junctor, line_switch, trunk_junctor, trunk_switch};

/// Follows the path of a line from its line switch, a switch at a time.
fn follow(words: &[u64], line: Len) -> Option<Path>
    requires { length words.now ≡ word_count }
    ensures path { result ≡ traced words.now line }
    ensures line { IsLine line }
    ensures range { IfSome result IsPath }
{
    let frame = line.frame();
    let channel = find_line(word_at(words, line_switch(frame, line.switch())), line.x())?;
    let trunk_frame = find_number(word_at(words, line_junctor(frame, channel)), line.switch())?;
    let switch = place_of(word_at(words, trunk_junctor(trunk_frame, channel)), frame)?;
    let appearance = place_of(word_at(words, trunk_switch(trunk_frame, switch)), channel)?;
    Some(Path {
        line,
        channel: Channel::new(channel),
        place: Ten::new(trunk_frame, switch, appearance),
    })
}

/// Follows the path of a trunk place back from its trunk switch, a switch at a time.
fn follow_back(words: &[u64], place: Ten) -> Option<Path>
    requires { length words.now ≡ word_count }
    ensures path { result ≡ traced_back words.now place }
    ensures place { IsTrunkPlace place }
    ensures range { IfSome result IsPath }
{
    let trunk_frame = place.frame();
    let trunk_word = word_at(words, trunk_switch(trunk_frame, place.switch()));
    let channel = find_number(trunk_word, place.appearance())?;
    let frame = find_number(
        word_at(words, trunk_junctor(trunk_frame, channel)),
        place.switch(),
    )?;
    let switch = place_of(word_at(words, line_junctor(frame, channel)), trunk_frame)?;
    let x = line_place_of(word_at(words, line_switch(frame, switch)), channel)?;
    Some(Path {
        line: Len::new(frame, switch, x),
        channel: Channel::new(channel),
        place,
    })
}

/// The path of a line, traced from its line switch. `None` if the words do not lead to a trunk
/// place.
pub fn trace(words: &[u64], line: Len) -> Option<Path>
    requires { length words.now ≡ word_count }
    ensures exact { result ≡ traced words.now line }
    ensures shown { (paths : List Path) → ShowsPaths words.now paths → AreInRange paths →
        AreApart paths
        → result ≡ find (has_line line) paths }
    ensures range { IfSome result IsPath }
{
    follow(words, line)
}

/// The path of a trunk place, traced back from its trunk switch. `None` if the words do not lead
/// to a line.
pub fn trace_back(words: &[u64], place: Ten) -> Option<Path>
    requires { length words.now ≡ word_count }
    ensures exact { result ≡ traced_back words.now place }
    ensures shown { (paths : List Path) → ShowsPaths words.now paths → AreInRange paths →
        AreApart paths
        → result ≡ find (has_place place) paths }
    ensures range { IfSome result IsPath }
{
    follow_back(words, place)
}
