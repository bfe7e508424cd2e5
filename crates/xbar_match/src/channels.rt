//! The channel test, and the idle links of a switch, from its word.

ghost use Rattle.std.specs.Prelude.{◌≡◌, ◌<◌, ℕ, List, IfSome};
ghost use Rattle.xbar_equip.specs.Len.{Line};
ghost use Rattle.xbar_equip.specs.Ten.{TrunkPlace};
ghost use Rattle.xbar_equip.specs.Channel.{IsChannel};
ghost use Rattle.xbar_equip.specs.Paths.{channel_test};
ghost use Rattle.xbar_equip.specs.declared.path.Path.{Path};
ghost use Rattle.xbar_match.specs.Channels.{match_words, is_open_channel, first_open_channel, ShowsLinks, MarksOpenFields};

use xbar_equip::Channel;
use xbar_switch::{Shape, field};

/// The open fields of a word: bit `n` is set if field `n` is open.
fn open_fields(shape: Shape, word: u64) -> u16
    ensures { MarksOpenFields shape word result }
{
    let mut open = 0;
    for n in 0..10 {
        if field(shape, word, n) == 0 {
            open |= 1 << n;
        }
    }
    open
}

/// The idle line links of a line switch: bit `n` is set if the line link of channel `n` is idle.
pub fn idle_links(word: u64) -> u16
    ensures { MarksOpenFields Shape.Line word result }
{
    open_fields(Shape::Line, word)
}

/// The idle trunk links of a trunk switch: bit `n` is set if the trunk link of channel `n` is
/// idle.
pub fn idle_trunk_links(word: u64) -> u16
    ensures { MarksOpenFields Shape.Other word result }
{
    open_fields(Shape::Other, word)
}

/// Whether the three fields of channel `n` are open, for a place on trunk link frame `t`.
fn is_open(line_word: u64, junctor_words: &[u64; 10], trunk_word: u64, t: u8, n: u8) -> bool
    requires frame { t < 10 }
    requires channel { n < 10 }
    ensures { result ≡ is_open_channel (match_words line_word junctor_words.now trunk_word) t n }
{
    field(Shape::Line, line_word, n) == 0
        && field(Shape::Other, junctor_words[usize::from(n)], t) == 0
        && field(Shape::Other, trunk_word, n) == 0
}

/// The channel test on words: the first channel whose three fields are open, from `start` on, with
/// 0 after 9.
///
/// The words are those of the line's switch, of the ten line junctor switches of its frame, and of
/// the place's switch, which is on trunk link frame `t`.
pub fn match_channel(
    line_word: u64,
    junctor_words: &[u64; 10],
    trunk_word: u64,
    t: u8,
    start: u8,
) -> Option<Channel>
    requires frame { t < 10 }
    requires start { start < 10 }
    ensures fields { result ≡ first_open_channel
        (match_words line_word junctor_words.now trunk_word) t start }
    ensures links { (paths : List Path) (line : Line) (place : TrunkPlace) → place.frame ≡ t
        → ShowsLinks (match_words line_word junctor_words.now trunk_word) paths line place
        → result ≡ channel_test paths line place start }
    ensures range { IfSome result IsChannel }
{
    for k in 0..10 {
        let n = (start + k) % 10;
        if is_open(line_word, junctor_words, trunk_word, t, n) {
            return Some(Channel::new(n));
        }
    }
    None
}
