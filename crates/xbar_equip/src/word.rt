ghost use Rattle.std.specs.Prelude.{◌≡◌, ◌≤◌, ◌<◌, ◌+◌, ◌*◌, ◌↔◌, ℕ, IfSome, Some};
ghost use Rattle.xbar_equip.specs.Conn.{IsConn};
ghost use Rattle.xbar_equip.specs.Word.{Word, IsWord, word_count, word_number, protector, LineSwitch, LineJunctor, TrunkSwitch, TrunkJunctor, GroupWord, ConnWord, TurnWord};

use crate::conn::Conn;
use std::marker::Model;
use std::ops::Range;

/// The number of shared words of an office. Word number `n` is item `n` of the list of all words.
pub const WORD_COUNT: usize = 453;

/// The number of one of the office's shared words, below `WORD_COUNT`.
#[derive(Clone, Copy, Debug, PartialEq, Eq)]
pub struct WordNo {
    number: u16,
}

impl Model for WordNo {
    ghost use Rattle.std.specs.Prelude.{ℕ, ◌<◌};
    ghost use Rattle.xbar_equip.specs.Word.{word_count};

    ghost Value = { ℕ };

    ghost view = { λ a. a.number };

    ghost invariant = { λ a. a.number < word_count };

    ghost inverse = { λ number. record { number = number } };
}

impl WordNo {
    /// The word with this number, 0 to 452. The order is: line link frames, trunk link frames,
    /// groups, connectors, turn word.
    pub fn new(number: u16) -> Self
        requires { number < word_count }
        ensures { result ≡ number }
    {
        WordNo { number }
    }

    /// The word's index in the list of all words, 0 to 452.
    pub fn number(self) -> u16
        ensures value { result ≡ self }
        ensures range { self < word_count }
    {
        self.number
    }
}

/// A placeholder for the unused entries of a list of words.
impl Default for WordNo {
    fn default() -> Self
        ensures { result ≡ 0 }
    {
        WordNo::new(0)
    }
}

/// The word of a line switch: the switch between the lines of a horizontal group and their ten
/// line links. Field `n` is for line link `n`.
///
/// Line switches are words 0 to 199, the first ten of each twenty.
pub fn line_switch(frame: u8, switch: u8) -> WordNo
    requires frame { frame < 10 }
    requires switch { switch < 10 }
    ensures { result ≡ word_number (LineSwitch frame switch) }
{
    WordNo::new(20 * u16::from(frame) + u16::from(switch))
}

/// The word of a line junctor switch: the switch between the ten line links of a channel and the
/// junctors to the ten trunk link frames. Field `n` is for trunk link frame `n`.
///
/// Line junctor switches are words 0 to 199, the last ten of each twenty.
pub fn line_junctor(frame: u8, channel: u8) -> WordNo
    requires frame { frame < 10 }
    requires channel { channel < 10 }
    ensures { result ≡ word_number (LineJunctor frame channel) }
{
    WordNo::new(20 * u16::from(frame) + 10 + u16::from(channel))
}

/// The word of a trunk switch: the switch between ten trunk links and ten appearances of trunks
/// and registers. Field `n` is for trunk link `n`.
///
/// Trunk switches are words 200 to 399, the first ten of each twenty.
pub fn trunk_switch(frame: u8, switch: u8) -> WordNo
    requires frame { frame < 10 }
    requires switch { switch < 10 }
    ensures { result ≡ word_number (TrunkSwitch frame switch) }
{
    WordNo::new(200 + 20 * u16::from(frame) + u16::from(switch))
}

/// The word of a trunk junctor switch: the switch between the junctors from the ten line link
/// frames and the ten trunk links of a channel. Field `n` is for line link frame `n`.
///
/// Trunk junctor switches are words 200 to 399, the last ten of each twenty.
pub fn trunk_junctor(frame: u8, channel: u8) -> WordNo
    requires frame { frame < 10 }
    requires channel { channel < 10 }
    ensures { result ≡ word_number (TrunkJunctor frame channel) }
{
    WordNo::new(200 + 20 * u16::from(frame) + 10 + u16::from(channel))
}

/// The word with the busy bits of a trunk group, word 400 to 415. Bit `k` is 1 if member `k` is
/// busy.
pub fn group_word(group: u8) -> WordNo
    requires { group < 16 }
    ensures { result ≡ word_number (GroupWord group) }
{
    WordNo::new(400 + u16::from(group))
}

/// The number of a connector's own word, 416 to 451 for a connector that exists.
pub fn conn_number(conn: Conn) -> u16
    ensures { result ≡ word_number (ConnWord conn) }
{
    match conn {
        Conn::Llf(frame) => 416 + u16::from(frame),
        Conn::Tlf(frame) => 426 + u16::from(frame),
        Conn::Group(group) => 436 + u16::from(group),
    }
}

/// The own word of a connector, word 416 to 451: who holds the connector and who requests it.
pub fn conn_word(conn: Conn) -> WordNo
    requires { IsConn conn }
    ensures { result ≡ word_number (ConnWord conn) }
{
    WordNo::new(conn_number(conn))
}

/// The turn word, word 452, which counts turns.
pub fn turn_word() -> WordNo
    ensures { result ≡ word_number TurnWord }
{
    WordNo::new(452)
}

/// The connector that protects a word: a marker holds it whenever it reads or changes the word. No
/// connector protects the connectors' own words or the turn word.
pub fn protects(word: WordNo) -> Option<Conn>
    ensures exact { (named : Word) → IsWord named → word ≡ word_number named →
        result ≡ protector named }
    ensures range { IfSome result IsConn }
{
    let number = word.number();
    match number {
        0..=199 => Some(Conn::Llf((number / 20) as u8)),
        200..=399 => Some(Conn::Tlf(((number - 200) / 20) as u8)),
        400..=415 => Some(Conn::Group((number - 400) as u8)),
        _ => None,
    }
}

/// The words that a connector protects, which are consecutive: twenty of a frame, one of a group.
/// The range may be empty for a connector that doesn't exist.
pub fn words_under(conn: Conn) -> Range<usize>
    ensures there { result.end ≤ word_count }
    ensures exact { (named : Word) → IsWord named → IsConn conn → (protector named ≡ Some conn)
        ↔ ((result.start ≤ word_number named) × (word_number named < result.end)) }
{
    let (first, count) = match conn {
        Conn::Llf(frame) => (20 * usize::from(frame), 20),
        Conn::Tlf(frame) => (200 + 20 * usize::from(frame), 20),
        Conn::Group(group) => (400 + usize::from(group), 1),
    };
    if first + count <= WORD_COUNT {
        first..first + count
    } else {
        0..0
    }
}
