ghost use Rattle.std.specs.Prelude.{◌≡◌, ◌==◌, ◌-◌, ◌%◌, ◌^◌, ◌<◌, [], ◌∷◌, ◌++◌, IfSome, None, drop, length, option_and_then, option_map, slice_get, take};
ghost use Rattle.std.specs.List.{position};
ghost use Rattle.turns.specs.Script.{value_read};
ghost use Rattle.turns.specs.Seen.{AreReadWords};
ghost use Rattle.attempts.specs.Marks.{has_mark as has_mark_of};
ghost use Rattle.attempts.specs.Points.{HaveOneValue};

use arrayvec::ArrayVec;
use std::marker::Model;
use turns::Reading;

/// The read set of an attempt, in the order of reading. No word is read twice.
#[derive(Debug, Drop)]
pub struct Readings<const MOST: usize> {
    items: ArrayVec<Reading<usize>, MOST>,
    /// A filter: bit `word % 64` is set for each word that was read. Most words that weren't read
    /// have a bit that is 0, and need no search.
    marks: u64,
}

impl<const MOST: usize> Model for Readings<MOST> {
    ghost use Rattle.std.specs.Prelude.{ℕ, List};
    ghost use Rattle.turns.specs.Seen.{AreReadWords};
    ghost use Rattle.turns.specs.declared.reading.Reading.{Reading};
    ghost use Rattle.attempts.specs.Marks.{AreMarked};
    ghost use Rattle.attempts.specs.Points.{HaveOneValue};

    ghost Value = { List (Reading ℕ) };

    ghost view = { λ a. a.items.items };

    ghost invariant = { λ a. HaveOneValue a.items.items × AreReadWords a.items.items
        × AreMarked a.items.items a.marks };
}

fn mark_of(word: usize) -> u64
    ensures { result ≡ 2 ^ (word % 64) }
{
    1 << (word % 64)
}

fn has_mark(marks: u64, word: usize) -> bool
    ensures { result ≡ has_mark_of marks word }
{
    (marks >> (word % 64)) % 2 == 1
}

/// The index of the first reading of the word.
fn place_in(readings: &[Reading<usize>], word: usize) -> Option<usize>
    ensures place { result ≡ position (λ reading. reading.word == word) readings.now }
    ensures bound { IfSome result (λ place. place < length readings.now) }
{
    readings.iter().position(|reading| reading.word == word)
}

fn value_at(readings: &[Reading<usize>], place: usize) -> Option<u64>
    ensures { result ≡ option_map (λ reading. reading.value) (slice_get readings.now place) }
{
    readings.get(place).map(|reading| reading.value)
}

impl<const MOST: usize> Readings<MOST> {
    #[tactic(auto, using(crate::proofs::Marked::marked_none))]
    pub fn new() -> Self
        ensures { result ≡ [] }
    {
        Readings {
            items: ArrayVec::new(),
            marks: 0,
        }
    }

    #[tactic(auto, using(crate::proofs::Marked::marked_none))]
    pub fn clear(&mut self)
        ensures { self.new ≡ [] }
    {
        self.items.clear();
        self.marks = 0;
    }

    pub fn push(&mut self, word: usize, value: u64)
        requires room { length self.old < MOST }
        requires unread { value_read self.old word ≡ None }
        ensures { self.new ≡ self.old ++ record { word = word; value = value } ∷ [] }
    {
        self.items.push(Reading { word, value });
        self.marks |= mark_of(word);
    }

    /// The index of the word's reading, if it was read.
    fn place_of(&self, word: usize) -> Option<usize>
        ensures place { value_read self.now word
            ≡ option_and_then (λ place.
            option_map (λ reading. reading.value) (slice_get self.now place)) result }
        ensures bound { IfSome result (λ place. place < length self.now) }
    {
        if has_mark(self.marks, word) {
            place_in(self.items.as_slice(), word)
        } else {
            None
        }
    }

    /// The value read in the word, if it was read.
    pub fn find(&self, word: usize) -> Option<u64>
        ensures { result ≡ value_read self.now word }
    {
        let found = self.place_of(word)?;
        value_at(self.items.as_slice(), found)
    }

    /// Like `find`. If the word was read, also sets `place` to the index after its reading.
    pub fn find_on(&self, word: usize, place: &mut usize) -> Option<u64>
        ensures { result ≡ value_read self.now word }
    {
        let items = self.items.as_slice();
        let found = self.place_of(word)?;
        *place = found + 1;
        value_at(items, found)
    }

    /// Keeps the first `kept` readings. The marks of the others stay, which is harmless.
    pub fn keep(&mut self, kept: usize)
        ensures { self.new ≡ take kept self.old }
    {
        self.items.truncate(kept);
    }

    /// How many more readings there is room for.
    pub fn room(&self) -> usize
        ensures { result ≡ MOST - length self.now }
    {
        self.items.remaining_capacity()
    }

    pub fn as_slice(&self) -> &[Reading<usize>]
        ensures value { result.now ≡ self.now }
        ensures once { HaveOneValue self.now }
        ensures words { AreReadWords self.now }
    {
        self.items.as_slice()
    }
}
