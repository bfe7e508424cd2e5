ghost use Rattle.std.specs.Prelude.{◌≡◌, Some};
ghost use Rattle.xbar_step_text.specs.Places.{kind_name, place_name, place_numbers, place_of};

use std::fmt;
use xbar_equip::WordNo;

/// What a word belongs to: a switch, by its frame and its number on the frame, or a group.
#[derive(Clone, Copy)]
pub enum Place {
    LineSwitch(u8, u8),
    LineJunctor(u8, u8),
    TrunkSwitch(u8, u8),
    TrunkJunctor(u8, u8),
    Group(u8),
    /// Any other word, by its number. No marker tests, closes or opens anything in it.
    Other(u16),
}

impl Place {
    /// The place that the word belongs to.
    #[tactic(auto, unfolding(crate::specs::Places::place_of))]
    pub fn of(word: WordNo) -> Self
        ensures { result ≡ place_of word }
    {
        let number = word.number();
        if number < 200 {
            let frame = (number / 20) as u8;
            let at = (number % 20) as u8;
            if at < 10 {
                Place::LineSwitch(frame, at)
            } else {
                Place::LineJunctor(frame, at - 10)
            }
        } else if number < 400 {
            let frame = ((number - 200) / 20) as u8;
            let at = ((number - 200) % 20) as u8;
            if at < 10 {
                Place::TrunkSwitch(frame, at)
            } else {
                Place::TrunkJunctor(frame, at - 10)
            }
        } else if number < 416 {
            Place::Group((number - 400) as u8)
        } else {
            Place::Other(number)
        }
    }

    /// The name of the kind of place.
    pub fn kind_name(self) -> &'static str
        ensures { result.now ≡ kind_name self }
    {
        match self {
            Place::LineSwitch(_, _) => "line switch",
            Place::LineJunctor(_, _) => "line junctor switch",
            Place::TrunkSwitch(_, _) => "trunk switch",
            Place::TrunkJunctor(_, _) => "trunk junctor switch",
            Place::Group(_) => "group",
            Place::Other(_) => "word",
        }
    }
}

impl fmt::Display for Place {
    ghost output = { λ place. Some (place_name place) };

    #[tactic(auto, unfolding(crate::specs::Places::place_name))]
    fn fmt<W: fmt::Write>(&self, f: &mut fmt::Formatter<W>) -> fmt::Result {
        write!(f, "{} {}", self.kind_name(), PlaceNumbers(*self))
    }
}

/// A place, written by its numbers alone.
#[derive(Clone, Copy)]
pub struct PlaceNumbers(pub Place);

impl fmt::Display for PlaceNumbers {
    ghost output = { λ numbers. Some (place_numbers numbers.0) };

    #[tactic(auto, unfolding(crate::specs::Places::place_numbers))]
    fn fmt<W: fmt::Write>(&self, f: &mut fmt::Formatter<W>) -> fmt::Result {
        match self.0 {
            Place::LineSwitch(frame, switch)
            | Place::LineJunctor(frame, switch)
            | Place::TrunkSwitch(frame, switch)
            | Place::TrunkJunctor(frame, switch) => write!(f, "{frame},{switch}"),
            Place::Group(group) => write!(f, "{group}"),
            Place::Other(word) => write!(f, "{word}"),
        }
    }
}
