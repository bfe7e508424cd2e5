//! A law of places. The function does nothing: its contract is the law.

ghost use Rattle.std.specs.Prelude.{◌≡◌, ◌<◌, ℕ};
ghost use Rattle.xbar_equip.specs.Word as words;
ghost use Rattle.xbar_equip.specs.Word.{word_number};
ghost use Rattle.xbar_step_text.specs.Places.{place_of};
ghost use Rattle.xbar_step_text.specs.declared.place.Place.{Place};

/// The word of each switch and of each group has that switch or group as its place.
pub fn words_have_their_places()
    ensures line_switch { (frame switch : ℕ) → frame < 10 → switch < 10 →
        place_of (word_number (words.LineSwitch frame switch)) ≡ Place.LineSwitch frame switch }
    ensures line_junctor { (frame channel : ℕ) → frame < 10 → channel < 10 →
        place_of (word_number (words.LineJunctor frame channel)) ≡ Place.LineJunctor frame channel }
    ensures trunk_switch { (frame switch : ℕ) → frame < 10 → switch < 10 →
        place_of (word_number (words.TrunkSwitch frame switch)) ≡ Place.TrunkSwitch frame switch }
    ensures trunk_junctor { (frame channel : ℕ) → frame < 10 → channel < 10 →
        place_of (word_number (words.TrunkJunctor frame channel))
        ≡ Place.TrunkJunctor frame channel }
    ensures group { (group : ℕ) → group < 16 →
        place_of (word_number (words.GroupWord group)) ≡ Place.Group group }
{}
