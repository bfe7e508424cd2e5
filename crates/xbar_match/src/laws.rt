//! Laws of words that show a set of paths, for use by other crates. Each function does nothing;
//! its contract is the law.

ghost use Rattle.std.specs.Prelude.{◌≡◌, ◌≢◌, ◌<◌, ◌≤◌, ◌==◌, ◌*◌, ℕ, true, List, length, slice_index};
ghost use Rattle.xbar_equip.specs.Among.{IsIn};
ghost use Rattle.xbar_equip.specs.Len.{Line, IsLine};
ghost use Rattle.xbar_equip.specs.Ten.{TrunkPlace, IsTrunkPlace};
ghost use Rattle.xbar_equip.specs.Path.{IsPath, line_link, junctor, trunk_link};
ghost use Rattle.xbar_equip.specs.Word.{LineSwitch, LineJunctor, TrunkSwitch, TrunkJunctor, word_number};
ghost use Rattle.xbar_equip.specs.Crosspoint.{crosspoints};
ghost use Rattle.xbar_equip.specs.Paths.{IsSet, AreApart, is_idle, has_link, has_idle_links, with_path, without_path};
ghost use Rattle.xbar_equip.specs.declared.path.Path.{Path};
ghost use Rattle.xbar_equip.specs.declared.crosspoint.Crosspoint.{Crosspoint};
ghost use Rattle.xbar_match.specs.Switches.{shape_at, held_at, word_of};
ghost use Rattle.xbar_match.specs.Shows.{AreInRange, IsClosedIn, WordShows, ShowsPaths};
ghost use Rattle.xbar_match.specs.Effects.{IsCrosspoint, close_at, open_at, close_path, open_path, close_path_in, open_path_in, EachCloses, EachOpens};
ghost use Rattle.xbar_match.specs.Channels.{match_words, ShowsLinks};
ghost use Rattle.xbar_match.specs.Counts.{closed_line_fields, closed_switch_fields};

use xbar_switch::Shape;

/// The shape of each kind of switch.
pub fn line_switches_have_the_shape_of_lines()
    ensures line_switch { (frame switch : ℕ) → frame < 10 → switch < 10 →
        shape_at (word_number (LineSwitch frame switch)) ≡ Shape.Line }
    ensures line_junctor { (frame channel : ℕ) → frame < 10 → channel < 10 →
        shape_at (word_number (LineJunctor frame channel)) ≡ Shape.Other }
    ensures trunk_switch { (frame switch : ℕ) →
        shape_at (word_number (TrunkSwitch frame switch)) ≡ Shape.Other }
    ensures trunk_junctor { (frame channel : ℕ) →
        shape_at (word_number (TrunkJunctor frame channel)) ≡ Shape.Other }
{}

/// Each crosspoint of a path is at a field of a switch, with a value that the field can hold.
pub fn a_path_has_crosspoints_of_the_office()
    ensures { (path : Path) (c : Crosspoint) → IsPath path → IsIn c (crosspoints path) →
        IsCrosspoint c }
{}

/// On words that show paths, the field of a link is 0 exactly if the link is idle. A junctor has a
/// field on either side.
pub fn open_fields_are_idle_links()
    ensures line_link { (words : List ℕ) (paths : List Path) (path : Path) →
        ShowsPaths words paths → AreInRange paths → IsPath path
        → is_idle (has_link (line_link path)) paths
        ≡ (held_at words (word_number (LineSwitch path.line.frame path.line.switch)) path.channel
        == 0) }
    ensures junctor { (words : List ℕ) (paths : List Path) (path : Path) → ShowsPaths words paths →
        AreInRange paths → IsPath path
        → is_idle (has_link (junctor path)) paths
        ≡ (held_at words (word_number (LineJunctor path.line.frame path.channel)) path.place.frame
        == 0) }
    ensures junctor_back { (words : List ℕ) (paths : List Path) (path : Path) →
        ShowsPaths words paths → AreInRange paths → IsPath path
        → is_idle (has_link (junctor path)) paths
        ≡ (held_at words (word_number (TrunkJunctor path.place.frame path.channel)) path.line.frame
        == 0) }
    ensures trunk_link { (words : List ℕ) (paths : List Path) (path : Path) →
        ShowsPaths words paths → AreInRange paths → IsPath path
        → is_idle (has_link (trunk_link path)) paths
        ≡ (held_at words (word_number (TrunkSwitch path.place.frame path.place.switch))
        path.channel == 0) }
{}

/// The words that a channel test reads show the links that it tests.
pub fn a_channel_test_reads_the_links()
    ensures { (words junctors : List ℕ) (paths : List Path) (line : Line) (place : TrunkPlace) →
        ShowsPaths words paths → AreInRange paths → IsLine line → IsTrunkPlace place
        → ((n : ℕ) → n < 10 → slice_index junctors n ≡ word_of words (LineJunctor line.frame n))
        → ShowsLinks
        (match_words (word_of words (LineSwitch line.frame line.switch)) junctors
        (word_of words (TrunkSwitch place.frame place.switch))) paths line place }
{}

/// Closing or opening a crosspoint changes only its field.
pub fn an_effect_changes_one_field()
    ensures closes { (words : List ℕ) (c : Crosspoint) → 400 ≤ length words → IsCrosspoint c →
        held_at words c.word c.field ≡ 0
        → held_at (close_at words c) c.word c.field ≡ c.value }
    ensures opens { (words : List ℕ) (c : Crosspoint) → 400 ≤ length words → IsCrosspoint c
        → held_at (open_at words c) c.word c.field ≡ 0 }
    ensures closing_keeps { (words : List ℕ) (c : Crosspoint) (n v : ℕ) → 400 ≤ length words →
        IsCrosspoint c
        → (n ≡ c.word → v ≢ c.field) → held_at (close_at words c) n v ≡ held_at words n v }
    ensures opening_keeps { (words : List ℕ) (c : Crosspoint) (n v : ℕ) → 400 ≤ length words →
        IsCrosspoint c → v < 10
        → (n ≡ c.word → v ≢ c.field) → held_at (open_at words c) n v ≡ held_at words n v }
{}

/// Closing the crosspoints of a path whose links are idle: each is at an open field when it is
/// closed, and the words then show the set with the path.
pub fn closing_a_path_adds_it()
    ensures steps { (words : List ℕ) (paths : List Path) (path : Path) → 400 ≤ length words →
        ShowsPaths words paths → AreInRange paths → IsPath path
        → has_idle_links paths path ≡ true → EachCloses words (crosspoints path) }
    ensures set { (words : List ℕ) (paths : List Path) (path : Path) → 400 ≤ length words →
        ShowsPaths words paths → AreInRange paths → IsPath path
        → has_idle_links paths path ≡ true
        → ShowsPaths (close_path words path) (with_path paths path) }
{}

/// Opening the crosspoints of one of the paths: each is closed when it is opened, and the words
/// then show the set without the path.
pub fn opening_a_path_removes_it()
    ensures steps { (words : List ℕ) (paths : List Path) (path : Path) → 400 ≤ length words →
        ShowsPaths words paths → AreInRange paths
        → IsIn path paths → EachOpens words (crosspoints path) }
    ensures set { (words : List ℕ) (paths : List Path) (path : Path) → 400 ≤ length words →
        ShowsPaths words paths → AreInRange paths → AreApart paths → IsSet paths
        → IsIn path paths → ShowsPaths (open_path words path) (without_path paths path) }
{}

/// The same for one word alone: it shows the set with or without the path once those of the four
/// crosspoints that are in this word are closed or opened.
pub fn each_word_shows_the_change()
    ensures closing { (paths : List Path) (path : Path) (n word : ℕ) → AreInRange paths →
        IsPath path → has_idle_links paths path ≡ true
        → WordShows (IsClosedIn paths) n word
        → WordShows (IsClosedIn (with_path paths path)) n (close_path_in n word path) }
    ensures opening { (paths : List Path) (path : Path) (n word : ℕ) → AreInRange paths →
        AreApart paths → IsSet paths → IsIn path paths
        → WordShows (IsClosedIn paths) n word
        → WordShows (IsClosedIn (without_path paths path)) n (open_path_in n word path) }
{}

/// On words that show a set, the line switches have one closed field for each path, and all
/// switches together have four.
pub fn closed_fields_count_the_paths()
    ensures line_switches { (words : List ℕ) (paths : List Path) → 400 ≤ length words →
        ShowsPaths words paths → AreInRange paths → AreApart paths → IsSet paths
        → closed_line_fields words ≡ length paths }
    ensures switches { (words : List ℕ) (paths : List Path) → 400 ≤ length words →
        ShowsPaths words paths → AreInRange paths → AreApart paths → IsSet paths
        → closed_switch_fields words ≡ 4 * length paths }
{}

/// Closing or opening a path on all words is closing or opening it on each word.
pub fn effects_go_word_by_word()
    ensures closing { (words : List ℕ) (path : Path) (n : ℕ) → n < length words →
        slice_index (close_path words path) n ≡ close_path_in n (slice_index words n) path }
    ensures opening { (words : List ℕ) (path : Path) (n : ℕ) → n < length words →
        slice_index (open_path words path) n ≡ open_path_in n (slice_index words n) path }
{}
