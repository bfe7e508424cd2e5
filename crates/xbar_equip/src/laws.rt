//! Laws of the definitions in `specs/`, for use by other crates. Each function does nothing; its
//! contract is the law.

ghost use Rattle.std.specs.Prelude.{◌≡◌, ◌≢◌, ◌<◌, ◌↔◌, ◌⊎◌, ℕ, Bool, IsTrue, true, false, List};
ghost use Rattle.std.specs.List.{list_all};
ghost use Rattle.xbar_equip.specs.Among.{IsIn};
ghost use Rattle.xbar_equip.specs.Channel.{IsChannel};
ghost use Rattle.xbar_equip.specs.Conn.{conn_eq};
ghost use Rattle.xbar_equip.specs.Word.{Word, IsWord, word_count, word_number};
ghost use Rattle.xbar_equip.specs.First.{first_below, next_below, IsFirstBelow, IsNextBelow};
ghost use Rattle.xbar_equip.specs.Len.{Line, IsLine, is_line, line_eq};
ghost use Rattle.xbar_equip.specs.Ten.{TrunkPlace, IsTrunkPlace, is_trunk_place, place_eq};
ghost use Rattle.xbar_equip.specs.Link.{Link as TheLink, IsLink, is_link, kind_eq, link_eq};
ghost use Rattle.xbar_equip.specs.Path.{IsPath, SharesPart, line_link, junctor, trunk_link};
ghost use Rattle.xbar_equip.specs.Crosspoint.{crosspoints};
ghost use Rattle.xbar_equip.specs.Paths.{IsSet, with_path, without_path, is_idle, has_line, has_place, has_link, channel_test, IsFirstIdleChannel};
ghost use Rattle.xbar_equip.specs.declared.crosspoint.Crosspoint.{Crosspoint};

use crate::channel::Channel;
use crate::conn::Conn;
use crate::len::Len;
use crate::link::{Link, LinkKind};
use crate::path::Path;
use crate::ten::Ten;

/// Distinct words have distinct numbers.
pub fn word_numbers_are_distinct()
    ensures { (v w : Word) → IsWord v → IsWord w → word_number v ≡ word_number w → v ≡ w }
{}

/// Each number below `word_count` is the number of a word.
pub fn each_number_has_a_word()
    ensures { (n : ℕ) → n < word_count → (w : Word) × IsWord w × (word_number w ≡ n) }
{}

/// `first_below` finds the first number below the count that passes the test.
pub fn first_below_is_the_first()
    ensures { (test : ℕ → Bool) (count : ℕ) → IsFirstBelow test count (first_below test count) }
{}

/// `next_below` finds the first number after `k` and below the count that passes the test, or `k`
/// if none does.
pub fn next_below_is_the_next()
    ensures { (test : ℕ → Bool) (count k : ℕ) → IsNextBelow test count k (next_below test count k) }
{}

/// The equality tests of lines, trunk places, links, link kinds and connectors are exact.
pub fn equality_tests_are_equality()
    ensures line { (a b : Line) → (line_eq a b ≡ true) ↔ (a ≡ b) }
    ensures place { (a b : TrunkPlace) → (place_eq a b ≡ true) ↔ (a ≡ b) }
    ensures link { (a b : TheLink) → (link_eq a b ≡ true) ↔ (a ≡ b) }
    ensures kind { (a b : LinkKind) → (kind_eq a b ≡ true) ↔ (a ≡ b) }
    ensures conn { (a b : Conn) → (conn_eq a b ≡ true) ↔ (a ≡ b) }
{}

/// A line, a place or a link is idle exactly if no path of the set has it.
pub fn idle_is_in_no_path()
    ensures idle { (has : Path → Bool) (paths : List Path) → (is_idle has paths ≡ true) ↔
        ((path : Path) → IsIn path paths → has path ≡ false) }
    ensures line { (line : Line) (path : Path) → (has_line line path ≡ true) ↔ (path.line ≡ line) }
    ensures place { (place : TrunkPlace) (path : Path) → (has_place place path ≡ true) ↔
        (path.place ≡ place) }
    ensures link { (link : TheLink) (path : Path) → (has_link link path ≡ true) ↔
        ((line_link path ≡ link) ⊎ (junctor path ≡ link) ⊎ (trunk_link path ≡ link)) }
{}

/// The channel test finds the first channel in its order whose three links are idle.
pub fn channel_test_finds_the_first_idle_channel()
    ensures { (paths : List Path) (line : Line) (place : TrunkPlace) (start : ℕ) →
        IsFirstIdleChannel paths line place start (channel_test paths line place start) }
{}

/// Two paths with crosspoints at the same field of the same word share a part.
pub fn paths_that_meet_share_a_part()
    ensures { (p q : Path) (c d : Crosspoint) → IsPath p → IsPath q → IsIn c (crosspoints p) →
        IsIn d (crosspoints q) → c.word ≡ d.word → c.field ≡ d.field → SharesPart p q }
{}

/// Adding a path to a set gives a set of that path and all the paths that were there.
pub fn with_path_adds_the_path()
    ensures set { (paths : List Path) (path : Path) → IsSet paths → IsSet (with_path paths path) }
    ensures paths { (paths : List Path) (path other : Path) → IsIn other (with_path paths path) ↔
        ((other ≡ path) ⊎ IsIn other paths) }
{}

/// Removing a path from a set gives a set of all the other paths.
pub fn without_path_removes_the_path()
    ensures set { (paths : List Path) (path : Path) → IsSet paths →
        IsSet (without_path paths path) }
    ensures paths { (paths : List Path) (path other : Path) → IsSet paths →
        IsIn other (without_path paths path) ↔ (IsIn other paths × (other ≢ path)) }
{}

/// Two sets with the same paths are the same list.
pub fn sets_with_the_same_paths_are_one()
    ensures { (a b : List Path) → IsSet a → IsSet b → ((path : Path) → IsIn path a ↔ IsIn path b) →
        a ≡ b }
{}

/// The numbers of a line are in range.
pub fn line_is_in_range(line: Len)
    ensures { IsLine line }
{}

/// The numbers of a trunk place are in range.
pub fn place_is_in_range(place: Ten)
    ensures { IsTrunkPlace place }
{}

/// The numbers of a link are in range.
pub fn link_is_in_range(link: Link)
    ensures { IsLink link }
{}

/// The number of a channel is in range.
pub fn channel_is_in_range(channel: Channel)
    ensures { IsChannel channel }
{}

/// The numbers of a path's line, channel and place are in range.
pub fn path_is_in_range(path: &Path)
    ensures { IsPath path.now }
{
    line_is_in_range(path.line);
    channel_is_in_range(path.channel);
    place_is_in_range(path.place);
}

/// The numbers of each line of a list are in range.
#[tactic(auto, using(crate::proofs::Lists::all_more, crate::proofs::Ranges::line_passes))]
pub fn lines_are_in_range(lines: &[Len])
    ensures each { (line : Line) → IsIn line lines.now → IsLine line }
    ensures all { IsTrue (list_all is_line lines.now) }
{
    for line in lines {
        line_is_in_range(*line);
    }
}

/// The numbers of each trunk place of a list are in range.
#[tactic(auto, using(crate::proofs::Lists::all_more, crate::proofs::Ranges::place_passes))]
pub fn places_are_in_range(places: &[Ten])
    ensures each { (place : TrunkPlace) → IsIn place places.now → IsTrunkPlace place }
    ensures all { IsTrue (list_all is_trunk_place places.now) }
{
    for place in places {
        place_is_in_range(*place);
    }
}

/// The numbers of each link of a list are in range.
#[tactic(auto, using(crate::proofs::Lists::all_more, crate::proofs::Ranges::link_passes))]
pub fn links_are_in_range(links: &[Link])
    ensures each { (link : TheLink) → IsIn link links.now → IsLink link }
    ensures all { IsTrue (list_all is_link links.now) }
{
    for link in links {
        link_is_in_range(*link);
    }
}

/// The numbers of each path of a list are in range.
#[tactic(auto, using(crate::proofs::Lists::all_more, crate::proofs::Ranges::path_passes))]
pub fn paths_are_in_range(paths: &[Path])
    ensures { (path : Path) → IsIn path paths.now → IsPath path }
{
    for path in paths {
        path_is_in_range(path);
    }
}
