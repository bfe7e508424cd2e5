//! From which turn until which turn each path stands.

ghost use Rattle.std.specs.Prelude.{◌≡◌, ◌++◌, ◌+◌, ◌<◌, [], IfOk, List, OnOk, filter, length, map, not};
ghost use Rattle.xbar_page.specs.Stays.{has_path, is_same as is_same_as, stay_from as stay_from_turn, stays as stays_of, stays_from, until as until_of};

use std::alloc::{AllocError, Global};
use std::marker::Model;
use xbar_equip::Path;

/// A set of paths.
#[derive(Debug, Drop)]
pub struct PathSet {
    paths: Vec<Path>,
}

impl Model for PathSet {
    ghost use Rattle.std.specs.Prelude.{List};
    ghost use Rattle.xbar_equip.specs.declared.path.Path.{Path as ThePath};

    ghost Value = { List ThePath };

    ghost view = { λ a. a.paths.items };
}

impl PathSet {
    /// The set of these paths.
    pub fn of(alloc: Global, paths: &[Path]) -> Result<Self, AllocError>
        ensures { IfOk result (λ set. set ≡ paths.now) }
    {
        let mut copy = Vec::new(alloc);
        copy.extend_from_slice(paths)?;
        Ok(PathSet { paths: copy })
    }

    /// Its paths.
    fn as_slice(&self) -> &[Path]
        ensures { result.now ≡ self.now }
    {
        self.paths.as_slice()
    }
}

/// The stay of a path: the turn that sets it up, and the turn that takes it out, if one does. A
/// turn is counted as the index of its record.
#[derive(Clone, Copy, Debug, PartialEq, Eq)]
pub struct Stay {
    pub path: Path,
    pub from: usize,
    pub until: Option<usize>,
}

/// Whether two paths are the same.
fn is_same(path: &Path, other: &Path) -> bool
    ensures { result ≡ is_same_as path.now other.now }
{
    path.line == other.line && path.channel == other.channel && path.place == other.place
}

/// Whether a set has a path.
fn has(path: &Path, set: &[Path]) -> bool
    ensures { result ≡ has_path path.now set.now }
{
    set.iter().any(|other| is_same(path, other))
}

/// The first turn after which a path is gone, if there is one. The first set is the one after this
/// turn.
#[tactic(auto, unfolding(crate::specs::Stays::until))]
fn until(turn: usize, path: &Path, later: &[PathSet]) -> Option<usize>
    requires { turn + length later.now < 18446744073709551616 }
    ensures { result ≡ until_of turn path.now later.now }
{
    for (place, set) in later.iter().enumerate() {
        if !has(path, set.as_slice()) {
            return Some(turn + place);
        }
    }
    None
}

/// Adds the stays of the paths that a turn brings, by the sets before it, after it, and after the
/// later turns.
fn add_stays_from(
    stays: &mut Vec<Stay>,
    turn: usize,
    before: &[Path],
    now: &[Path],
    later: &[PathSet],
) -> Result<(), AllocError>
    requires { turn + 1 + length later.now < 18446744073709551616 }
    ensures { OnOk result (stays.new.items ≡ stays.old.items ++
        map (stay_from_turn turn later.now)
        (filter (λ path. not (has_path path before.now)) now.now)) }
{
    for path in now {
        if !has(path, before) {
            stays.push(Stay {
                path: *path,
                from: turn,
                until: until(turn + 1, path, later),
            })?;
        }
    }
    Ok(())
}

/// The stays of all paths, by the sets after all turns.
#[tactic(auto, unfolding(crate::specs::Stays::stays_from))]
pub fn stays(alloc: Global, sets: &[PathSet]) -> Result<Vec<Stay>, AllocError>
    ensures { IfOk result (λ stays. stays.items ≡ stays_of sets.now) }
{
    let mut stays = Vec::new(alloc);
    let mut before: &[Path] = &[];
    for (turn, set) in sets.iter().enumerate() {
        let now = set.as_slice();
        add_stays_from(&mut stays, turn, before, now, &sets[turn + 1..])?;
        before = now;
    }
    Ok(stays)
}
