//! Sets of paths, as slices in the order of paths.

ghost use Rattle.std.specs.Prelude.{◌≡◌, ◌<◌, ◌≤◌, ◌+◌, length, vec_len, vec_capacity, option_map, MatchOption, OnOk, OnErr, insert as insert_at, remove as remove_at};
ghost use Rattle.xbar_equip.specs.Paths.{has_line, has_place, has_link as has_the_link, is_idle, has_idle_links as has_idle_links_in, channel_test, with_path, without_path};
ghost use Rattle.xbar_equip.specs.Path.{path_by};
ghost use Rattle.xbar_office.specs.Chosen.{with_chosen};
ghost use Rattle.xbar_office.specs.Done.{with_call_paths, with_added};
ghost use Rattle.xbar_office.specs.AddedPaths.{call_count, added_count};

use crate::trial::CallPaths;
use std::alloc::AllocError;
use std::cmp::Ordering;
use xbar_equip::{Channel, Len, Link, Path, Ten};

/// Whether no path of the set has the line.
pub fn is_line_idle(paths: &[Path], line: Len) -> bool
    ensures { result ≡ is_idle (has_line line) paths.now }
{
    for path in paths {
        if path.line == line {
            return false;
        }
    }
    true
}

/// Whether no path of the set has the trunk place.
pub fn is_place_idle(paths: &[Path], place: Ten) -> bool
    ensures { result ≡ is_idle (has_place place) paths.now }
{
    for path in paths {
        if path.place == place {
            return false;
        }
    }
    true
}

/// Whether the link is one of the path's three.
fn has_link(path: &Path, link: Link) -> bool
    ensures { result ≡ has_the_link link path.now }
{
    path.line_link() == link || path.junctor() == link || path.trunk_link() == link
}

/// Whether no path of the set has the link.
pub fn is_link_idle(paths: &[Path], link: Link) -> bool
    ensures { result ≡ is_idle (has_the_link link) paths.now }
{
    for path in paths {
        if has_link(path, link) {
            return false;
        }
    }
    true
}

/// Whether no path of the set has the link, nor the path that was chosen, if there is one.
fn is_link_idle_beside(paths: &[Path], chosen: &Option<Path>, link: Link) -> bool
    ensures { result ≡ is_idle (has_the_link link) (with_chosen paths.now chosen.now) }
{
    match chosen {
        None => is_link_idle(paths, link),
        Some(path) => is_link_idle(paths, link) && !has_link(path, link),
    }
}

/// Whether the three links of a path are idle in the set with the chosen path.
fn has_idle_links(paths: &[Path], chosen: &Option<Path>, path: &Path) -> bool
    ensures { result ≡ has_idle_links_in (with_chosen paths.now chosen.now) path.now }
{
    is_link_idle_beside(paths, chosen, path.line_link())
        && is_link_idle_beside(paths, chosen, path.junctor())
        && is_link_idle_beside(paths, chosen, path.trunk_link())
}

/// Finds the path between a line and a trunk place by the first idle channel, from `start` on,
/// with 0 after 9. A channel is idle if its links are, in the set with the path that was chosen
/// before, if there is one.
pub fn find_path(
    paths: &[Path],
    chosen: &Option<Path>,
    line: Len,
    place: Ten,
    start: u8,
) -> Option<Path>
    requires { start < 10 }
    ensures { result ≡ option_map (path_by line place)
        (channel_test (with_chosen paths.now chosen.now) line place start) }
{
    for turn in 0..10 {
        let path = Path {
            line,
            channel: Channel::new((start + turn) % 10),
            place,
        };
        if has_idle_links(paths, chosen, &path) {
            return Some(path);
        }
    }
    None
}

/// The index at which a path is to be inserted into the set, or `None` if the set has it already.
fn insertion_index(paths: &[Path], path: &Path) -> Option<usize>
    ensures { MatchOption result (with_path paths.now path.now ≡ paths.now)
        (λ at. (at ≤ length paths.now) × (with_path paths.now path.now ≡
        insert_at paths.now at path.now)) }
{
    for (at, other) in paths.iter().enumerate() {
        match path.cmp(other) {
            Ordering::Less => return Some(at),
            Ordering::Equal => return None,
            Ordering::Greater => {}
        }
    }
    Some(paths.len())
}

/// Adds a path to the set, which must have capacity for it.
pub fn insert(paths: &mut Vec<Path>, path: &Path)
    requires { vec_len paths.old < vec_capacity paths.old }
    ensures paths { paths.new.items ≡ with_path paths.old.items path.now }
    ensures len { vec_len paths.new ≤ vec_len paths.old + 1 }
    ensures capacity { vec_capacity paths.new ≡ vec_capacity paths.old }
{
    if let Some(at) = insertion_index(paths, path) {
        paths.insert(at, *path).unwrap();
    }
}

/// Adds the paths of a call to the set, which must have capacity for them.
fn insert_call(paths: &mut Vec<Path>, call: &CallPaths)
    requires { vec_len paths.old + call_count call.now ≤ vec_capacity paths.old }
    ensures { paths.new.items ≡ with_call_paths paths.old.items call.now }
{
    insert(paths, &call.calling);
    if let Some(called) = &call.called {
        insert(paths, called);
    }
}

/// Adds the paths of a call, if there is one. If memory runs out, the set does not change.
pub fn add(paths: &mut Vec<Path>, call: &Option<CallPaths>) -> Result<(), AllocError>
    ensures ok { OnOk result (paths.new.items ≡ with_added paths.old.items call.now) }
    ensures err { OnErr result (paths.new.items ≡ paths.old.items) }
    ensures room { OnErr result ((vec_len paths.new ≡ vec_len paths.old) ×
        (vec_capacity paths.new ≡ vec_capacity paths.old)) }
    ensures full { OnErr result
        (vec_capacity paths.old < vec_len paths.old + added_count call.now) }
{
    if let Some(call) = call {
        paths.reserve(call.count())?;
        insert_call(paths, call);
    }
    Ok(())
}

/// The index of a path in the set.
fn index_of(paths: &[Path], path: &Path) -> Option<usize>
    ensures { MatchOption result (without_path paths.now path.now ≡ paths.now)
        (λ at. (at < length paths.now) × (without_path paths.now path.now ≡
        remove_at paths.now at)) }
{
    for (at, other) in paths.iter().enumerate() {
        match path.cmp(other) {
            Ordering::Less => return None,
            Ordering::Equal => return Some(at),
            Ordering::Greater => {}
        }
    }
    None
}

/// Removes a path from the set, if the set has it.
pub fn remove(paths: &mut Vec<Path>, path: &Path)
    ensures paths { paths.new.items ≡ without_path paths.old.items path.now }
    ensures capacity { vec_capacity paths.new ≡ vec_capacity paths.old }
{
    if let Some(at) = index_of(paths, path) {
        paths.remove(at);
    }
}
