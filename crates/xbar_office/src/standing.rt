//! The paths of a line's call.

ghost use Rattle.std.specs.Prelude.{◌≡◌};
ghost use Rattle.xbar_office.specs.Standing.{path_of as path_of_line, path_at as path_at_place, ends_at_register as ends_at_register_of, register_path as register_path_of, other_path as other_path_of};

use xbar_equip::{Len, Path, Ten};
use xbar_plan::Plan;

/// The path of a line, if it has one.
pub fn path_of(paths: &[Path], line: Len) -> Option<Path>
    ensures { result ≡ path_of_line paths.now line }
{
    for path in paths {
        if path.line == line {
            return Some(*path);
        }
    }
    None
}

/// The path that ends at a trunk place, if there is one.
fn path_at(paths: &[Path], place: Ten) -> Option<Path>
    ensures { result ≡ path_at_place paths.now place }
{
    for path in paths {
        if path.place == place {
            return Some(*path);
        }
    }
    None
}

/// Whether the path ends at a register.
fn ends_at_register(plan: &Plan, path: &Path) -> bool
    ensures { result ≡ ends_at_register_of plan.now path.now }
{
    match plan.member_of(path.place) {
        None => false,
        Some(member) => member.group == plan.register_group(),
    }
}

/// The path from a line to its register, if it has one.
pub fn register_path(plan: &Plan, paths: &[Path], line: Len) -> Option<Path>
    ensures { result ≡ register_path_of plan.now paths.now line }
{
    let path = path_of(paths, line)?;
    if ends_at_register(plan, &path) {
        Some(path)
    } else {
        None
    }
}

/// The path of the other party: the one at the other place, if the path's place is one of a pair.
pub fn other_path(plan: &Plan, paths: &[Path], own: &Path) -> Option<Path>
    ensures { result ≡ other_path_of plan.now paths.now own.now }
{
    let member = plan.member_of(own.place)?;
    path_at(paths, member.other?)
}
