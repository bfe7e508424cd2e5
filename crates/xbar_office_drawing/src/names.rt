//! The names of lines and trunks beside the frames.

ghost use Rattle.std.specs.Prelude.{◌≡◌, ◌++◌, OnOk, filter, length, string_bytes};
ghost use Rattle.xbar_office_drawing.specs.Figures.{figures_text};
ghost use Rattle.xbar_office_drawing.specs.Names.{first_number as first_number_of, is_number_of as is_number_of_line, line_name, name_level as name_level_of, names, names_after, share_line_row, share_trunk_row, trunk_name};

use crate::office::frame_top;
use std::alloc::{AllocError, Global};
use svg::{Point, Shape, add_shape};
use xbar_equip::{DirNo, Len, Path};
use xbar_office_text::PathMember;
use xbar_plan::{Plan, Station};

/// Whether a number has a line.
fn is_number_of(line: Len, station: &Station) -> bool
    ensures { result ≡ is_number_of_line line station.now }
{
    station.lines().iter().any(|other| *other == line)
}

/// The first number that has a line, if one has.
pub fn first_number(plan: &Plan, line: Len) -> Option<DirNo>
    ensures { result ≡ first_number_of plan.now line }
{
    let stations = plan.tables().stations;
    for station in stations {
        if is_number_of(line, station) {
            return Some(station.number());
        }
    }
    None
}

/// The baseline of the names in the row beside a switch.
fn name_level(frame: u8, switch: u8) -> u16
    ensures { result ≡ name_level_of frame switch }
{
    frame_top(frame) + 16 * u16::from(switch / 2) + 13
}

/// Adds the name of a path's line in a column of four, nothing beyond them: its number, or the line
/// itself if it has no number.
#[tactic(auto, unfolding(crate::specs::Names::line_name))]
pub fn add_line_name(
    alloc: Global,
    text: &mut String,
    plan: &Plan,
    column: usize,
    path: &Path,
) -> Result<(), AllocError>
    ensures { OnOk result (string_bytes text.new ≡ string_bytes text.old ++
        figures_text (line_name plan.now column path.now)) }
{
    if column >= 4 {
        return Ok(());
    }
    let height = name_level(path.line.frame(), path.line.switch());
    let at = Point(204 - 40 * column as u16, height);
    match first_number(plan, path.line) {
        Some(number) => {
            let name = format!(in alloc; "{number}")?;
            add_shape(text, &Shape::Text(at, "line", name.as_str()))?;
        }
        None => {
            let name = format!(in alloc; "{}", path.line)?;
            add_shape(text, &Shape::Text(at, "line unlisted", name.as_str()))?;
        }
    }
    Ok(())
}

/// Adds the name of a path's trunk in a column of three; nothing beyond them.
#[tactic(auto, unfolding(crate::specs::Names::trunk_name))]
pub fn add_trunk_name(
    alloc: Global,
    text: &mut String,
    plan: &Plan,
    column: usize,
    path: &Path,
) -> Result<(), AllocError>
    ensures { OnOk result (string_bytes text.new ≡ string_bytes text.old ++
        figures_text (trunk_name plan.now column path.now)) }
{
    if column >= 3 {
        return Ok(());
    }
    let height = name_level(path.place.frame(), path.place.switch());
    let at = Point(1260 + 102 * column as u16, height);
    let name = format!(in alloc; "{}", PathMember(plan, path))?;
    add_shape(text, &Shape::Text(at, "trunk", name.as_str()))
}

/// Whether the names of two lines are in one row.
fn line_row_is_shared(path: &Path, other: &Path) -> bool
    ensures { result ≡ share_line_row path.now other.now }
{
    path.line.frame() == other.line.frame() && path.line.switch() / 2 == other.line.switch() / 2
}

/// Whether the names of two trunks are in one row.
fn trunk_row_is_shared(path: &Path, other: &Path) -> bool
    ensures { result ≡ share_trunk_row path.now other.now }
{
    path.place.frame() == other.place.frame() && path.place.switch() / 2 == other.place.switch() / 2
}

/// How many of these paths have the name of their line in the same row.
fn line_column(earlier: &[Path], path: &Path) -> usize
    ensures { result ≡ length (filter (share_line_row path.now) earlier.now) }
{
    earlier
        .iter()
        .filter(|other| line_row_is_shared(path, other))
        .count()
}

/// How many of these paths have the name of their trunk in the same row.
fn trunk_column(earlier: &[Path], path: &Path) -> usize
    ensures { result ≡ length (filter (share_trunk_row path.now) earlier.now) }
{
    earlier
        .iter()
        .filter(|other| trunk_row_is_shared(path, other))
        .count()
}

/// Adds the two names of a path that comes after earlier ones.
#[tactic(auto, unfolding(crate::specs::Names::names_after))]
fn add_names_after(
    alloc: Global,
    text: &mut String,
    plan: &Plan,
    earlier: &[Path],
    path: &Path,
) -> Result<(), AllocError>
    ensures { OnOk result (string_bytes text.new ≡ string_bytes text.old ++
        figures_text (names_after plan.now earlier.now path.now)) }
{
    add_line_name(alloc, text, plan, line_column(earlier, path), path)?;
    add_trunk_name(alloc, text, plan, trunk_column(earlier, path), path)
}

/// Adds the names of all paths.
pub fn add_names(
    alloc: Global,
    text: &mut String,
    plan: &Plan,
    paths: &[Path],
) -> Result<(), AllocError>
    ensures { OnOk result (string_bytes text.new ≡ string_bytes text.old ++
        figures_text (names plan.now paths.now)) }
{
    for (place, path) in paths.iter().enumerate() {
        add_names_after(alloc, text, plan, &paths[..place], path)?;
    }
    Ok(())
}
