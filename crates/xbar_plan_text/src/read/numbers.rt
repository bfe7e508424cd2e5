//! Reads the items of `numbers`.

ghost use Rattle.std.specs.Prelude.{◌≡◌, ◌∷◌, map};
ghost use Rattle.xbar_plan.specs.declared.table_fault.PlanList.TheVariants as PlanList;
ghost use Rattle.xbar_plan_text.specs.Texts.{read_all, line_of, is_line_count as is_count_of_lines, station_of_parts, station_of};
ghost use Rattle.xbar_plan_text.specs.Refusal.{IsListRead, IsReadAs};

use super::item_error::ItemError;
use super::text::{read_line, read_number, split_parts};
use super::version::Version;
use crate::refusal::PlanRefusal;
use std::alloc::Global;
use xbar_equip::Len;
use xbar_plan::{PlanList, Station};

/// What is expected of a line.
const EXPECTED_LINE: &str =
    "expected a line of four digits, the third at most 5 and the fourth at most 4";

/// What is expected of a directory number with its lines.
fn expected_station(version: Version) -> &'static str {
    match version {
        Version::One => "expected a number and one line in version 1",
        Version::Two => "expected a number and its lines",
    }
}

/// Parses each part as a line.
fn read_lines(alloc: Global, parts: &[&[u8]]) -> Result<Vec<Len>, ItemError>
    ensures { IsReadAs (λ lines. lines.items)
        (read_all (λ part. line_of part.now) parts.now) result }
{
    let mut lines = Vec::with_capacity(alloc, parts.len())?;
    for part in parts {
        let Some(line) = read_line(part) else {
            // The number comes before the lines.
            return Err(ItemError::Part(lines.len().saturating_add(1), EXPECTED_LINE));
        };
        lines.push(line)?;
    }
    Ok(lines)
}

/// Whether the version allows this number of lines: version 1 allows exactly one.
fn is_line_count(version: Version, count: usize) -> bool
    ensures { result ≡ is_count_of_lines version count }
{
    match version {
        Version::One => count == 1,
        Version::Two => true,
    }
}

/// Reads a directory number and its lines from their parts.
fn read_numbered(
    alloc: Global,
    version: Version,
    number: &[u8],
    lines: &[&[u8]],
) -> Result<Station, ItemError>
    ensures { IsReadAs (λ station. station) (station_of_parts version
        (number.now ∷ map (λ part. part.now) lines.now)) result }
{
    let count = lines.len();
    let Some(number) = read_number(number) else {
        return Err(ItemError::Part(0, "expected four digits"));
    };
    let lines = read_lines(alloc, lines)?;
    if !is_line_count(version, count) {
        return Err(ItemError::Whole(expected_station(version)));
    }
    Ok(Station::new(number, lines))
}

/// Reads a directory number with its lines from the parts of its text.
fn read_station_parts(
    alloc: Global,
    version: Version,
    parts: &[&[u8]],
) -> Result<Station, ItemError>
    ensures { IsReadAs (λ station. station) (station_of_parts version
        (map (λ part. part.now) parts.now)) result }
{
    match parts {
        [number, lines @ ..] => read_numbered(alloc, version, number, lines),
        [] => Err(ItemError::Whole(expected_station(version))),
    }
}

/// Reads an item of `numbers`: a directory number and its lines.
fn read_station(alloc: Global, version: Version, text: &[u8]) -> Result<Station, ItemError>
    ensures { IsReadAs (λ station. station) (station_of version text.now) result }
{
    let parts = split_parts(alloc, text)?;
    read_station_parts(alloc, version, &parts)
}

pub fn read_stations(
    alloc: Global,
    version: Version,
    texts: &[&[u8]],
) -> Result<Vec<Station>, PlanRefusal>
    ensures { IsListRead PlanList.Numbers (station_of version) (λ stations. stations.items)
        (map (λ text. text.now) texts.now) result }
{
    let mut stations = Vec::with_capacity(alloc, texts.len())?;
    for (item, text) in texts.iter().enumerate() {
        match read_station(alloc, version, text) {
            Ok(station) => stations.push(station)?,
            Err(error) => {
                let list = PlanList::Numbers;
                return Err(error.refusal(alloc, list, item, text, expected_station(version)));
            }
        }
    }
    Ok(stations)
}
