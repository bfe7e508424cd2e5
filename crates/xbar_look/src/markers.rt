//! All markers as they stand.

ghost use Rattle.std.specs.Prelude.{◌≡◌, ◌++◌, OnOk, length, option_copied, option_map, string_bytes};
ghost use Rattle.xbar_equip.specs.Word.{word_count};
ghost use Rattle.xbar_json.specs.Json.{array, listed};
ghost use Rattle.xbar_look.specs.Jobs.{job_at};
ghost use Rattle.xbar_look.specs.Lines.{job_lines, marker_lines, markers_lines};
ghost use Rattle.xbar_look.specs.Markers.{marker_object, marker_objects, members_of};

use crate::job_lines::add_lines_below;
use crate::job_members::add_job_members;
use crate::under_way::under_way;
use crate::values::{kind_name, lead};
use std::alloc::AllocError;
use xbar_core::{Marker, Work};
use xbar_step_text::JobWords;

/// What an idle marker is at.
const IDLE_MEMBERS: &str =
    r#""job":null,"turn":null,"next":null,"held":[],"requested":null,"effects":[],"paths":[]"#;

/// Adds what a marker is at.
#[tactic(auto, unfolding(crate::specs::Markers::idle_members))]
fn add_members(text: &mut String, words: &[u64], work: Option<&Work>) -> Result<(), AllocError>
    requires { length words.now ≡ word_count }
    ensures { OnOk result (string_bytes text.new ≡ string_bytes text.old ++
        members_of words.now (option_map job_at (option_copied work.entry))) }
{
    match work {
        Some(work) => add_job_members(text, words, work),
        None => {
            text.push_str(IDLE_MEMBERS)?;
            Ok(())
        }
    }
}

/// Adds a marker as it stands.
#[tactic(auto, unfolding(crate::specs::Markers::marker_object))]
fn add_marker(
    text: &mut String,
    words: &[u64],
    number: u32,
    marker: &Marker,
) -> Result<(), AllocError>
    requires { length words.now ≡ word_count }
    ensures { OnOk result (string_bytes text.new ≡ string_bytes text.old ++
        marker_object words.now number marker.now) }
{
    let kind = kind_name(marker.kind());
    write!(text, r#"{{"marker":{number},"kind":"{kind}","#)?;
    add_members(text, words, under_way(marker))?;
    text.push_str("}")?;
    Ok(())
}

/// Adds all markers as they stand, with commas between them.
fn add_listed_markers(
    text: &mut String,
    words: &[u64],
    markers: &[Marker],
    count: u32,
) -> Result<(), AllocError>
    requires words { length words.now ≡ word_count }
    requires count { count ≡ length markers.now }
    ensures { OnOk result (string_bytes text.new ≡ string_bytes text.old ++
        listed (marker_objects words.now 0 markers.now)) }
{
    let mut any = false;
    for number in 0..count {
        text.push_str(lead(any))?;
        add_marker(text, words, number, &markers[number as usize])?;
        any = true;
    }
    Ok(())
}

/// Adds all markers as they stand, as an array. `count` is their number.
pub fn add_markers(
    text: &mut String,
    words: &[u64],
    markers: &[Marker],
    count: u32,
) -> Result<(), AllocError>
    requires words { length words.now ≡ word_count }
    requires count { count ≡ length markers.now }
    ensures { OnOk result (string_bytes text.new ≡ string_bytes text.old ++
        array (marker_objects words.now 0 markers.now)) }
{
    text.push_str("[")?;
    add_listed_markers(text, words, markers, count)?;
    text.push_str("]")?;
    Ok(())
}

/// Adds what a marker is at, in lines of words.
#[tactic(auto, unfolding(crate::specs::Lines::job_lines))]
fn add_job_lines(text: &mut String, words: &[u64], work: Option<&Work>) -> Result<(), AllocError>
    requires { length words.now ≡ word_count }
    ensures { OnOk result (string_bytes text.new ≡ string_bytes text.old ++
        job_lines words.now (option_map job_at (option_copied work.entry))) }
{
    match work {
        Some(work) => {
            let number = work.job_no();
            let job = JobWords(work.program().job());
            writeln!(text, "job {number}, {job}")?;
            add_lines_below(text, words, work)
        }
        None => writeln!(text, "idle"),
    }
}

/// Adds the lines of a marker.
#[tactic(auto, unfolding(crate::specs::Lines::marker_lines))]
fn add_marker_lines(
    text: &mut String,
    words: &[u64],
    number: u32,
    marker: &Marker,
) -> Result<(), AllocError>
    requires { length words.now ≡ word_count }
    ensures { OnOk result (string_bytes text.new ≡ string_bytes text.old ++
        marker_lines words.now number marker.now) }
{
    let kind = kind_name(marker.kind());
    write!(text, "marker {number}, {kind}: ")?;
    add_job_lines(text, words, under_way(marker))
}

/// Adds the lines of all markers. `count` is their number.
pub fn add_markers_lines(
    text: &mut String,
    words: &[u64],
    markers: &[Marker],
    count: u32,
) -> Result<(), AllocError>
    requires words { length words.now ≡ word_count }
    requires count { count ≡ length markers.now }
    ensures { OnOk result (string_bytes text.new ≡ string_bytes text.old ++
        markers_lines words.now 0 markers.now) }
{
    for number in 0..count {
        add_marker_lines(text, words, number, &markers[number as usize])?;
    }
    Ok(())
}
