ghost use Rattle.std.specs.Prelude.{◌≡◌, ◌++◌, IfOk, OnOk, string_bytes};
ghost use Rattle.xbar_look.specs.Look.{look_object, look_words as words_of_look};

use crate::connectors::add_connectors;
use crate::markers::{add_markers, add_markers_lines};
use crate::shown::{add_shown, add_words};
use std::alloc::{AllocError, Global};
use xbar_core::Exchange;
use xbar_json::{Json, add_array};
use xbar_match::{count_closed, count_paths};
use xbar_report::report;

/// The office as it stands, as one JSON object with a line end. `events` are JSON objects with
/// commas between them, which the object has as its events.
#[tactic(auto, unfolding(crate::specs::Look::look_object))]
pub fn look_json(alloc: Global, office: &Exchange<'_>, events: &str) -> Result<String, AllocError>
    ensures { IfOk result (λ text. string_bytes text ≡ look_object office.now events.now) }
{
    let words = office.words();
    let mut text = String::new(alloc);
    text.push_str(r#"{"plan":"#)?;
    office.plan().add_json(&mut text)?;
    text.push_str(r#","markers":"#)?;
    add_markers(&mut text, words, office.markers(), office.marker_count())?;
    text.push_str(r#","connectors":"#)?;
    add_connectors(&mut text, words)?;
    text.push_str(r#","shown":"#)?;
    add_shown(&mut text, words)?;
    text.push_str(r#","records":"#)?;
    add_array(&mut text, office.records())?;
    text.push_str(r#","words":"#)?;
    add_words(&mut text, words)?;
    text.push_str(r#","events":["#)?;
    text.push_str(events)?;
    text.push_str("]}\n")?;
    Ok(text)
}

/// The office as it stands, in words: its markers, and a report of its records and its counts.
#[tactic(auto, unfolding(crate::specs::Look::look_words))]
pub fn look_words(alloc: Global, office: &Exchange<'_>) -> Result<Vec<u8>, AllocError>
    ensures { IfOk result (λ text. text.items ≡ words_of_look office.now.exchange) }
{
    let words = office.words();
    let mut text = String::new(alloc);
    add_markers_lines(&mut text, words, office.markers(), office.marker_count())?;
    let counts = (count_paths(words), count_closed(words));
    let report = report(alloc, office.records(), counts.0, counts.1)?;
    let mut bytes = text.into_bytes();
    bytes.extend_from_slice(&report)?;
    Ok(bytes)
}
