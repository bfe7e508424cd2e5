//! The values of a document, and the strings in them.

ghost use Rattle.std.specs.Prelude.{◌≡◌, MatchResult, None, Some, option_map, map};
ghost use Rattle.toml.specs.Data.{get_member};
ghost use Rattle.toml.specs.View.{view, table_view, items_view};
ghost use Rattle.xbar_plan.specs.TableFault.{key_of};
ghost use Rattle.xbar_plan_text.specs.Document.{document_of, version_of as version_of_document, values_of as values_of_document, texts_of_items, texts_of as texts_of_value};
ghost use Rattle.xbar_plan_text.specs.Refusal.{IsNotTexts, IsNotToml, missing_list};

use super::version::Version;
use crate::found::Found;
use crate::refusal::PlanRefusal;
use std::alloc::Global;
use toml::{Table, Value};
use xbar_plan::PlanList;

/// Parses bytes as a TOML document.
#[tactic(auto, unfolding(crate::specs::Document::document_of))]
pub fn parse(alloc: Global, bytes: &[u8]) -> Result<Table, PlanRefusal>
    ensures { MatchResult result (λ table. document_of bytes.now ≡ Some (table_view table))
        (IsNotToml (document_of bytes.now)) }
{
    match toml::table_from_slice(alloc, bytes) {
        Ok(table) => Ok(table),
        Err(error) => match error.span() {
            Some(span) => {
                let before = bytes.get(..span.start).unwrap_or(bytes);
                let (line, column) = line_and_column(before);
                Err(PlanRefusal::NotToml {
                    line,
                    column,
                    error,
                })
            }
            // An error of memory has no span.
            None => Err(PlanRefusal::Memory),
        },
    }
}

/// The line and the column after these bytes, both counted from 1. A column counts characters.
fn line_and_column(before: &[u8]) -> (usize, usize) {
    let lines = before.iter().filter(|byte| **byte == b'\n').count();
    let last = before
        .rsplit(|byte| *byte == b'\n')
        .next()
        .unwrap_or(before);
    let begun = last
        .iter()
        .filter(|byte| !(0x80..0xc0).contains(*byte))
        .count();
    (lines.saturating_add(1), begun.saturating_add(1))
}

fn value_at<'d>(document: &'d Table, key: &str) -> Option<&'d Value>
    ensures { option_map (λ value. view value.now) result ≡
        get_member key.now (table_view document.now) }
{
    document.get(key)
}

/// The version that a document states, if it is a valid one.
pub fn version_of(document: &Table) -> Option<Version>
    ensures { result ≡ version_of_document (table_view document.now) }
{
    let number = value_at(document, "version")?.as_integer()?;
    match number {
        1 => Some(Version::One),
        2 => Some(Version::Two),
        _ => None,
    }
}

/// The values at the four keys that hold lists.
#[derive(Clone, Copy)]
pub struct Values<'d> {
    pub groups: &'d Value,
    pub numbers: &'d Value,
    pub codes: &'d Value,
    pub faults: &'d Value,
}

/// The value at the key of a list, or the list if nothing is there.
fn value_of_list(document: &Table, list: PlanList) -> Result<&Value, PlanList>
    ensures { MatchResult result
        (λ value. get_member (key_of list) (table_view document.now) ≡ Some (view value.now))
        (λ missing. (get_member (key_of list) (table_view document.now) ≡ None)
        × (missing ≡ list)) }
{
    match value_at(document, list.key()) {
        Some(value) => Ok(value),
        None => Err(list),
    }
}

/// The values at the four keys, or the first list whose key is missing.
pub fn values_of(document: &Table) -> Result<Values<'_>, PlanList>
    ensures { MatchResult result (λ values. values_of_document (table_view document.now)
        ≡ Some (record {
          groups = view values.groups.now;
          numbers = view values.numbers.now;
          codes = view values.codes.now;
          faults = view values.faults.now;
        })) (λ list. (values_of_document (table_view document.now) ≡ None)
        × (missing_list (table_view document.now) ≡ Some list)) }
{
    let groups = value_of_list(document, PlanList::Groups)?;
    let numbers = value_of_list(document, PlanList::Numbers)?;
    let codes = value_of_list(document, PlanList::Codes)?;
    let faults = value_of_list(document, PlanList::Faults)?;
    Ok(Values {
        groups,
        numbers,
        codes,
        faults,
    })
}

/// The strings of an array's items.
#[tactic(auto, using(crate::proofs::ReadAll::read_whole))]
fn texts_of_array(alloc: Global, list: PlanList, items: &[Value]) -> Result<Vec<&[u8]>, PlanRefusal>
    ensures { MatchResult result
        (λ texts. texts_of_items (items_view items.now) ≡ Some (map (λ text. text.now) texts.items))
        (IsNotTexts (texts_of_items (items_view items.now))) }
{
    let mut texts = Vec::with_capacity(alloc, items.len())?;
    for (item, value) in items.iter().enumerate() {
        let Some(text) = value.as_str() else {
            return Err(PlanRefusal::NotTexts {
                list,
                item: Some(item),
                found: Found::of(Some(value)),
            });
        };
        texts.push(text.as_bytes())?;
    }
    Ok(texts)
}

/// The strings of the value at the key of a list.
pub fn texts_of(alloc: Global, list: PlanList, value: &Value) -> Result<Vec<&[u8]>, PlanRefusal>
    ensures { MatchResult result
        (λ texts. texts_of_value (view value.now) ≡ Some (map (λ text. text.now) texts.items))
        (IsNotTexts (texts_of_value (view value.now))) }
{
    match value.as_array() {
        Some(items) => texts_of_array(alloc, list, items),
        None => Err(PlanRefusal::NotTexts {
            list,
            item: None,
            found: Found::of(Some(value)),
        }),
    }
}
