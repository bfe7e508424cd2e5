//! Reads the items of `codes`, and finds the groups that they name.

ghost use Rattle.std.specs.Prelude.{◌≡◌, ◌∷◌, IfOk, map, position, string_bytes, bytes_eq};
ghost use Rattle.xbar_plan.specs.declared.table_fault.PlanList.TheVariants as PlanList;
ghost use Rattle.xbar_plan_text.specs.Texts.{read_all, name_of, code_entry_of_parts, code_entry_of, capped_number, capped_route};
ghost use Rattle.xbar_plan_text.specs.Refusal.{IsListRead, IsReadAs};

use super::groups::read_name;
use super::item_error::ItemError;
use super::text::{read_code, split_parts};
use crate::refusal::PlanRefusal;
use std::alloc::{AllocError, Global};
use std::marker::Model;
use xbar_plan::{Group, PlanList, Route};

/// What is expected of a code with its groups.
const EXPECTED_CODE: &str = "expected a code and names of groups";

/// A code and the names of the groups that it leads to.
#[derive(Debug, Drop)]
pub struct CodeEntry {
    code: u16,
    names: Vec<String>,
}

impl Model for CodeEntry {
    ghost use Rattle.std.specs.Prelude.{map, string_bytes};
    ghost use Rattle.xbar_plan_text.specs.Texts.{CodeEntry as TheEntry};

    ghost Value = { TheEntry };

    ghost view = { λ a. record { code = a.code; names = map string_bytes a.names.items } };
}

/// Reads each part as a group's name.
fn read_names(alloc: Global, parts: &[&[u8]]) -> Result<Vec<String>, ItemError>
    ensures { IsReadAs (λ names. map string_bytes names.items)
        (read_all (λ part. name_of part.now) parts.now) result }
{
    let mut names = Vec::with_capacity(alloc, parts.len())?;
    for part in parts {
        // The code comes before the names.
        let name = read_name(alloc, part, names.len().saturating_add(1))?;
        names.push(name)?;
    }
    Ok(names)
}

/// Reads a code and group names from their parts.
fn read_coded(alloc: Global, code: &[u8], names: &[&[u8]]) -> Result<CodeEntry, ItemError>
    ensures { IsReadAs (λ entry. entry) (code_entry_of_parts
        (code.now ∷ map (λ part. part.now) names.now)) result }
{
    let Some(code) = read_code(code) else {
        return Err(ItemError::Part(0, "expected three digits"));
    };
    let names = read_names(alloc, names)?;
    Ok(CodeEntry { code, names })
}

/// Reads a code and group names from the parts of a text.
fn read_entry_parts(alloc: Global, parts: &[&[u8]]) -> Result<CodeEntry, ItemError>
    ensures { IsReadAs (λ entry. entry) (code_entry_of_parts
        (map (λ part. part.now) parts.now)) result }
{
    match parts.split_first() {
        Some((code, names)) => read_coded(alloc, code, names),
        None => Err(ItemError::Whole(EXPECTED_CODE)),
    }
}

/// Reads an item of `codes`: a code and names, whether groups have these names or not.
fn read_entry(alloc: Global, text: &[u8]) -> Result<CodeEntry, ItemError>
    ensures { IsReadAs (λ entry. entry) (code_entry_of text.now) result }
{
    let parts = split_parts(alloc, text)?;
    read_entry_parts(alloc, &parts)
}

pub fn read_entries(alloc: Global, texts: &[&[u8]]) -> Result<Vec<CodeEntry>, PlanRefusal>
    ensures { IsListRead PlanList.Codes code_entry_of (λ entries. entries.items)
        (map (λ text. text.now) texts.now) result }
{
    let mut entries = Vec::with_capacity(alloc, texts.len())?;
    for (item, text) in texts.iter().enumerate() {
        match read_entry(alloc, text) {
            Ok(entry) => entries.push(entry)?,
            Err(error) => {
                let list = PlanList::Codes;
                return Err(error.refusal(alloc, list, item, text, EXPECTED_CODE));
            }
        }
    }
    Ok(entries)
}

/// The index of the first group with this name.
fn position_of(groups: &[Group], name: &str) -> Option<usize>
    ensures { result ≡ position (λ group. bytes_eq group.name name.now) groups.now }
{
    groups.iter().position(|group| group.name() == name)
}

/// The number of the first group with this name, or the number of groups if none has it. It is at
/// most 255, since no plan has that many groups.
fn number_of(groups: &[Group], name: &str) -> u8
    ensures { result ≡ capped_number groups.now name.now }
{
    let number = position_of(groups, name).unwrap_or(groups.len());
    if number < 255 { number as u8 } else { 255 }
}

/// The number of the group with each name.
fn numbers_of(alloc: Global, groups: &[Group], names: &[String]) -> Result<Vec<u8>, AllocError>
    ensures { IfOk result (λ numbers. numbers.items ≡
        map (λ name. capped_number groups.now (string_bytes name)) names.now) }
{
    let mut numbers = Vec::with_capacity(alloc, names.len())?;
    for name in names {
        numbers.push(number_of(groups, name.as_str()))?;
    }
    Ok(numbers)
}

/// The route of an entry, with groups by number.
fn route_of(alloc: Global, groups: &[Group], entry: &CodeEntry) -> Result<Route, AllocError>
    ensures { IfOk result (λ route. route ≡ capped_route groups.now entry.now) }
{
    let numbers = numbers_of(alloc, groups, &entry.names)?;
    Ok(Route::new(entry.code, numbers))
}

/// The routes of entries, with groups by number.
pub fn routes_of(
    alloc: Global,
    groups: &[Group],
    entries: &[CodeEntry],
) -> Result<Vec<Route>, AllocError>
    ensures { IfOk result (λ routes. routes.items ≡ map (capped_route groups.now) entries.now) }
{
    let mut routes = Vec::with_capacity(alloc, entries.len())?;
    for entry in entries {
        routes.push(route_of(alloc, groups, entry)?)?;
    }
    Ok(routes)
}
