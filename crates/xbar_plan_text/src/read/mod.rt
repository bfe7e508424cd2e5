//! Reads a plan from its text: a stage for each of the first five faults, then the checks of its
//! tables.

mod codes;
mod document;
mod faults;
mod groups;
mod item_error;
mod numbers;
mod text;
mod version;

ghost use Rattle.std.specs.Prelude.{◌≡◌, None, map};
ghost use Rattle.toml.specs.View.{view, table_view};
ghost use Rattle.xbar_plan_text.specs.Document.{plan_of, plan_of_document, plan_of_version, plan_of_values, plan_of_lists, plan_of_entries as plan_of_items};
ghost use Rattle.xbar_plan_text.specs.Refusal.{IsOfTables, IsTableReading, IsToldReading, malformed_in, malformed_of_document, malformed_of_lists, malformed_of_values, malformed_of_version, missing_in, missing_list};

use crate::found::Found;
use crate::refusal::PlanRefusal;
use codes::CodeEntry;
use document::Values;
use std::alloc::{AllocError, Global};
use toml::Table;
use version::Version;
use xbar_equip::Link;
use xbar_plan::{Group, Plan, PlanList, Station, TableFault};

/// Reads a plan from bytes, or tells their first fault.
pub fn read(alloc: Global, bytes: &[u8]) -> Result<Plan, PlanRefusal>
    ensures { IsToldReading (plan_of bytes.now) (missing_in bytes.now) (malformed_in bytes.now)
        result }
{
    let document = document::parse(alloc, bytes)?;
    read_document(alloc, &document)
}

/// Reads the version of a document, then the rest.
fn read_document(alloc: Global, document: &Table) -> Result<Plan, PlanRefusal>
    ensures { IsToldReading (plan_of_document (table_view document.now))
        (missing_list (table_view document.now)) (malformed_of_document (table_view document.now))
        result }
{
    match document::version_of(document) {
        Some(version) => read_version(alloc, document, version),
        None => Err(PlanRefusal::Version(Found::of(document.get("version")))),
    }
}

/// Reads the values at the four keys of a document, then the rest.
fn read_version(alloc: Global, document: &Table, version: Version) -> Result<Plan, PlanRefusal>
    ensures { IsToldReading (plan_of_version (table_view document.now) version)
        (missing_list (table_view document.now))
        (malformed_of_version version (table_view document.now)) result }
{
    match document::values_of(document) {
        Ok(values) => read_values(alloc, version, &values),
        Err(list) => Err(PlanRefusal::KeyMissing(list)),
    }
}

/// Reads the strings of the four values, then the rest.
fn read_values(alloc: Global, version: Version, values: &Values<'_>) -> Result<Plan, PlanRefusal>
    ensures { IsToldReading (plan_of_values version
        (record {
          groups = view values.now.groups.now;
          numbers = view values.now.numbers.now;
          codes = view values.now.codes.now;
          faults = view values.now.faults.now;
        })) None (malformed_of_values version
        (record {
          groups = view values.now.groups.now;
          numbers = view values.now.numbers.now;
          codes = view values.now.codes.now;
          faults = view values.now.faults.now;
        })) result }
{
    let groups = document::texts_of(alloc, PlanList::Groups, values.groups)?;
    let numbers = document::texts_of(alloc, PlanList::Numbers, values.numbers)?;
    let codes = document::texts_of(alloc, PlanList::Codes, values.codes)?;
    let faults = document::texts_of(alloc, PlanList::Faults, values.faults)?;
    read_lists(alloc, version, &groups, &numbers, &codes, &faults)
}

/// Reads the items of the four lists, and makes a plan of them.
fn read_lists(
    alloc: Global,
    version: Version,
    groups: &[&[u8]],
    numbers: &[&[u8]],
    codes: &[&[u8]],
    faults: &[&[u8]],
) -> Result<Plan, PlanRefusal>
    ensures { IsToldReading (plan_of_lists version
        (record {
          groups = map (λ text. text.now) groups.now;
          numbers = map (λ text. text.now) numbers.now;
          codes = map (λ text. text.now) codes.now;
          faults = map (λ text. text.now) faults.now;
        })) None (malformed_of_lists version
        (record {
          groups = map (λ text. text.now) groups.now;
          numbers = map (λ text. text.now) numbers.now;
          codes = map (λ text. text.now) codes.now;
          faults = map (λ text. text.now) faults.now;
        })) result }
{
    let own_groups = groups::read_groups(alloc, groups)?;
    let stations = numbers::read_stations(alloc, version, numbers)?;
    let entries = codes::read_entries(alloc, codes)?;
    let links = faults::read_faults(alloc, faults)?;
    match plan_of_entries(alloc, own_groups, stations, &entries, links) {
        Ok(plan) => Ok(plan),
        Err(fault) => Err(refuse_tables(alloc, fault, groups, numbers, codes, faults)),
    }
}

/// The refusal of tables that were read from lists of these texts. Memory may run out.
fn refuse_tables(
    alloc: Global,
    fault: TableFault,
    groups: &[&[u8]],
    numbers: &[&[u8]],
    codes: &[&[u8]],
    faults: &[&[u8]],
) -> PlanRefusal
    ensures { IsOfTables fault result }
{
    let (list, item) = fault.place();
    let text = match list {
        PlanList::Groups => text_of(alloc, groups, item),
        PlanList::Numbers => text_of(alloc, numbers, item),
        PlanList::Codes => text_of(alloc, codes, item),
        PlanList::Faults => text_of(alloc, faults, item),
    };
    match text {
        Ok(text) => PlanRefusal::Tables { fault, text },
        Err(_) => PlanRefusal::Memory,
    }
}

/// A copy of the text with this index, if there is one.
fn text_of(
    alloc: Global,
    texts: &[&[u8]],
    item: Option<usize>,
) -> Result<Option<Vec<u8>>, AllocError> {
    match item.and_then(|item| texts.get(item)) {
        Some(text) => Ok(Some(text.to_vec(alloc)?)),
        None => Ok(None),
    }
}

/// Finds the groups that the codes name, and makes a plan.
fn plan_of_entries(
    alloc: Global,
    groups: Vec<Group>,
    stations: Vec<Station>,
    codes: &[CodeEntry],
    faults: Vec<Link>,
) -> Result<Plan, TableFault>
    ensures { IsTableReading (plan_of_items (record {
      groups = groups.items;
      stations = stations.items;
      codes = codes.now;
      faults = faults.items;
    })) result }
{
    let routes = codes::routes_of(alloc, &groups, codes)?;
    Plan::checked(alloc, groups, stations, routes, faults)
}
