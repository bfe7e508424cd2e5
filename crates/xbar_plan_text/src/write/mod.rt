//! Writes a plan as TOML in version 2: a document with an array of strings for each list.

mod texts;

ghost use Rattle.std.specs.Prelude.{◌≡◌, Ok, IfOk, OnOk, IsTrue, Some, map};
ghost use Rattle.xbar_equip.specs.Link.{link_text as text_of_link};
ghost use Rattle.toml.specs.Data.{member, is_before};
ghost use Rattle.toml.specs.View.{view, table_view};
ghost use Rattle.xbar_plan_text.specs.Document.{plan_of, version_in};
ghost use Rattle.xbar_plan.specs.Lawful.{IsLawful};
ghost use Rattle.xbar_plan_text.specs.Written.{array_of, group_text as text_of_group, station_text as text_of_station, route_text as text_of_route, document_in_version_2};
ghost use Rattle.xbar_plan_text.specs.declared.read.version.Version.TheVariants.{Two};
ghost use Rattle.xbar_plan.specs.TableSlices.{tables_of};

use std::alloc::{AllocError, Global};
use texts::{group_text, link_text, route_text, station_text};
use toml::{Table, Value};
use xbar_equip::Link;
use xbar_plan::{Group, Route, Station, TableSlices};

/// The array of the groups' texts.
fn groups_value(alloc: Global, groups: &[Group]) -> Result<Value, AllocError>
    ensures { IfOk result (λ value. view value ≡ array_of (map text_of_group groups.now)) }
{
    let mut texts = Vec::with_capacity(alloc, groups.len())?;
    for group in groups {
        texts.push(Value::from(group_text(alloc, group)?))?;
    }
    Ok(Value::from(texts))
}

/// The array of the directory numbers' texts.
fn numbers_value(alloc: Global, stations: &[Station]) -> Result<Value, AllocError>
    ensures { IfOk result (λ value. view value ≡ array_of (map text_of_station stations.now)) }
{
    let mut texts = Vec::with_capacity(alloc, stations.len())?;
    for station in stations {
        texts.push(Value::from(station_text(alloc, station)?))?;
    }
    Ok(Value::from(texts))
}

/// The array of the codes' texts.
fn codes_value(alloc: Global, groups: &[Group], routes: &[Route]) -> Result<Value, AllocError>
    ensures { IfOk result (λ value. view value ≡
        array_of (map (text_of_route groups.now) routes.now)) }
{
    let mut texts = Vec::with_capacity(alloc, routes.len())?;
    for route in routes {
        texts.push(Value::from(route_text(alloc, groups, route)?))?;
    }
    Ok(Value::from(texts))
}

/// The array of the faulty links' texts.
fn faults_value(alloc: Global, faults: &[Link]) -> Result<Value, AllocError>
    ensures { IfOk result (λ value. view value ≡ array_of (map text_of_link faults.now)) }
{
    let mut texts = Vec::with_capacity(alloc, faults.len())?;
    for link in faults {
        texts.push(Value::from(link_text(alloc, *link)?))?;
    }
    Ok(Value::from(texts))
}

/// Inserts a value under a key that comes before all keys of the document.
fn put_first(alloc: Global, document: &mut Table, key: &str, value: Value) -> Result<(), AllocError>
    requires { IsTrue (is_before key.now (table_view document.old)) }
    ensures { OnOk result (table_view document.new ≡
        member key.now (view value) (table_view document.old)) }
{
    let key = String::from_str(alloc, key)?;
    document.insert(key, value)?;
    Ok(())
}

/// The document of these tables. Keys are inserted from last to first, so that each new one comes
/// before the others.
fn document_of(alloc: Global, tables: &TableSlices) -> Result<Table, AllocError>
    ensures { IfOk result (λ document. table_view document ≡
        document_in_version_2 (tables_of tables.now)) }
{
    let mut document = Table::new(alloc);
    put_first(alloc, &mut document, "version", Value::from(2_i64))?;
    put_first(
        alloc,
        &mut document,
        "numbers",
        numbers_value(alloc, tables.stations)?,
    )?;
    put_first(
        alloc,
        &mut document,
        "groups",
        groups_value(alloc, tables.groups)?,
    )?;
    put_first(
        alloc,
        &mut document,
        "faults",
        faults_value(alloc, tables.faults)?,
    )?;
    put_first(
        alloc,
        &mut document,
        "codes",
        codes_value(alloc, tables.groups, tables.routes)?,
    )?;
    Ok(document)
}

/// Writes the tables in version 2.
pub fn version_2(alloc: Global, tables: &TableSlices) -> Result<Vec<u8>, AllocError>
    requires { IsLawful (tables_of tables.now) }
    ensures version { IfOk result (λ text. version_in text.items ≡ Some Two) }
    ensures tables { IfOk result (λ text. plan_of text.items ≡ Ok (tables_of tables.now)) }
{
    let document = document_of(alloc, tables)?;
    match toml::table_to_string_pretty(alloc, &document) {
        Ok(text) => Ok(text.into_bytes()),
        // The document has no date-times, so this can fail only for lack of memory.
        Err(_) => Err(AllocError),
    }
}
