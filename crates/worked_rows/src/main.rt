//! Runs the engine on rows that were worked out by hand or by a small model: traffic with its
//! records, texts of records with their audits or drawings, and plans that are refused. The rows
//! are in the files of `data`, and what the engine writes is compared with them.
#![tactic(auto)]

mod row;
mod work;

use row::{plan_of, row_of};
use std::{fs, io};
use toml::Value;
use work::run_row;

const FILES: [&str; 13] = [
    "forms.toml",
    "calls.toml",
    "replies.toml",
    "refusals.toml",
    "plans.toml",
    "diagnostics.toml",
    "audits.toml",
    "records.toml",
    "walks.toml",
    "steps.toml",
    "looks.toml",
    "drawings.toml",
    "pages.toml",
];

/// Rows that say something else than the engine does, each in one point.
const DIFFERENT: &str = "different.toml";

fn main(rt: HostRuntime) -> io::Result<()> {
    let example = fs::read_to_string(&rt, "example.toml")?;
    for file in FILES {
        let _different = run_file(&rt, &example, file)?;
    }
    let different = run_file(&rt, &example, DIFFERENT)?;
    println!(rt; "{different} rows are different, as they have to be")
}

/// Runs the rows of a file, and returns how many the engine did in another way.
fn run_file(rt: &HostRuntime, example: &str, file: &str) -> io::Result<usize> {
    let text = fs::read_to_string(rt, file)?;
    let Ok(table) = toml::table_from_str(rt.alloc(), &text) else {
        println!(rt; "{file} can't be read")?;
        return Ok(0);
    };
    let rows = table.get("rows").and_then(|rows| rows.as_array());
    run_all(rt, example, rows.map_or(&[], |rows| rows.as_slice()))
}

/// Runs each row, and prints whether the engine did as expected, or what it did. Returns how many
/// it did in another way.
fn run_all(rt: &HostRuntime, example: &str, rows: &[Value]) -> io::Result<usize> {
    let mut different: usize = 0;
    for value in rows {
        let plan = plan_of(rt.alloc(), value, example)?;
        let Some(row) = row_of(value, &plan) else {
            println!(rt; "a row that can't be read")?;
            continue;
        };
        let found = run_row(rt.alloc(), &row)?;
        if found.is_as_expected(&row) {
            println!(rt; "{}: as worked out", row.name)?;
        } else {
            different = different.saturating_add(1);
            println!(rt; "{}: {found}", row.name)?;
        }
    }
    Ok(different)
}
