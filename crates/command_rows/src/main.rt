//! Runs the program on command lines that were worked out by hand: words, a plan's file and an
//! input, with both outputs and the exit status. The rows are in the files of `data`. The program
//! reads byte slices and writes vectors, which are compared with the row.
#![tactic(auto)]

mod plan_file;
mod row;
mod run;

use row::row_of;
use run::run_row;
use std::sync::Wait;
use std::thread::Threads;
use std::{fs, io};
use toml::Value;

const FILES: [&str; 6] = [
    "tasks.toml",
    "live.toml",
    "drawings.toml",
    "refusals.toml",
    "words.toml",
    "told.toml",
];

/// Rows that say something else than the program does, each in one point.
const DIFFERENT: &str = "different.toml";

fn main(rt: HostRuntime) -> io::Result<()> {
    for file in FILES {
        let _different = run_file(&rt, &rt, file)?;
    }
    let different = run_file(&rt, &rt, DIFFERENT)?;
    println!(rt; "{different} rows are different, as they have to be")
}

/// Runs the rows of a file, and returns how many the program did in another way.
fn run_file<T: Threads + Wait + Sync>(
    rt: &HostRuntime,
    threads: &T,
    file: &str,
) -> io::Result<usize> {
    let text = fs::read_to_string(rt, file)?;
    let Ok(table) = toml::table_from_str(rt.alloc(), &text) else {
        println!(rt; "{file} can't be read")?;
        return Ok(0);
    };
    let rows = table.get("rows").and_then(|rows| rows.as_array());
    run_all(rt, threads, rows.map_or(&[], |rows| rows.as_slice()))
}

/// Runs each row, and prints whether the program did as expected, or what it did. Returns how many
/// it did in another way.
fn run_all<T: Threads + Wait + Sync>(
    rt: &HostRuntime,
    threads: &T,
    rows: &[Value],
) -> io::Result<usize> {
    let mut different: usize = 0;
    for value in rows {
        let Some(row) = row_of(value) else {
            println!(rt; "a row that can't be read")?;
            continue;
        };
        let found = run_row(threads, rt.alloc(), &row)?;
        if found.is_as_expected(&row) {
            println!(rt; "{}: as worked out", row.name)?;
        } else {
            different = different.saturating_add(1);
            println!(rt; "{}: {found}", row.name)?;
        }
    }
    Ok(different)
}
