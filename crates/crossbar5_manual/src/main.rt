//! Prints the manual of `crossbar5` in all its forms, made from the table of its subcommands and
//! options: the texts of `--help`, a man page, and completions for bash, zsh and fish. Each text
//! follows a line `==> FILE <==` with the name of its file. So does the table of the library's
//! tasks: a line for each, with its number, the kind of its input, the words that ask the program
//! for it, and its name, separated by tabs.
#![tactic(auto)]

mod bash;
mod fish;
mod lines;
mod man_page;
mod task_table;
mod zsh;

use bash::BashCompletions;
use crossbar5_command::{CommandFault, NAME, SUBCOMMANDS, command};
use fish::FishCompletions;
use man_page::ManPage;
use std::fmt;
use std::process::ExitCode;
use task_table::TaskTable;
use zsh::ZshCompletions;

/// Why the manual couldn't be printed.
enum ManualFault {
    Memory,
    Output,
}

fn main(rt: HostRuntime) -> ExitCode {
    match print_all(&rt) {
        Ok(()) => ExitCode::SUCCESS,
        Err(ManualFault::Memory) => ExitCode::from(5),
        Err(ManualFault::Output) => ExitCode::from(6),
    }
}

fn print_all(rt: &HostRuntime) -> Result<(), ManualFault> {
    print_text(rt, "help/crossbar5.txt", &help(rt, &[NAME, "--help"])?)?;
    for subcommand in SUBCOMMANDS {
        let name = subcommand.name();
        let Ok(file) = format!(in rt.alloc(); "help/{name}.txt") else {
            return Err(ManualFault::Memory);
        };
        print_text(rt, &file, &help(rt, &[NAME, name, "--help"])?)?;
    }
    print_text(rt, "man/man1/crossbar5.1", &ManPage)?;
    print_text(rt, "completions/crossbar5.bash", &BashCompletions)?;
    print_text(rt, "completions/_crossbar5", &ZshCompletions)?;
    print_text(rt, "completions/crossbar5.fish", &FishCompletions)?;
    print_text(rt, "crossbar5/tasks.txt", &TaskTable)
}

/// The help that these words ask for.
fn help(rt: &HostRuntime, words: &[&str]) -> Result<clap::Error, ManualFault> {
    match command(rt.alloc(), words) {
        Err(CommandFault::Refused(help)) => Ok(help),
        Ok(_) | Err(CommandFault::Memory) => Err(ManualFault::Memory),
    }
}

/// Prints a text after the line with the name of its file.
fn print_text<T: fmt::Display>(rt: &HostRuntime, file: &str, text: &T) -> Result<(), ManualFault> {
    match print!(rt; "==> {file} <==\n{text}") {
        Ok(()) => Ok(()),
        Err(_) => Err(ManualFault::Output),
    }
}
