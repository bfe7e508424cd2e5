//! The program, and its definition for clap.

ghost use Rattle.std.specs.Prelude.{◌≡◌, [], IfOk, true};
ghost use Rattle.clap.specs.Words.{app_of};
ghost use Rattle.crossbar5_command.specs.Program.{program, program_of};

use crate::subcommands::{SUBCOMMANDS, commands_of};
use clap::Command;
use std::alloc::{AllocError, Global};

/// The program's name.
pub const NAME: &str = "crossbar5";

/// The program's version.
pub const VERSION: &str = "0.1.0";

/// What the program is, at the beginning of help.
pub const ABOUT: &str = "\
A simulator of a No. 5 Crossbar telephone office. It reads rows of traffic from
standard input and prints a record of each job. Without a command it replays
the rows with the example plan and two markers that take all jobs.";

// The usage is printed under each refusal too, so it shows where each option belongs.
const USAGE: &str = "\
crossbar5 [COMMAND]
       crossbar5 replay [--plan <FILE>] [--markers <KINDS>]
       crossbar5 walk [--plan <FILE>] [--markers <KINDS>] [--short | --json]
       crossbar5 look [--plan <FILE>] [--markers <KINDS>] [--words | --json | --svg]
       crossbar5 live [--plan <FILE>] [--dial <N>] [--completing <N>]
       crossbar5 audit [--plan <FILE>]
       crossbar5 draw [--plan <FILE>] [--text]
       crossbar5 page [--plan <FILE>]";

/// The exit statuses, at the end of help.
pub const AFTER_HELP: &str = "\
Exit status:
  0  Success
  2  The command line or the markers are refused
  3  The plan is refused
  4  The traffic or the text of records is refused, or an input is too long
  5  Out of memory
  6  A device failed, or the plan's FILE cannot be read
  7  The records, or the counts after them, are wrong

Use 'crossbar5 COMMAND --help' for the options of a command, with an example.
Rows, plans, records and faults are defined in docs/FORMATS.md.";

/// The program, with its subcommands.
pub fn program<'a>(alloc: Global) -> Result<Command<'a>, AllocError>
    ensures { IfOk result (λ made. app_of made ≡ program) }
{
    let subcommands = commands_of(alloc, SUBCOMMANDS)?;
    unnamed(alloc).subcommands(subcommands)
}

/// The program without its subcommands.
fn unnamed<'a>(alloc: Global) -> Command<'a>
    ensures { app_of result
        ≡ record (program_of []) { top = record (program_of []).top { is_leaf = true } } }
{
    Command::new(alloc, NAME)
        .version(VERSION)
        .about(ABOUT)
        .after_help(AFTER_HELP)
        .override_usage(USAGE)
}
