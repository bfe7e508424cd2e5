//! The subcommands, and their definition for clap.

ghost use Rattle.std.specs.Prelude.{◌≡◌, ◌∷◌, ◌++◌, [], All, IfOk, IsOkAnd, OnOk, false, map};
ghost use Rattle.clap.specs.Simple.{new_app};
ghost use Rattle.clap.specs.Words.{app_of};
ghost use Rattle.clap.specs.declared.builder.command.Command.TheViews.{out-Command};
ghost use Rattle.crossbar5_command.specs.Program.{shape_for};
ghost use Rattle.crossbar5_command.specs.Table.{named_subcommand};

use crate::options::{CommandOption, args_of, put};
use clap::Command;
use crossbar5_task::{DrawForm, LookForm, Task, WalkForm};
use std::alloc::{AllocError, Global};

// The names of the subcommands.
pub const REPLAY: &str = "replay";

pub const WALK: &str = "walk";

pub const LOOK: &str = "look";

pub const LIVE: &str = "live";

pub const AUDIT: &str = "audit";

pub const DRAW: &str = "draw";

pub const PAGE: &str = "page";

/// A subcommand with its options.
pub struct Subcommand {
    name: &'static str,
    about: &'static str,
    usage: &'static str,
    example: &'static str,
    options: &'static [CommandOption],
}

/// All subcommands, in the order in which help lists them.
pub const SUBCOMMANDS: &[Subcommand] = &[
    Subcommand {
        name: REPLAY,
        about: "Replay rows of traffic and print a record of each job",
        usage: "crossbar5 replay [--plan <FILE>] [--markers <KINDS>] < TRAFFIC",
        example: EXAMPLE_REPLAY,
        options: &[CommandOption::Plan, CommandOption::Markers],
    },
    Subcommand {
        name: WALK,
        about: "Replay rows of traffic and describe each step of each marker",
        usage: USAGE_WALK,
        example: EXAMPLE_WALK,
        options: &[
            CommandOption::Plan,
            CommandOption::Markers,
            CommandOption::Short,
            CommandOption::Events,
        ],
    },
    Subcommand {
        name: LOOK,
        about: "Show the office as it stands after rows of traffic, not settled",
        usage: USAGE_LOOK,
        example: EXAMPLE_LOOK,
        options: &[
            CommandOption::Plan,
            CommandOption::Markers,
            CommandOption::Words,
            CommandOption::Json,
            CommandOption::Svg,
        ],
    },
    Subcommand {
        name: LIVE,
        about: "Make calls with markers that run on threads",
        usage: "crossbar5 live [--plan <FILE>] [--dial <N>] [--completing <N>] < CALLS",
        example: EXAMPLE_LIVE,
        options: &[
            CommandOption::Plan,
            CommandOption::Dial,
            CommandOption::Completing,
        ],
    },
    Subcommand {
        name: AUDIT,
        about: "Check the records of a replay or of live calls",
        usage: "crossbar5 audit [--plan <FILE>] < RECORDS",
        example: EXAMPLE_AUDIT,
        options: &[CommandOption::Plan],
    },
    Subcommand {
        name: DRAW,
        about: "Draw the office that the records leave, as SVG or as text",
        usage: "crossbar5 draw [--plan <FILE>] [--text] < RECORDS",
        example: EXAMPLE_DRAW,
        options: &[CommandOption::Plan, CommandOption::Text],
    },
    Subcommand {
        name: PAGE,
        about: "Show the office turn by turn, as one HTML page",
        usage: "crossbar5 page [--plan <FILE>] < RECORDS",
        example: EXAMPLE_PAGE,
        options: &[CommandOption::Plan],
    },
];

/// The usage of a walk.
pub const USAGE_WALK: &str = "\
crossbar5 walk [--plan <FILE>] [--markers <KINDS>] [--short | --json] < TRAFFIC";

/// The usage of `look`.
pub const USAGE_LOOK: &str = "\
crossbar5 look [--plan <FILE>] [--markers <KINDS>] [--words | --json | --svg] < TRAFFIC";

const EXAMPLE_REPLAY: &str = "\
Example:
  printf 'J,0,1,D,3041\\nS,0,128,,\\n' | crossbar5 replay

  Row J gives marker 0 the job number 1: line 3041 wants dial tone. Row S has
  marker 0 make up to 128 steps, more than any job needs that is alone in the
  office. Each job that has taken its turn has a record of ten fields: turn,
  job number, marker, kind of job, line, dialled digits, end, trial, and two
  paths. An empty field is '-'.";

const EXAMPLE_WALK: &str = "\
Example:
  printf 'J,0,1,D,3041\\nS,0,128,,\\n' | crossbar5 walk --short

  Line 3041 wants dial tone: each connector that the marker requests, seizes
  and frees, each word that it tests, its turn, and each crosspoint that it
  closes.";

const EXAMPLE_LOOK: &str = "\
Example:
  printf 'J,0,1,D,3041\\nS,0,3,,\\n' | crossbar5 look

  Marker 0 makes three steps for line 3041, and is left there. Printed are its
  job, its next step, what it holds, requests and has yet to do, and how much
  of its paths is closed; then records and counts, as in a replay.";

const EXAMPLE_LIVE: &str = "\
Example:
  printf 'C,7,3041,5551234,R\\n' | crossbar5 live

  Call 7: line 3041 dials 555 1234, and releases the call (R) once it is
  connected; with K the call is kept. Its jobs are 21, 22 and 23.";

const EXAMPLE_AUDIT: &str = "\
Example:
  crossbar5 live < CALLS | crossbar5 audit

  Prints AUDIT,LEGAL if the records are one legal history of the office. Else
  it prints the first record that is wrong and what it should be, and ends
  with status 7. Use the plan that the records were made with.";

const EXAMPLE_DRAW: &str = "\
Example:
  crossbar5 replay < TRAFFIC | crossbar5 draw > office.svg

  If the records are wrong, nothing is drawn: standard error has what 'audit'
  would print. Use the plan that the records were made with.";

const EXAMPLE_PAGE: &str = "\
Example:
  crossbar5 replay < TRAFFIC | crossbar5 page > office.html

  If the records are wrong, there is no page: standard error has what 'audit'
  would print. Use the plan that the records were made with.";

impl Subcommand {
    pub fn name(&self) -> &'static str {
        self.name
    }

    /// What the subcommand is for, in one line.
    pub fn about(&self) -> &'static str {
        self.about
    }

    /// The usage line in its help.
    pub fn usage(&self) -> &'static str {
        self.usage
    }

    /// An example with its explanation, at the end of its help.
    pub fn example(&self) -> &'static str {
        self.example
    }

    pub fn options(&self) -> &'static [CommandOption] {
        self.options
    }

    /// The subcommand as a command of clap, with its options.
    fn command<'a>(&self, alloc: Global) -> Result<Command<'a>, AllocError>
        ensures shape { IfOk result (λ made.
            (app_of made).top ≡ shape_for (named_subcommand self.now)) }
        ensures local { IfOk result (λ made. (out-Command made).has_globals ≡ false) }
    {
        let args = args_of(alloc, self.options)?;
        self.described(alloc).args(args)
    }

    /// The command with its texts, without options.
    fn described<'a>(&self, alloc: Global) -> Command<'a>
        ensures shape { app_of result ≡ new_app self.now.name.now }
        ensures local { (out-Command result).has_globals ≡ false }
    {
        Command::new(alloc, self.name)
            .about(self.about)
            .override_usage(self.usage)
            .after_help(self.example)
    }
}

/// The commands of these subcommands, in their order.
pub fn commands_of<'a>(
    alloc: Global,
    subcommands: &[Subcommand],
) -> Result<Vec<Command<'a>>, AllocError>
    ensures shapes { IfOk result (λ all. map (λ one. (app_of one).top) all.items ≡
        map (λ subcommand. shape_for (named_subcommand subcommand)) subcommands.now) }
    ensures local { IfOk result (λ all.
        All (λ one. (out-Command one).has_globals ≡ false) all.items) }
{
    let mut all = Vec::new(alloc);
    for subcommand in subcommands {
        add(&mut all, subcommand.command(alloc))?;
    }
    Ok(all)
}

/// Appends a command, unless memory ran out when it was made.
fn add<'a>(
    all: &mut Vec<Command<'a>>,
    made: Result<Command<'a>, AllocError>,
) -> Result<(), AllocError>
    ensures { OnOk result (IsOkAnd made.entry (λ one. all.new.items ≡ all.old.items ++ one ∷ [])) }
{
    match made {
        Ok(one) => put(all, one),
        Err(error) => Err(error),
    }
}

/// The words that ask for a task, after the program's name.
pub fn words_of(task: Task) -> &'static [&'static str] {
    match task {
        Task::Replay => &[REPLAY],
        Task::Walk(WalkForm::Each) => &[WALK],
        Task::Walk(WalkForm::Short) => &[WALK, "--short"],
        Task::Walk(WalkForm::Json) => &[WALK, "--json"],
        Task::Look(LookForm::Words) => &[LOOK],
        Task::Look(LookForm::Json) => &[LOOK, "--json"],
        Task::Look(LookForm::Svg) => &[LOOK, "--svg"],
        Task::Audit => &[AUDIT],
        Task::Draw(DrawForm::Text) => &[DRAW, "--text"],
        Task::Draw(DrawForm::Svg) => &[DRAW],
        Task::Draw(DrawForm::Page) => &[PAGE],
    }
}
