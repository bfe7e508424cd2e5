//! The options of the subcommands, and their definition for clap.

ghost use Rattle.std.specs.Prelude.{◌≡◌, ◌∷◌, ◌++◌, [], All, IfOk, OnOk, false, map};
ghost use Rattle.clap.specs.Words.{rule_of};
ghost use Rattle.crossbar5_command.specs.Program.{marker_count, markers, plan, rule_for};
ghost use Rattle.crossbar5_command.specs.Subcommand.{nothing};
ghost use Rattle.crossbar5_command.specs.Table.{named_option};

use clap::builder::ValueParser;
use clap::{Arg, ArgAction};
use std::alloc::{AllocError, Global};

/// The id and name of the option for the plan.
pub const PLAN: &str = "plan";

/// The id and name of the option for the kinds of the markers.
pub const MARKERS: &str = "markers";

/// The id and name of the option for the number of markers that dial.
pub const DIAL: &str = "dial";

/// The id and name of the option for the number of markers that complete calls.
pub const COMPLETING: &str = "completing";

/// The id and name of the option for a walk in fewer lines.
pub const SHORT: &str = "short";

/// The id and name of the option for an office in words.
pub const WORDS: &str = "words";

/// The id and name of the option for JSON.
pub const JSON: &str = "json";

/// The id and name of the option for an office as SVG.
pub const SVG: &str = "svg";

/// The id and name of the option for a text in place of SVG.
pub const TEXT: &str = "text";

/// The default number of markers of a kind.
pub const ONE: &str = "1";

/// The largest number of markers of a kind.
const MOST_OF_A_KIND: u64 = 47;

/// What help calls the value of an option.
const FILE: &str = "FILE";

const KINDS: &str = "KINDS";

const NUMBER: &str = "N";

/// The default kinds of the markers: two markers for all jobs.
pub const DEFAULT_KINDS: &str = "XX";

const ABOUT_PLAN: &str = "Read the office's plan from FILE [default: the example plan]";

const ABOUT_MARKERS: &str = "\
The kind of each marker, marker 0 first, 1 to 48 letters:{n}\
D for dial tone jobs{n}\
C for completing jobs and releases{n}\
X for all jobs";

const ABOUT_DIAL: &str = "The number of markers that dial, 1 to 47";

const ABOUT_COMPLETING: &str = "\
The number of markers that complete and release calls, 1 to 47;{n}\
with those that dial at most 48";

const ABOUT_SHORT: &str = "Describe the tests of a row of switches in one line";

const ABOUT_EVENTS: &str = "Write each event as a JSON object on a line of its own";

const ABOUT_WORDS: &str = "Describe the office in words, the default";

const ABOUT_JSON: &str = "Write the office as one JSON object";

const ABOUT_SVG: &str = "Draw the office as SVG";

const ABOUT_TEXT: &str = "Draw for a terminal of 80 columns";

/// An option of a subcommand.
#[derive(Clone, Copy)]
pub enum CommandOption {
    Plan,
    Markers,
    Dial,
    Completing,
    Short,
    /// `--json` of a walk.
    Events,
    Words,
    /// `--json` of an office as it stands.
    Json,
    Svg,
    Text,
}

impl CommandOption {
    /// The option's name, without its two hyphens.
    pub fn name(self) -> &'static str {
        match self {
            CommandOption::Plan => PLAN,
            CommandOption::Markers => MARKERS,
            CommandOption::Dial => DIAL,
            CommandOption::Completing => COMPLETING,
            CommandOption::Short => SHORT,
            CommandOption::Events | CommandOption::Json => JSON,
            CommandOption::Words => WORDS,
            CommandOption::Svg => SVG,
            CommandOption::Text => TEXT,
        }
    }

    /// What help calls the option's value. None for an option that takes no value.
    pub fn value_name(self) -> Option<&'static str> {
        match self {
            CommandOption::Plan => Some(FILE),
            CommandOption::Markers => Some(KINDS),
            CommandOption::Dial | CommandOption::Completing => Some(NUMBER),
            _ => None,
        }
    }

    /// The value of an option that isn't given, if help names one.
    pub fn default_value(self) -> Option<&'static str> {
        match self {
            CommandOption::Markers => Some(DEFAULT_KINDS),
            CommandOption::Dial | CommandOption::Completing => Some(ONE),
            _ => None,
        }
    }

    /// What help says of the option. `{n}` ends a line.
    pub fn about(self) -> &'static str {
        match self {
            CommandOption::Plan => ABOUT_PLAN,
            CommandOption::Markers => ABOUT_MARKERS,
            CommandOption::Dial => ABOUT_DIAL,
            CommandOption::Completing => ABOUT_COMPLETING,
            CommandOption::Short => ABOUT_SHORT,
            CommandOption::Events => ABOUT_EVENTS,
            CommandOption::Words => ABOUT_WORDS,
            CommandOption::Json => ABOUT_JSON,
            CommandOption::Svg => ABOUT_SVG,
            CommandOption::Text => ABOUT_TEXT,
        }
    }

    /// The option as an argument of clap.
    fn arg<'a>(self, alloc: Global) -> Arg<'a>
        ensures rule { rule_of result ≡ rule_for (named_option self) }
        ensures local { result.global ≡ false }
    {
        match self {
            CommandOption::Plan => plan_option(alloc),
            CommandOption::Markers => markers_option(alloc),
            CommandOption::Dial => count_option(alloc, DIAL, ABOUT_DIAL),
            CommandOption::Completing => count_option(alloc, COMPLETING, ABOUT_COMPLETING),
            CommandOption::Short => flag_option(alloc, SHORT, ABOUT_SHORT),
            CommandOption::Events => flag_option(alloc, JSON, ABOUT_EVENTS),
            CommandOption::Words => flag_option(alloc, WORDS, ABOUT_WORDS),
            CommandOption::Json => flag_option(alloc, JSON, ABOUT_JSON),
            CommandOption::Svg => flag_option(alloc, SVG, ABOUT_SVG),
            CommandOption::Text => flag_option(alloc, TEXT, ABOUT_TEXT),
        }
    }
}

/// The arguments of these options, in their order.
pub fn args_of<'a>(alloc: Global, options: &[CommandOption]) -> Result<Vec<Arg<'a>>, AllocError>
    ensures rules { IfOk result (λ args. map rule_of args.items ≡
        map (λ option. rule_for (named_option option)) options.now) }
    ensures local { IfOk result (λ args. All (λ arg. arg.global ≡ false) args.items) }
{
    let mut args = Vec::new(alloc);
    for option in options {
        put(&mut args, option.arg(alloc))?;
    }
    Ok(args)
}

/// Appends an item. If memory runs out, the item is dropped.
pub fn put<T: Drop>(all: &mut Vec<T>, item: T) -> Result<(), AllocError>
    ensures { OnOk result (all.new.items ≡ all.old.items ++ item ∷ []) }
{
    Ok(all.push(item)?)
}

fn plan_option<'a>(alloc: Global) -> Arg<'a>
    ensures rule { rule_of result ≡ rule_for plan }
    ensures local { result.global ≡ false }
{
    Arg::new(alloc, PLAN)
        .long(PLAN)
        .value_name(FILE)
        .help(ABOUT_PLAN)
}

fn markers_option<'a>(alloc: Global) -> Arg<'a>
    ensures rule { rule_of result ≡ rule_for markers }
    ensures local { result.global ≡ false }
{
    Arg::new(alloc, MARKERS)
        .long(MARKERS)
        .value_name(KINDS)
        .default_value(DEFAULT_KINDS)
        .help(ABOUT_MARKERS)
}

/// An option for the number of markers of a kind.
fn count_option<'a>(alloc: Global, name: &'a str, about: &'a str) -> Arg<'a>
    ensures rule { rule_of result ≡ rule_for (marker_count name.now) }
    ensures local { result.global ≡ false }
{
    Arg::new(alloc, name)
        .long(name)
        .value_name(NUMBER)
        .value_parser(ValueParser::unsigned(1, MOST_OF_A_KIND))
        .default_value(ONE)
        .help(about)
}

/// An option without a value.
fn flag_option<'a>(alloc: Global, name: &'a str, about: &'a str) -> Arg<'a>
    ensures rule { rule_of result ≡ rule_for (record { name = name.now; argument = nothing }) }
    ensures local { result.global ≡ false }
{
    Arg::new(alloc, name)
        .long(name)
        .action(ArgAction::SetTrue)
        .help(about)
}
