//! What the words of a command line ask for.

ghost use Rattle.std.specs.Prelude.{◌≡◌, ◌<◌, ◌≤◌, [], ◌∷◌, List, MatchResult, IfErr, IfOk, IfSome, IsErrAnd, IsSome, length, option_and_then, option_map, true, unwrap_or};
ghost use Rattle.std.specs.String.{string_bytes};
ghost use Rattle.clap.specs.Walk.{texts};
ghost use Rattle.clap.specs.Words.{first_value, found_of, subcommand_of, subcommand_rows_of, takes};
ghost use Rattle.crossbar5_command.specs.Ask.{IsAnswerTo, IsAnswerWith, IsAskOf, IsAskWith, IsNumberOf, IsTaskWith, IsUnnamedAsk, name_of};
ghost use Rattle.crossbar5_command.specs.Fault.{IsFaultAmong, conflict_of, faults_of, form_count};
ghost use Rattle.crossbar5_command.specs.Forms as specs;
ghost use Rattle.crossbar5_command.specs.Program.{audit, default_kinds, draw, live, look, page, program, replay, subcommands, walk};
ghost use Rattle.crossbar5_command.specs.Subcommand.{AreValues, AskFor, GivenOption, NamesOnly, Subcommand, subcommand_named, value_of};
ghost use Rattle.crossbar5_command.specs.declared.command_fault.CommandFault.TheVariants.{Memory};

use crate::CommandFault;
use crate::options::{
    COMPLETING, DEFAULT_KINDS, DIAL, JSON, MARKERS, ONE, PLAN, SHORT, SVG, TEXT, WORDS,
};
use crate::program::{NAME, program};
use crate::subcommands::{AUDIT, DRAW, LIVE, LOOK, PAGE, REPLAY, USAGE_LOOK, USAGE_WALK, WALK};
use clap::error::ErrorKind;
use clap::{ArgMatches, Command};
use crossbar5_task::{DrawForm, LookForm, Task, WalkForm};
use std::alloc::{AllocError, Global};

/// What a command line asks for.
#[derive(Drop)]
pub struct Ask {
    /// The name of the plan's file. None is for the example plan.
    pub plan: Option<String>,
    pub work: Work,
}

/// The work that a command line asks for, on standard input.
#[derive(Drop)]
pub enum Work {
    /// A task of the engine.
    Task {
        task: Task,
        /// A letter for the kind of each marker, marker 0 first. They aren't checked yet. A task
        /// on records has no markers: its letters are the default.
        kinds: String,
    },
    /// Calls by markers on threads.
    Live {
        /// The number of markers that dial, 1 to 47.
        dialling: u32,
        /// The number of markers that complete and release calls, 1 to 47.
        completing: u32,
    },
}

/// Returns what the words ask for. The first word is the program's name, whatever it is. The
/// options of a subcommand follow its name in any order.
pub fn command(alloc: Global, words: &[&str]) -> Result<Ask, CommandFault>
    // Words that ask for a subcommand, in at most one form, are accepted, and the result has the
    // values in them. Two forms are refused.
    ensures taken { (s : Subcommand) (given : List GivenOption)
        → AskFor subcommands (texts words.now) s given → AreValues s.options given
        → form_count s.options (value_of s.options given) ≤ 1
        → IfErr result (λ fault. fault ≡ Memory) }
    ensures asked { (s : Subcommand) (given : List GivenOption)
        → AskFor subcommands (texts words.now) s given
        → IfOk result (IsAskWith s.name (value_of s.options given)) }
    ensures apart { (s : Subcommand) (given : List GivenOption)
        → AskFor subcommands (texts words.now) s given → AreValues s.options given
        → 1 < form_count s.options (value_of s.options given)
        → IsErrAnd result (IsFaultAmong (ErrorKind.ArgumentConflict ∷ [])) }
    // The program's name alone, and no words at all, ask for a replay without options.
    ensures unnamed { length words.now ≤ 1
        → MatchResult result IsUnnamedAsk (λ fault. fault ≡ Memory) }

    // A word that names no subcommand is refused, and so is an option in its place.
    ensures only { IfOk result (λ ask. NamesOnly replay.name (name_of ask) (texts words.now)) }

    // For all words the result is what clap's definition finds for this program, unless that has
    // two forms.
    ensures matches { IfOk result (IsAskOf (subcommand_of program (texts words.now))) }
    ensures passes { takes program (texts words.now) ≡ true
        → conflict_of (subcommand_of program (texts words.now)) ≡ []
        → IfErr result (λ fault. fault ≡ Memory) }
    ensures faults { MatchResult result (λ _. faults_of (texts words.now) ≡ [])
        (IsFaultAmong (faults_of (texts words.now))) }
{
    let matches = program(alloc)?.try_get_matches_from(words)?;
    ask_of(alloc, &matches)
}

/// What clap's matches ask for: their subcommand, or a replay if they have none.
fn ask_of(alloc: Global, matches: &ArgMatches) -> Result<Ask, CommandFault>
    ensures { IfSome (subcommand_rows_of matches.now)
        (λ met. IsSome (subcommand_named subcommands met.0))
        → IsAnswerTo (subcommand_rows_of matches.now) result }
{
    if let Some(options) = matches.subcommand_matches(LIVE) {
        return live_of(alloc, options);
    }
    if let Some(options) = matches.subcommand_matches(AUDIT) {
        return audit_of(alloc, options);
    }
    if let Some(options) = matches.subcommand_matches(DRAW) {
        return draw_of(alloc, options);
    }
    if let Some(options) = matches.subcommand_matches(WALK) {
        return walk_of(alloc, options);
    }
    if let Some(options) = matches.subcommand_matches(PAGE) {
        return page_of(alloc, options);
    }
    if let Some(options) = matches.subcommand_matches(LOOK) {
        return look_of(alloc, options);
    }
    replay_of(alloc, matches.subcommand_matches(REPLAY))
}

/// The walk with the values of its options.
fn walk_of(alloc: Global, options: &ArgMatches) -> Result<Ask, CommandFault>
    ensures { IsAnswerWith walk (first_value (found_of options.now)) result }
{
    let short = is_given(options.get_str(SHORT));
    let json = is_given(options.get_str(JSON));
    let Some(form) = walk_form(short, json) else {
        return Err(two_forms(
            alloc,
            USAGE_WALK,
            "only one of '--short' and '--json' can be used",
        ));
    };
    let (plan, kinds) = (options.get_str(PLAN), options.get_str(MARKERS));
    Ok(ask_for(alloc, Task::Walk(form), plan, kinds)?)
}

/// The form of a walk, by its options. None if both are given.
fn walk_form(short: bool, json: bool) -> Option<WalkForm>
    ensures { result ≡ specs.walk_form short json }
{
    match (short, json) {
        (false, false) => Some(WalkForm::Each),
        (true, false) => Some(WalkForm::Short),
        (false, true) => Some(WalkForm::Json),
        (true, true) => None,
    }
}

/// The office as it stands, with the values of the options.
fn look_of(alloc: Global, options: &ArgMatches) -> Result<Ask, CommandFault>
    ensures { IsAnswerWith look (first_value (found_of options.now)) result }
{
    let words = is_given(options.get_str(WORDS));
    let json = is_given(options.get_str(JSON));
    let svg = is_given(options.get_str(SVG));
    let Some(form) = look_form(words, json, svg) else {
        let message = "only one of '--words', '--json' and '--svg' can be used";
        return Err(two_forms(alloc, USAGE_LOOK, message));
    };
    let (plan, kinds) = (options.get_str(PLAN), options.get_str(MARKERS));
    Ok(ask_for(alloc, Task::Look(form), plan, kinds)?)
}

/// The form of an office as it stands, by its options. None if two are given.
fn look_form(words: bool, json: bool, svg: bool) -> Option<LookForm>
    ensures { result ≡ specs.look_form words json svg }
{
    match (words, json, svg) {
        (_, false, false) => Some(LookForm::Words),
        (false, true, false) => Some(LookForm::Json),
        (false, false, true) => Some(LookForm::Svg),
        _ => None,
    }
}

/// The refusal of two forms, with the usage of the subcommand.
fn two_forms(alloc: Global, usage: &str, message: &str) -> CommandFault
    ensures { IsFaultAmong (ErrorKind.ArgumentConflict ∷ []) result }
{
    let mut command = Command::new(alloc, NAME).override_usage(usage);
    match command.error(ErrorKind::ArgumentConflict, message) {
        Ok(error) => CommandFault::Refused(error),
        Err(_) => CommandFault::Memory,
    }
}

/// The live calls with the values of their options.
fn live_of(alloc: Global, options: &ArgMatches) -> Result<Ask, CommandFault>
    ensures { IsAnswerWith live (first_value (found_of options.now)) result }
{
    let work = Work::Live {
        dialling: number_of(options.get_str(DIAL).unwrap_or(ONE)),
        completing: number_of(options.get_str(COMPLETING).unwrap_or(ONE)),
    };
    let plan = copy_of(alloc, options.get_str(PLAN))?;
    Ok(Ask { plan, work })
}

/// The number of this text, or 1 if it isn't that of a number of 32 bits.
fn number_of(text: &str) -> u32
    ensures { IsNumberOf text.now result }
{
    text.parse::<u32>().unwrap_or(1)
}

/// The audit with the values of its options.
fn audit_of(alloc: Global, options: &ArgMatches) -> Result<Ask, CommandFault>
    ensures { IsAnswerWith audit (first_value (found_of options.now)) result }
{
    Ok(ask_for(alloc, Task::Audit, options.get_str(PLAN), None)?)
}

/// The drawing with the values of its options.
fn draw_of(alloc: Global, options: &ArgMatches) -> Result<Ask, CommandFault>
    ensures { IsAnswerWith draw (first_value (found_of options.now)) result }
{
    let form = if is_given(options.get_str(TEXT)) {
        DrawForm::Text
    } else {
        DrawForm::Svg
    };
    Ok(ask_for(alloc, Task::Draw(form), options.get_str(PLAN), None)?)
}

/// The page with the values of its options.
fn page_of(alloc: Global, options: &ArgMatches) -> Result<Ask, CommandFault>
    ensures { IsAnswerWith page (first_value (found_of options.now)) result }
{
    let page = Task::Draw(DrawForm::Page);
    Ok(ask_for(alloc, page, options.get_str(PLAN), None)?)
}

/// Whether an option that takes no value is given, by the value that clap has for it.
fn is_given(value: Option<&str>) -> bool
    ensures { result ≡ specs.is_given (option_map (λ s. s.now) value.entry) }
{
    match value {
        Some(value) => value == "true",
        None => false,
    }
}

/// The ask for a task, with the plan's file and the letters of the kinds that are given.
fn ask_for(
    alloc: Global,
    task: Task,
    plan: Option<&str>,
    kinds: Option<&str>,
) -> Result<Ask, AllocError>
    ensures plan { IfOk result (λ ask. option_map string_bytes ask.plan
        ≡ option_map (λ s. s.now) plan.entry) }
    ensures work { IfOk result (λ ask. IsTaskWith task
        (unwrap_or (option_map (λ s. s.now) kinds.entry) default_kinds) ask.work) }
{
    let plan = copy_of(alloc, plan)?;
    let kinds = String::from_str(alloc, kinds.unwrap_or(DEFAULT_KINDS))?;
    let work = Work::Task { task, kinds };
    Ok(Ask { plan, work })
}

/// The replay with the values of its options, or with defaults if there are no matches.
fn replay_of(alloc: Global, options: Option<&ArgMatches>) -> Result<Ask, CommandFault>
    ensures { IsAnswerWith replay (λ name.
        option_and_then (λ m. first_value (found_of m.now) name) options.entry) result }
{
    let (plan, kinds) = (text_of(options, PLAN), text_of(options, MARKERS));
    Ok(ask_for(alloc, Task::Replay, plan, kinds)?)
}

/// The value of an option in the matches, if there are matches and they have it.
fn text_of<'a>(matches: Option<&ArgMatches<'a>>, option: &str) -> Option<&'a str>
    ensures { option_map (λ s. s.now) result
        ≡ option_and_then (λ m. first_value (found_of m.now) option.now) matches.entry }
{
    matches?.get_str(option)
}

fn copy_of(alloc: Global, text: Option<&str>) -> Result<Option<String>, AllocError>
    ensures { IfOk result (λ copy. option_map string_bytes copy
        ≡ option_map (λ s. s.now) text.entry) }
{
    match text {
        Some(text) => Ok(Some(String::from_str(alloc, text)?)),
        None => Ok(None),
    }
}
