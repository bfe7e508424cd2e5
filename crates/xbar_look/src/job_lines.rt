//! What a marker is at, in lines of words.

ghost use Rattle.std.specs.Prelude.{◌≡◌, ◌++◌, OnOk, flat_map, length, option_to_list, string_bytes};
ghost use Rattle.xbar_equip.specs.Word.{word_count};
ghost use Rattle.xbar_jobs.specs.Attempt.{effect_step};
ghost use Rattle.xbar_jobs.specs.Keeping.{AreEffects};
ghost use Rattle.xbar_jobs.specs.Turning.{IsStep};
ghost use Rattle.xbar_look.specs.Jobs.{job_at, paths_in};
ghost use Rattle.xbar_look.specs.Lines.{effect_line, held_line, lines_below, next_line, part_line, requested_lines};

use crate::job_paths::{JobPaths, closed_of, paths_of};
use crate::under_way::value_under;
use std::alloc::AllocError;
use xbar_core::Work;
use xbar_equip::{Conn, Path};
use xbar_jobs::{Effect, Step};
use xbar_step_text::{ConnName, add_next_words};

/// Adds the line of the next step.
#[tactic(auto, unfolding(crate::specs::Lines::next_line))]
fn add_next_line(text: &mut String, words: &[u64], step: &Step) -> Result<(), AllocError>
    requires words { length words.now ≡ word_count }
    requires step { IsStep step.now }
    ensures { OnOk result (string_bytes text.new ≡ string_bytes text.old ++
        next_line words.now step.now) }
{
    text.push_str("  next: ")?;
    add_next_words(text, step, value_under(words, step))?;
    text.push_str("\n")?;
    Ok(())
}

/// Adds the line of an effect that is left, by the step that makes it.
#[tactic(auto, unfolding(crate::specs::Lines::effect_line))]
fn add_effect_line(text: &mut String, words: &[u64], step: &Step) -> Result<(), AllocError>
    requires words { length words.now ≡ word_count }
    requires step { IsStep step.now }
    ensures { OnOk result (string_bytes text.new ≡ string_bytes text.old ++
        effect_line words.now step.now) }
{
    text.push_str("  left: ")?;
    add_next_words(text, step, value_under(words, step))?;
    text.push_str("\n")?;
    Ok(())
}

fn add_effect_lines(text: &mut String, words: &[u64], effects: &[Effect]) -> Result<(), AllocError>
    requires words { length words.now ≡ word_count }
    requires effects { AreEffects effects.now }
    ensures { OnOk result (string_bytes text.new ≡ string_bytes text.old ++
        flat_map (λ effect. effect_line words.now (effect_step effect)) effects.now) }
{
    for effect in effects {
        add_effect_line(text, words, &effect.step())?;
    }
    Ok(())
}

#[tactic(auto, unfolding(crate::specs::Lines::held_line))]
fn add_held_line(text: &mut String, conn: Conn) -> Result<(), AllocError>
    ensures { OnOk result (string_bytes text.new ≡ string_bytes text.old ++ held_line conn) }
{
    writeln!(text, "  holds {}", ConnName(conn))
}

fn add_held_lines(text: &mut String, held: &[Conn]) -> Result<(), AllocError>
    ensures { OnOk result (string_bytes text.new ≡ string_bytes text.old ++
        flat_map held_line held.now) }
{
    for conn in held {
        add_held_line(text, *conn)?;
    }
    Ok(())
}

/// Adds the line of the connector that is requested, if there is one.
#[tactic(auto, unfolding(crate::specs::Lines::requested_lines))]
fn add_requested_line(text: &mut String, conn: Option<Conn>) -> Result<(), AllocError>
    ensures { OnOk result (string_bytes text.new ≡ string_bytes text.old ++
        requested_lines conn) }
{
    match conn {
        None => Ok(()),
        Some(conn) => writeln!(text, "  requests {}", ConnName(conn)),
    }
}

/// Adds the line of a path.
#[tactic(auto, unfolding(crate::specs::Lines::part_line))]
fn add_part_line(text: &mut String, words: &[u64], path: &Path) -> Result<(), AllocError>
    requires { length words.now ≡ word_count }
    ensures { OnOk result (string_bytes text.new ≡ string_bytes text.old ++
        part_line words.now path.now) }
{
    let closed = closed_of(words, path);
    writeln!(text, "  path {path}: {closed} of 4 crosspoints closed")
}

/// Adds the line of the other party's path, if there is one.
fn add_other_part_line(
    text: &mut String,
    words: &[u64],
    other: &Option<Path>,
) -> Result<(), AllocError>
    requires { length words.now ≡ word_count }
    ensures { OnOk result (string_bytes text.new ≡ string_bytes text.old ++
        flat_map (part_line words.now) (option_to_list other.now)) }
{
    match other {
        None => Ok(()),
        Some(other) => add_part_line(text, words, other),
    }
}

/// Adds the lines of the job's paths.
fn add_part_lines(
    text: &mut String,
    words: &[u64],
    paths: &Option<JobPaths>,
) -> Result<(), AllocError>
    requires { length words.now ≡ word_count }
    ensures { OnOk result (string_bytes text.new ≡ string_bytes text.old ++
        flat_map (part_line words.now) (paths_in paths.now)) }
{
    match paths {
        None => Ok(()),
        Some(paths) => {
            add_part_line(text, words, &paths.own)?;
            add_other_part_line(text, words, &paths.other)
        }
    }
}

/// Adds the lines below a marker's: what its job does next, what it holds and requests, and what
/// it has left to do.
#[tactic(auto, unfolding(crate::specs::Lines::lines_below))]
pub fn add_lines_below(text: &mut String, words: &[u64], work: &Work) -> Result<(), AllocError>
    requires { length words.now ≡ word_count }
    ensures { OnOk result (string_bytes text.new ≡ string_bytes text.old ++
        lines_below words.now (job_at work.now)) }
{
    let program = work.program();
    add_next_line(text, words, &program.next())?;
    add_held_lines(text, program.held())?;
    add_requested_line(text, program.requested())?;
    add_effect_lines(text, words, program.effects_left())?;
    add_part_lines(text, words, &paths_of(program.decided()))
}
