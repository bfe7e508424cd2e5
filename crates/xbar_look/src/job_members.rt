//! What a marker is at, as members of a JSON object.

ghost use Rattle.std.specs.Prelude.{◌≡◌, ◌++◌, OnOk, codes, flat_map, length, map, option_to_list, string_bytes};
ghost use Rattle.xbar_equip.specs.Word.{word_count};
ghost use Rattle.xbar_jobs.specs.Attempt.{effect_step};
ghost use Rattle.xbar_jobs.specs.Keeping.{AreEffects};
ghost use Rattle.xbar_jobs.specs.Turning.{IsStep};
ghost use Rattle.xbar_json.specs.Json.{array, listed};
ghost use Rattle.xbar_look.specs.Jobs.{job_at, paths_in};
ghost use Rattle.xbar_look.specs.Markers.{job_members, part_object, step_to_make};

use crate::job_paths::{JobPaths, closed_of, paths_of};
use crate::under_way::value_under;
use crate::values::{NumberValue, add_conn_value};
use std::alloc::AllocError;
use xbar_core::Work;
use xbar_equip::Path;
use xbar_jobs::{Effect, Step};
use xbar_json::{JobObject, add_array};
use xbar_step_text::add_next_object;

/// Adds a step that is yet to be made.
fn add_step_to_make(text: &mut String, words: &[u64], step: &Step) -> Result<(), AllocError>
    requires words { length words.now ≡ word_count }
    requires step { IsStep step.now }
    ensures { OnOk result (string_bytes text.new ≡ string_bytes text.old ++
        step_to_make words.now step.now) }
{
    add_next_object(text, step, value_under(words, step))
}

/// Adds the steps that make these effects, each after a comma.
fn add_other_effects(text: &mut String, words: &[u64], effects: &[Effect]) -> Result<(), AllocError>
    requires words { length words.now ≡ word_count }
    requires effects { AreEffects effects.now }
    ensures { OnOk result (string_bytes text.new ≡ string_bytes text.old ++
        flat_map (λ other. codes "," ++ other)
        (map (λ effect. step_to_make words.now (effect_step effect)) effects.now)) }
{
    for effect in effects {
        text.push_str(",")?;
        add_step_to_make(text, words, &effect.step())?;
    }
    Ok(())
}

/// Adds the steps that make these effects, with commas between them.
#[tactic(auto, unfolding(xbar_json::specs::Json::listed))]
fn add_listed_effects(
    text: &mut String,
    words: &[u64],
    effects: &[Effect],
) -> Result<(), AllocError>
    requires words { length words.now ≡ word_count }
    requires effects { AreEffects effects.now }
    ensures { OnOk result (string_bytes text.new ≡ string_bytes text.old ++
        listed (map (λ effect. step_to_make words.now (effect_step effect)) effects.now)) }
{
    if let [first, others @ ..] = effects {
        add_step_to_make(text, words, &first.step())?;
        add_other_effects(text, words, others)?;
    }
    Ok(())
}

/// Adds the steps that make these effects, as an array.
fn add_effects(text: &mut String, words: &[u64], effects: &[Effect]) -> Result<(), AllocError>
    requires words { length words.now ≡ word_count }
    requires effects { AreEffects effects.now }
    ensures { OnOk result (string_bytes text.new ≡ string_bytes text.old ++
        array (map (λ effect. step_to_make words.now (effect_step effect)) effects.now)) }
{
    text.push_str("[")?;
    add_listed_effects(text, words, effects)?;
    text.push_str("]")?;
    Ok(())
}

/// Adds a path with the number of its crosspoints that are closed.
#[tactic(auto, unfolding(crate::specs::Markers::part_object))]
fn add_part(text: &mut String, words: &[u64], path: &Path) -> Result<(), AllocError>
    requires { length words.now ≡ word_count }
    ensures { OnOk result (string_bytes text.new ≡ string_bytes text.old ++
        part_object words.now path.now) }
{
    let closed = closed_of(words, path);
    write!(text, r#"{{"path":"{path}","closed":{closed}}}"#)
}

/// Adds the other party's path after a comma, if there is one.
fn add_other_part(text: &mut String, words: &[u64], other: &Option<Path>) -> Result<(), AllocError>
    requires { length words.now ≡ word_count }
    ensures { OnOk result (string_bytes text.new ≡ string_bytes text.old ++
        flat_map (λ other. codes "," ++ other)
        (map (part_object words.now) (option_to_list other.now))) }
{
    match other {
        None => Ok(()),
        Some(other) => {
            text.push_str(",")?;
            add_part(text, words, other)
        }
    }
}

/// Adds the job's paths, with a comma between them.
#[tactic(auto, unfolding(xbar_json::specs::Json::listed))]
fn add_listed_parts(
    text: &mut String,
    words: &[u64],
    paths: &Option<JobPaths>,
) -> Result<(), AllocError>
    requires { length words.now ≡ word_count }
    ensures { OnOk result (string_bytes text.new ≡ string_bytes text.old ++
        listed (map (part_object words.now) (paths_in paths.now))) }
{
    match paths {
        None => Ok(()),
        Some(paths) => {
            add_part(text, words, &paths.own)?;
            add_other_part(text, words, &paths.other)
        }
    }
}

/// Adds the job's paths, as an array.
fn add_parts(text: &mut String, words: &[u64], paths: &Option<JobPaths>) -> Result<(), AllocError>
    requires { length words.now ≡ word_count }
    ensures { OnOk result (string_bytes text.new ≡ string_bytes text.old ++
        array (map (part_object words.now) (paths_in paths.now))) }
{
    text.push_str("[")?;
    add_listed_parts(text, words, paths)?;
    text.push_str("]")?;
    Ok(())
}

/// Adds what the job does next, what it holds and requests, and what it has left to do.
#[tactic(auto, unfolding(crate::specs::Markers::job_members))]
pub fn add_job_members(text: &mut String, words: &[u64], work: &Work) -> Result<(), AllocError>
    requires { length words.now ≡ word_count }
    ensures { OnOk result (string_bytes text.new ≡ string_bytes text.old ++
        job_members words.now (job_at work.now)) }
{
    let program = work.program();
    let job = JobObject {
        number: work.job_no(),
        job: program.job(),
    };
    let turn = NumberValue(program.turn());
    write!(text, r#""job":{job},"turn":{turn},"next":"#)?;
    add_step_to_make(text, words, &program.next())?;
    text.push_str(r#","held":"#)?;
    add_array(text, program.held())?;
    text.push_str(r#","requested":"#)?;
    add_conn_value(text, program.requested())?;
    text.push_str(r#","effects":"#)?;
    add_effects(text, words, program.effects_left())?;
    text.push_str(r#","paths":"#)?;
    add_parts(text, words, &paths_of(program.decided()))?;
    Ok(())
}
