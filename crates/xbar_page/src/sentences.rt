//! What happened in a turn, as a list.

ghost use Rattle.std.specs.Prelude.{◌≡◌, ◌++◌, IfOk, OnOk, flat_map, map, string_bytes};
ghost use Rattle.xbar_page.specs.Section.{card_item_text, item_text, words_text};
ghost use Rattle.xbar_page.specs.Words.{set_up as set_up_by, set_up_words as set_up_words_of, card_words as card_words_of, had_register as had_register_at, register_words, sentences, taken_out as taken_out_by, taken_out_words as taken_out_words_of};

use crate::words::{card_words, end_words, marker_words, set_up_words, taken_out_words};
use std::alloc::{AllocError, Global};
use svg::add_escaped;
use xbar_equip::Path;
use xbar_office::{End, Job, Record};
use xbar_plan::Plan;

/// The paths that a job with this end took out.
fn taken_out(alloc: Global, end: &End) -> Result<Vec<Path>, AllocError>
    ensures { IfOk result (λ paths. paths.items ≡ taken_out_by end.now) }
{
    let mut paths = Vec::new(alloc);
    if let End::Released { own, other } = *end {
        paths.push(own)?;
        if let Some(other) = other {
            paths.push(other)?;
        }
    }
    Ok(paths)
}

/// The paths that a job with this end set up.
pub fn set_up(alloc: Global, end: &End) -> Result<Vec<Path>, AllocError>
    ensures { IfOk result (λ paths. paths.items ≡ set_up_by end.now) }
{
    let mut paths = Vec::new(alloc);
    if let Some(call) = end.adds() {
        paths.push(call.calling)?;
        if let Some(called) = call.called {
            paths.push(called)?;
        }
    }
    Ok(paths)
}

/// Adds a sentence as an item of the list.
#[tactic(auto, unfolding(crate::specs::Section::item_text))]
fn add_item(text: &mut String, sentence: &str) -> Result<(), AllocError>
    ensures { OnOk result (string_bytes text.new ≡ string_bytes text.old ++
        item_text sentence.now) }
{
    text.push_str("<li>")?;
    add_escaped(text, sentence)?;
    text.push_str("</li>\n")?;
    Ok(())
}

/// Adds the sentence of a trouble card as an item of the list.
#[tactic(auto, unfolding(crate::specs::Section::card_item_text))]
fn add_card_item(text: &mut String, sentence: &str) -> Result<(), AllocError>
    ensures { OnOk result (string_bytes text.new ≡ string_bytes text.old ++
        card_item_text sentence.now) }
{
    text.push_str("<li class=\"trouble\">")?;
    add_escaped(text, sentence)?;
    text.push_str("</li>\n")?;
    Ok(())
}

/// Whether a completing job with this end released a register.
fn had_register(end: &End) -> bool
    ensures { result ≡ had_register_at end.now }
{
    match end {
        End::NoRegister => false,
        _ => true,
    }
}

/// Adds that a register was released, if one was.
fn add_register(text: &mut String, job: &Job, end: &End) -> Result<(), AllocError>
    ensures { OnOk result (string_bytes text.new ≡ string_bytes text.old ++
        flat_map item_text (register_words job.now end.now)) }
{
    match job {
        Job::Dial(_) | Job::Release(_) => Ok(()),
        Job::Complete(_, _) => {
            if had_register(end) {
                add_item(text, "The register is given back: four crosspoints open.")?;
            }
            Ok(())
        }
    }
}

fn add_taken_out(alloc: Global, text: &mut String, paths: &[Path]) -> Result<(), AllocError>
    ensures { OnOk result (string_bytes text.new ≡ string_bytes text.old ++
        flat_map item_text (map taken_out_words_of paths.now)) }
{
    for path in paths {
        let sentence = taken_out_words(alloc, path)?;
        add_item(text, sentence.as_str())?;
    }
    Ok(())
}

fn add_set_up(alloc: Global, text: &mut String, paths: &[Path]) -> Result<(), AllocError>
    ensures { OnOk result (string_bytes text.new ≡ string_bytes text.old ++
        flat_map item_text (map set_up_words_of paths.now)) }
{
    for path in paths {
        let sentence = set_up_words(alloc, path)?;
        add_item(text, sentence.as_str())?;
    }
    Ok(())
}

#[tactic(auto, unfolding(crate::specs::Words::sentences))]
fn add_sentences(
    alloc: Global,
    text: &mut String,
    plan: &Plan,
    owner: &Record,
) -> Result<(), AllocError>
    ensures { OnOk result (string_bytes text.new ≡ string_bytes text.old ++
        flat_map item_text (sentences plan.now owner.now)) }
{
    let end = &owner.reply.end;
    let marker_words = marker_words(alloc, owner)?;
    let end_words = end_words(alloc, plan, end)?;
    let taken_out = taken_out(alloc, end)?;
    let set_up = set_up(alloc, end)?;
    add_item(text, marker_words.as_str())?;
    add_item(text, end_words.as_str())?;
    add_register(text, &owner.job, end)?;
    add_taken_out(alloc, text, &taken_out)?;
    add_set_up(alloc, text, &set_up)?;
    Ok(())
}

fn add_cards(alloc: Global, text: &mut String, owner: &Record) -> Result<(), AllocError>
    ensures { OnOk result (string_bytes text.new ≡ string_bytes text.old ++
        flat_map card_item_text (map card_words_of owner.now.reply.cards)) }
{
    for card in owner.reply.cards.as_slice() {
        let sentence = card_words(alloc, card)?;
        add_card_item(text, sentence.as_str())?;
    }
    Ok(())
}

/// Adds what happened in a turn, as a list of sentences.
#[tactic(auto, unfolding(crate::specs::Section::words_text))]
pub fn add_words(
    alloc: Global,
    text: &mut String,
    plan: &Plan,
    owner: &Record,
) -> Result<(), AllocError>
    ensures { OnOk result (string_bytes text.new ≡ string_bytes text.old ++
        words_text plan.now owner.now) }
{
    text.push_str("<ul>\n")?;
    add_sentences(alloc, text, plan, owner)?;
    add_cards(alloc, text, owner)?;
    text.push_str("</ul>\n")?;
    Ok(())
}
