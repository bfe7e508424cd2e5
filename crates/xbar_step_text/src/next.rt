//! A step that is yet to be made. `found` is the present value of its word, where it tests or opens
//! something in it.

ghost use Rattle.std.specs.Prelude.{◌≡◌, ◌++◌, OnOk, string_bytes};
ghost use Rattle.xbar_step_text.specs.Next.{next_items, next_object, next_words};

use crate::acts::{act_name, add_object_of, word_of};
use crate::names::ConnName;
use crate::place::Place;
use crate::shown_object::add_step_items;
use crate::words::{add_close, add_open, cleared};
use std::alloc::AllocError;
use xbar_jobs::Step;

/// Adds in words what a step will do. If memory runs out, a part may have been added.
#[tactic(auto, unfolding(crate::specs::Next::next_words))]
pub fn add_next_words(text: &mut String, step: &Step, found: u64) -> Result<(), AllocError>
    ensures { OnOk result (string_bytes text.new ≡ string_bytes text.old ++
        next_words found step.now) }
{
    match *step {
        Step::Request(conn) => write!(text, "requests {}", ConnName(conn)),
        Step::Seize(conn, _) => write!(text, "seizes {}", ConnName(conn)),
        Step::Withdraw(conn) => write!(text, "withdraws its request for {}", ConnName(conn)),
        Step::Test(word) => write!(text, "tests {}", Place::of(word)),
        Step::Turn => write!(text, "takes its turn"),
        Step::Close(word, bits) => add_close(text, Place::of(word), bits),
        Step::Open(word, mask) => add_open(text, Place::of(word), cleared(found, mask)),
        Step::Free(conn) => write!(text, "frees {}", ConnName(conn)),
        Step::Finished => write!(text, "makes no step"),
    }
}

/// Adds the fields that a step will close or open.
#[tactic(auto, unfolding(crate::specs::Next::next_items))]
fn add_next_items(text: &mut String, step: &Step, found: u64) -> Result<(), AllocError>
    ensures { OnOk result (string_bytes text.new ≡ string_bytes text.old ++
        next_items found step.now) }
{
    match step {
        Step::Test(_) => write!(text, "[]"),
        _ => add_step_items(text, found, step),
    }
}

/// Adds what a step will do, as a JSON object. If memory runs out, a part may have been added.
#[tactic(auto, unfolding(crate::specs::Next::next_object))]
pub fn add_next_object(text: &mut String, step: &Step, found: u64) -> Result<(), AllocError>
    ensures { OnOk result (string_bytes text.new ≡ string_bytes text.old ++
        next_object found step.now) }
{
    let act = act_name(step);
    write!(text, r#"{{"act":"{act}","object":"#)?;
    add_object_of(text, step)?;
    let word = word_of(step);
    write!(text, r#","word":{word},"items":"#)?;
    add_next_items(text, step, found)?;
    text.push_str(r#","says":""#)?;
    add_next_words(text, step, found)?;
    text.push_str("\"}")?;
    Ok(())
}
