//! What kind of step a step is, and what it acts on.

ghost use Rattle.std.specs.Prelude.{◌≡◌, ◌++◌, OnOk, string_bytes};
ghost use Rattle.xbar_jobs.specs.OnWords.{step_word};
ghost use Rattle.xbar_step_text.specs.Objects.{act_name as name_of, object_of};

use crate::place::Place;
use crate::place_object::PlaceObject;
use std::alloc::AllocError;
use xbar_equip::{conn_number, turn_word};
use xbar_jobs::Step;
use xbar_json::Json;

/// The name of a kind of step.
pub fn act_name(step: &Step) -> &'static str
    ensures { result.now ≡ name_of step.now }
{
    match step {
        Step::Request(_) => "request",
        Step::Seize(_, _) => "seize",
        Step::Withdraw(_) => "withdraw",
        Step::Test(_) => "test",
        Step::Turn => "turn",
        Step::Close(_, _) => "close",
        Step::Open(_, _) => "open",
        Step::Free(_) => "free",
        Step::Finished => "none",
    }
}

/// The number of the word that a step is made on.
pub fn word_of(step: &Step) -> u16
    ensures { result ≡ step_word step.now }
{
    match step {
        Step::Request(conn) | Step::Seize(conn, _) | Step::Withdraw(conn) | Step::Free(conn) => {
            conn_number(*conn)
        }
        Step::Test(word) | Step::Close(word, _) | Step::Open(word, _) => word.number(),
        Step::Turn | Step::Finished => turn_word().number(),
    }
}

/// Adds what a step acts on: a connector, a switch or a group; `null` for a turn.
#[tactic(auto, unfolding(crate::specs::Objects::object_of))]
pub fn add_object_of(text: &mut String, step: &Step) -> Result<(), AllocError>
    ensures { OnOk result (string_bytes text.new ≡ string_bytes text.old ++ object_of step.now) }
{
    match step {
        Step::Request(conn) | Step::Seize(conn, _) | Step::Withdraw(conn) | Step::Free(conn) => {
            conn.add_json(text)
        }
        Step::Test(word) | Step::Close(word, _) | Step::Open(word, _) => {
            write!(text, "{}", PlaceObject(Place::of(*word)))
        }
        Step::Turn | Step::Finished => write!(text, "null"),
    }
}
