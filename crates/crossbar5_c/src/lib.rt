//! The engine as a static library, for programs that are not written in Rattle: C, Python, Rust and
//! others. The folder `bindings` has what they need.
#![tactic(auto)]

ghost use Rattle.std.specs.Prelude.{List, ℕ};
ghost use Rattle.crossbar5_c.specs.Answer.{IsAnswer, IsGiven};

use answered::Answered;
use call::answer_call;
use std::alloc::Global;

mod answer;
mod answered;
mod bytes;
mod call;
mod status;

/// Does a task of the engine, with a plan's text, the letters of the markers' kinds, and the input.
/// The letters are read for tasks with markers alone.
///
/// `answer` is told how long the text is, and the status. The text is written to the beginning of
/// `out` if there is room for it. Otherwise `out` is left as it is, so that the caller can call
/// again with more room. Nothing is kept between calls.
#[unsafe(no_mangle)]
pub extern "C" fn crossbar5_answer(
    alloc: Global,
    task: u32,
    plan: &[u8],
    kinds: &[u8],
    input: &[u8],
    out: &mut [u8],
    answer: &mut Answered,
)
    ensures { (text : List ℕ) ×
        IsAnswer task kinds.now plan.now input.now text answer.new.status ×
        IsGiven text answer.new.length out.old out.new }
{
    answer_call(alloc, task, kinds, plan, input).give(out, answer);
}
