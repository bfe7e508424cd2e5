//! Calls of the library.

ghost use Rattle.std.specs.Prelude.{◌≡◌, IfOk};
ghost use Rattle.xbar_plan_text.specs.Document.{plan_of};
ghost use Rattle.crossbar5.specs.Statuses.{status_number};
ghost use Rattle.crossbar5.specs.Tasks.{IsDone};
ghost use Rattle.crossbar5.specs.declared.written.Status.{Status as TheStatus};
ghost use Rattle.crossbar5_c.specs.Answer.{IsAnswer};

use crate::answer::Answer;
use crate::bytes::Bytes;
use crate::status::{MARKERS_REFUSED, NO_SUCH_TASK, OUT_OF_MEMORY};
use crossbar5::{EngineFault, PlanSource, do_task, kinds_for};
use crossbar5_task::Task;
use std::alloc::{AllocError, Global};
use xbar_moves::Kinds;

/// Answers a call for the task of this number.
pub fn answer_call(alloc: Global, number: u32, letters: &[u8], plan: &[u8], input: &[u8]) -> Answer
    ensures { IsAnswer number letters.now plan.now input.now result.text.items result.status }
{
    let Some(task) = Task::of_number(number) else {
        return Answer::without_text(alloc, NO_SUCH_TASK);
    };
    let Some(kinds) = kinds_for(task, letters) else {
        return Answer::without_text(alloc, MARKERS_REFUSED);
    };
    match done(alloc, task, &kinds, plan, input) {
        Ok(answer) => answer,
        Err(AllocError) => Answer::without_text(alloc, OUT_OF_MEMORY),
    }
}

/// Does a task, with markers of these kinds.
fn done(
    alloc: Global,
    task: Task,
    kinds: &Kinds,
    plan: &[u8],
    input: &[u8],
) -> Result<Answer, AllocError>
    ensures { IfOk result (λ answer. (status : TheStatus) ×
        IsDone task kinds.now (plan_of plan.now) input.now answer.text.items status ×
        (answer.status ≡ status_number status)) }
{
    let plan = PlanSource::Text(plan);
    match do_task(alloc, task, plan, kinds, &mut Bytes::new(input)) {
        Ok(written) => Ok(Answer {
            text: written.text,
            status: u32::from(written.status.number()),
        }),
        Err(EngineFault::Memory) => Err(AllocError),
        Err(EngineFault::Device | EngineFault::Long) => unreachable!(),
    }
}
