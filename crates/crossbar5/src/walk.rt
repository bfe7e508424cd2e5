//! Walks: traffic is done in an office and described step by step.

ghost use Rattle.std.specs.Prelude.{IfOk};
ghost use Rattle.xbar_moves.specs.Settling.{settled as settled_office};
ghost use Rattle.xbar_walk.specs.Observers.{AgreesWith};
ghost use Rattle.xbar_walk.specs.Stories.{IsStory};
ghost use Rattle.xbar_walk.specs.Walks.{Walk, walk_of_settling};
ghost use Rattle.crossbar5.specs.Run.{Leaves};
ghost use Rattle.crossbar5.specs.Walk.{IsWalkResult, IsWalkUnder};

use crate::rows::reach;
use crate::{Status, Written, refused};
use std::alloc::{AllocError, Global};
use xbar_core::{Exchange, Kinds};
use xbar_plan::Plan;
use xbar_traffic::{Mode, Traffic};
use xbar_walk::{Detail, Story, settle};

/// Settles the office, describes each step, and finishes the text.
fn settled(mut office: Exchange<'_>, mut story: Story) -> Result<Written, AllocError>
    ensures { (w : Walk) → AgreesWith IsStory office.entry story w
        → IfOk result (λ written. IsWalkResult (walk_of_settling w)
        (Leaves (settled_office office.entry.plan office.entry.exchange))
        written.text.items written.status) }
{
    settle(&mut office, &mut story)?;
    let text = story.finish()?;
    Ok(Written {
        text: text.into_bytes(),
        status: Status::Fine,
        diagnostic: Ok(None),
    })
}

/// Replays the traffic of these bytes and describes each step.
pub fn walk(
    alloc: Global,
    plan: &Plan,
    kinds: &Kinds,
    detail: Detail,
    bytes: &[u8],
) -> Result<Written, AllocError>
    ensures { IfOk result (λ written.
        IsWalkUnder detail plan.now kinds.now bytes.now written.text.items written.status) }
{
    let traffic = Traffic::read(alloc, Mode::Replay, bytes)?;
    let mut story = Story::new(alloc, detail);
    match reach(alloc, plan, kinds, &traffic, 0, &mut story)? {
        Ok(office) => settled(office, story),
        Err(fault) => refused(alloc, Mode::Replay, bytes, fault),
    }
}
