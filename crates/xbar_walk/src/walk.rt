//! Makes the steps of markers and describes each of them.

ghost use Rattle.std.specs.Prelude.{◌≡◌, ◌<◌, ◌≤◌, OnOk, drop, false, length};
ghost use Rattle.xbar_moves.specs.Moves.{after_step};
ghost use Rattle.xbar_walk.specs.Items.{step_item};
ghost use Rattle.xbar_walk.specs.Observers.{ChangesAs};
ghost use Rattle.xbar_walk.specs.Stories.{AddsStep, IsStory};
ghost use Rattle.xbar_walk.specs.Walks.{is_idle_in, observation_of, walk_of_step};

use crate::observer::Observer;
use crate::story::Story;
use std::alloc::AllocError;
use xbar_core::Exchange;
use xbar_office::Job;
use xbar_step_text::{Observation, found_by};

/// Makes the marker's next step and returns what is observed of it.
fn make_step(exchange: &mut Exchange<'_>, marker: u32) -> Observation
    requires { marker < length exchange.old.exchange.markers }
    ensures step { exchange.new ≡ record exchange.old {
      exchange = after_step exchange.old.plan marker exchange.old.exchange;
    } }
    ensures observed { result ≡ observation_of exchange.old.plan marker exchange.old.exchange }
{
    let step = exchange.next_step(marker);
    let found = found_by(exchange.words(), &step);
    let event = exchange.step(marker);
    let next = exchange.next_step(marker);
    Observation::new(step, found, event, next)
}

/// Adds the step that was just made to the story. There were `before` records before it.
fn add_made(
    exchange: &Exchange<'_>,
    before: usize,
    marker: u32,
    observed: &Observation,
    story: &mut Story,
) -> Result<(), AllocError>
    requires { before ≤ length exchange.now.exchange.records }
    ensures { OnOk result (AddsStep
        (λ detail number. step_item detail number marker observed.now
        (drop before exchange.now.exchange.records)) story.old story.new) }
{
    let records = exchange.records();
    story.add_step(marker, observed, &records[before..])
}

/// Makes the next step of a marker that isn't idle, and describes it. If memory runs out, the step
/// is made, and a part of its lines may have been added.
fn walk_step(exchange: &mut Exchange<'_>, marker: u32, story: &mut Story) -> Result<(), AllocError>
    requires within { marker < length exchange.old.exchange.markers }
    requires goes { is_idle_in exchange.old.exchange marker ≡ false }
    ensures step { exchange.new ≡ record exchange.old {
      exchange = after_step exchange.old.plan marker exchange.old.exchange;
    } }
    ensures observed { OnOk result (ChangesAs IsStory (walk_of_step marker)
        exchange.old story.old exchange.new story.new) }
{
    let before = exchange.records().len();
    let observed = make_step(exchange, marker);
    add_made(exchange, before, marker, &observed, story)?;
    Ok(())
}

/// Describes each step as soon as it is made. If memory runs out, some of the steps may have been
/// made.
impl Observer for Story {
    ghost use Rattle.std.specs.Prelude.{⊤};

    ghost Describes = { IsStory };

    ghost MayFail = { ⊤ };

    fn assigned(&mut self, marker: u32, job_no: u32, job: &Job) -> Result<(), AllocError> {
        self.add_assignment(marker, job_no, job)
    }

    fn steps(
        &mut self,
        office: &mut Exchange<'_>,
        marker: u32,
        count: u32,
    ) -> Result<(), AllocError> {
        for _made in 0..count {
            if office.is_idle(marker) {
                return Ok(());
            }
            walk_step(office, marker, self)?;
        }
        Ok(())
    }

    fn settles(&mut self) -> Result<(), AllocError> {
        self.add_settling()
    }
}
