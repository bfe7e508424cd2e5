use std::alloc::AllocError;
use xbar_core::Exchange;
use xbar_office::Job;

/// Has the markers of an office make steps, and may describe what they do.
pub trait Observer {
    ghost use Rattle.std.specs.Prelude.{◌≡◌, ◌<◌, ℕ, List, OnErr, OnOk, length};
    ghost use Rattle.xbar_moves.specs.Moves.{steps as after_steps};
    ghost use Rattle.xbar_walk.specs.Items.{Item, assignment_item, settling_item};
    ghost use Rattle.xbar_walk.specs.Observers.{Adds, ChangesAs};
    ghost use Rattle.xbar_walk.specs.Walks.{walk_of_steps};
    ghost use Rattle.xbar_walk.specs.declared.detail.Detail.{Detail};

    // What was observed so far is described by these items, in this detail. The last step has this
    // number.
    ghost Describes: { Self → Detail → ℕ → List Item → Type 0 };

    // A description may fail: memory may run out.
    ghost MayFail: { Type 0 };

    /// Describes that a marker was assigned a job.
    fn assigned(&mut self, marker: u32, job_no: u32, job: &Job) -> Result<(), AllocError>
        ensures adds { OnOk result (Adds Describes
            (λ detail. assignment_item detail marker job_no job.now) self.old self.new) }
        ensures fails { OnErr result MayFail };

    /// Makes `count` steps of the marker, fewer if it is idle before, and describes each.
    fn steps(
        &mut self,
        office: &mut Exchange<'_>,
        marker: u32,
        count: u32,
    ) -> Result<(), AllocError>
        requires { marker < length office.old.exchange.markers }
        ensures office { OnOk result (office.new ≡ record office.old {
          exchange = after_steps office.old.plan marker count office.old.exchange;
        }) }
        ensures observed { OnOk result (ChangesAs Describes (walk_of_steps marker count)
            office.old self.old office.new self.new) }
        ensures fails { OnErr result MayFail };

    /// Describes that no row is left and the office settles.
    fn settles(&mut self) -> Result<(), AllocError>
        ensures adds { OnOk result (Adds Describes settling_item self.old self.new) }
        ensures fails { OnErr result MayFail };
}

/// An observer that describes nothing, and so never fails.
#[derive(Clone, Copy, Debug)]
pub struct Unobserved;

impl Observer for Unobserved {
    ghost use Rattle.std.specs.Prelude.{⊤};

    ghost Describes = { λ _ _ _ _. ⊤ };

    ghost MayFail = { ⊥ };

    fn assigned(&mut self, _marker: u32, _job_no: u32, _job: &Job) -> Result<(), AllocError> {
        Ok(())
    }

    fn steps(
        &mut self,
        office: &mut Exchange<'_>,
        marker: u32,
        count: u32,
    ) -> Result<(), AllocError> {
        office.steps(marker, count);
        Ok(())
    }

    fn settles(&mut self) -> Result<(), AllocError> {
        Ok(())
    }
}
