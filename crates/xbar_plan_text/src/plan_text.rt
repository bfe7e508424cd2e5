ghost use Rattle.std.specs.Prelude.{◌≡◌, IfOk, Ok, Some};
ghost use Rattle.xbar_plan_text.specs.Document.{IsReading, plan_of, version_in};
ghost use Rattle.xbar_plan_text.specs.Refusal.{IsToldReading, malformed_in, missing_in};
ghost use Rattle.xbar_plan_text.specs.declared.read.version.Version.TheVariants.{Two};

use crate::refusal::PlanRefusal;
use crate::{read, write};
use std::alloc::{AllocError, Global};
use xbar_plan::{Plan, PlanFault};

/// Reads and writes plans as TOML.
pub trait PlanText {
    /// Reads a plan in version 1 or 2 of the format, or returns the first fault of the text.
    /// `Memory` may be returned in place of a fault that would be found later.
    fn read(alloc: Global, text: &[u8]) -> Result<Self, PlanFault>;

    /// The same, but a refusal also tells where the fault was found. Telling it takes memory for
    /// the text of an item, so `Memory` may be returned in place of the fault too.
    fn parse(alloc: Global, text: &[u8]) -> Result<Self, PlanRefusal>;

    /// Writes the plan in version 2 of the format. The text reads back as the same plan.
    fn version_2(&self, alloc: Global) -> Result<Vec<u8>, AllocError>;
}

impl PlanText for Plan {
    fn read(alloc: Global, text: &[u8]) -> Result<Self, PlanFault>
        ensures { IsReading (plan_of text.now) result }
    {
        Plan::parse(alloc, text).map_err(|refusal| refusal.fault())
    }

    fn parse(alloc: Global, text: &[u8]) -> Result<Self, PlanRefusal>
        ensures { IsToldReading (plan_of text.now) (missing_in text.now) (malformed_in text.now)
            result }
    {
        read::read(alloc, text)
    }

    fn version_2(&self, alloc: Global) -> Result<Vec<u8>, AllocError>
        ensures version { IfOk result (λ text. version_in text.items ≡ Some Two) }
        ensures tables { IfOk result (λ text. plan_of text.items ≡ Ok self.now) }
    {
        write::version_2(alloc, &self.tables())
    }
}
