ghost use Rattle.std.specs.Prelude.{◌≡◌, ◌+◌, ◌*◌, ◌<◌, ◌^◌};
ghost use Rattle.xbar_office.specs.declared.job.Job.TheVariants.{Complete, Dial, Release};

use xbar_equip::{Dialled, Len};
use xbar_office::Job;

/// A call: the line that goes off hook, and the digits that it dials.
#[derive(Clone, Copy)]
pub struct Call {
    /// Below 2^30. The call's jobs have the numbers from `3 * call_no` on: to dial, to complete,
    /// to release.
    pub call_no: u32,
    pub line: Len,
    pub digits: Dialled,
    /// Whether the call is released again, once it is connected.
    pub release: bool,
}
