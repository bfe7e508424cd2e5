//! The walk of a dial tone job.

ghost use Rattle.std.specs.Prelude.{◌≡◌, []};
ghost use Rattle.xbar_jobs.specs.Jobs.{dial_steps};
ghost use Rattle.xbar_jobs.specs.Script.{walk_on_words};
ghost use Rattle.xbar_jobs.specs.Tracing.{ResumePointIsValid};

use crate::decision::Decision;
use crate::offices::{Seen, Wanted};
use crate::party::CallParties;
use crate::trials::connect;
use crate::walk::WalkProgress;
use xbar_equip::Len;
use xbar_office::{Aim, End};
use xbar_plan::Plan;

/// Walks a dial tone job, from the resume point of the earlier walks.
#[tactic(auto, using(attempts::proofs::WalksOnWords::live_bind, attempts::proofs::WalksOnWords::live_end), unfolding(crate::specs::Jobs::dial_steps, crate::specs::Jobs::serve_idle_line))]
// Not inlined into every walk, like the other jobs.
#[inline(never)]
pub fn dial(
    plan: &Plan,
    seen: &mut Seen,
    words: &mut [u64],
    line: Len,
    point: &mut WalkProgress,
) -> Result<Decision, Wanted>
    requires { ResumePointIsValid line point.old seen.old.seen }
    ensures walk { record { found = result; state = seen.new; words = words.new }
        ≡ walk_on_words [] (dial_steps plan.now line) seen.old words.old }
    ensures valid_point { ResumePointIsValid line point.new seen.new.seen }
{
    let calling = point.approach(seen, words, line)?;
    if calling.channel().is_some() {
        return Ok(Decision::refused(End::LineBusy));
    }
    let parties = CallParties::alone(&calling);
    let groups = [plan.register_group()];
    connect(plan, seen, words, &[], Aim::DialTone, &parties, &groups)
}
