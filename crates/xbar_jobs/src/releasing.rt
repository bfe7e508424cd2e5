//! The walk of a release.

ghost use Rattle.std.specs.Prelude.{◌≡◌, []};
ghost use Rattle.xbar_jobs.specs.Releasing.{release_from as release_from_script, release_steps, trace_other as trace_other_script};
ghost use Rattle.xbar_jobs.specs.Script.{walk_on_words};
ghost use Rattle.xbar_jobs.specs.Tracing.{ResumePointIsValid};

use crate::decision::{Decision, Leave};
use crate::offices::{Seen, Wanted};
use crate::seen::require_held;
use crate::tracing::trace_back;
use crate::walk::WalkProgress;
use xbar_equip::{Conn, Len, Path, Ten};
use xbar_office::End;
use xbar_plan::Plan;

/// Traces the other party's path back from the other place of a pair, if the member is one.
#[tactic(auto, using(attempts::proofs::WalksOnWords::live_end), unfolding(crate::specs::Releasing::trace_other))]
fn trace_other(
    seen: &mut Seen,
    words: &mut [u64],
    place: Option<Ten>,
) -> Result<Option<Path>, Wanted>
    ensures { record { found = result; state = seen.new; words = words.new }
        ≡ walk_on_words [] (trace_other_script place) seen.old words.old }
{
    match place {
        None => Ok(None),
        Some(place) => trace_back(seen, words, place),
    }
}

/// Lets go the member at the end of the line's own path: seizes its group, and traces the other
/// party's path if it is a pair.
#[tactic(auto, using(attempts::proofs::WalksOnWords::live_bind, attempts::proofs::WalksOnWords::live_end), unfolding(crate::specs::Releasing::release_from, crate::specs::Releasing::release_member))]
fn release_from(
    plan: &Plan,
    seen: &mut Seen,
    words: &mut [u64],
    own: &Option<Path>,
) -> Result<Decision, Wanted>
    ensures { record { found = result; state = seen.new; words = words.new }
        ≡ walk_on_words [] (release_from_script plan.now own.now) seen.old words.old }
{
    let Some(own) = own else {
        return Ok(Decision::refused(End::NoCall));
    };
    let Some(found) = plan.member_of(own.place) else {
        return Ok(Decision::refused(End::NoCall));
    };
    require_held(seen, words, Conn::Group(found.group))?;
    let other = trace_other(seen, words, found.other)?;
    Ok(Decision::released(Leave::of(own, &other, &found)))
}

/// Walks a release, from the resume point of the earlier walks.
#[tactic(auto, using(attempts::proofs::WalksOnWords::live_bind), unfolding(crate::specs::Releasing::release_steps))]
// Not inlined into every walk: a dial tone job would pay for its locals.
#[inline(never)]
pub fn release(
    plan: &Plan,
    seen: &mut Seen,
    words: &mut [u64],
    line: Len,
    point: &mut WalkProgress,
) -> Result<Decision, Wanted>
    requires { ResumePointIsValid line point.old seen.old.seen }
    ensures walk { record { found = result; state = seen.new; words = words.new }
        ≡ walk_on_words [] (release_steps plan.now line) seen.old words.old }
    ensures valid_point { ResumePointIsValid line point.new seen.new.seen }
{
    let calling = point.approach(seen, words, line)?;
    let own = point.trace(seen, words, line, &calling)?;
    release_from(plan, seen, words, &own)
}
