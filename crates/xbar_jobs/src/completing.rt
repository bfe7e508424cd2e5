//! The walk of a completing job.

ghost use Rattle.std.specs.Prelude.{◌≡◌, ◌<◌, IfSome, []};
ghost use Rattle.xbar_plan.specs.Tables.{AreGroups, lines_of, route_of};
ghost use Rattle.xbar_jobs.specs.Completing.{call as call_script, call_number as call_number_script, call_without as call_without_script, complete_steps, hunt as hunt_script, register_at as register_at_of};
ghost use Rattle.xbar_jobs.specs.Keeping.{AreEffects};
ghost use Rattle.xbar_jobs.specs.Script.{walk_on_words};
ghost use Rattle.xbar_jobs.specs.Tracing.{ResumePointIsValid};
ghost use Rattle.xbar_equip.specs.Dialled.{code_of};

use crate::decision::{Decision, Leave};
use crate::effect::{Effect, Effects};
use crate::offices::{Seen, Wanted};
use crate::party::{CallParties, Party};
use crate::seen::require_held;
use crate::tracing::approach;
use crate::trials::connect;
use crate::walk::WalkProgress;
use xbar_equip::{Conn, Dialled, DirNo, Len, Path};
use xbar_office::{Aim, End, leads_inside};
use xbar_plan::{MemberPlace, Plan};

/// Finds the first idle line of a number that isn't the calling line. Approaches the lines in
/// order until one is idle.
#[tactic(auto, using(attempts::proofs::WalksOnWords::live_bind, attempts::proofs::WalksOnWords::live_end), unfolding(crate::specs::Completing::hunt, crate::specs::Completing::unless_calling, crate::specs::Completing::unless_busy))]
fn hunt(
    seen: &mut Seen,
    words: &mut [u64],
    made: &[Effect],
    calling: Len,
    lines: &[Len],
) -> Result<Option<Party>, Wanted>
    requires made { AreEffects made.now }
    ensures { record { found = result; state = seen.new; words = words.new }
        ≡ walk_on_words made.now (hunt_script calling lines.now) seen.old words.old }
{
    for line in lines {
        if *line == calling {
            continue;
        }
        let party = approach(seen, words, made, *line)?;
        if party.channel().is_none() {
            return Ok(Some(party));
        }
    }
    Ok(None)
}

/// Decides a call to a number of the office.
#[tactic(auto, using(attempts::proofs::WalksOnWords::live_bind, attempts::proofs::WalksOnWords::live_end), unfolding(crate::specs::Completing::call_number, crate::specs::Completing::call_line))]
fn call_number(
    plan: &Plan,
    seen: &mut Seen,
    words: &mut [u64],
    made: &[Effect],
    calling: &Party,
    groups: &[u8],
    number: DirNo,
) -> Result<Decision, Wanted>
    requires made { AreEffects made.now }
    requires groups { AreGroups plan.now groups.now }
    ensures { record { found = result; state = seen.new; words = words.new }
        ≡ walk_on_words made.now
        (call_number_script plan.now calling.now groups.now (lines_of plan.now number))
        seen.old words.old }
{
    let Some(lines) = plan.stations(number) else {
        return Ok(Decision::refused(End::VacantNumber));
    };
    let Some(called) = hunt(seen, words, made, calling.line, lines)? else {
        return Ok(Decision::refused(End::CalledBusy));
    };
    let parties = CallParties {
        calling: *calling,
        called: Some(called),
    };
    connect(plan, seen, words, made, Aim::Connected, &parties, groups)
}

/// Decides a call by the trunk groups that its code leads to. Its number counts only if they lead
/// inside the office.
#[tactic(auto, using(attempts::proofs::WalksOnWords::live_end), unfolding(crate::specs::Completing::call, crate::specs::Completing::call_by))]
fn call(
    plan: &Plan,
    seen: &mut Seen,
    words: &mut [u64],
    made: &[Effect],
    calling: &Party,
    dialled: Dialled,
) -> Result<Decision, Wanted>
    requires made { AreEffects made.now }
    ensures { record { found = result; state = seen.new; words = words.new }
        ≡ walk_on_words made.now
        (call_script plan.now calling.now dialled (route_of plan.now (code_of dialled)))
        seen.old words.old }
{
    let Some(groups) = plan.route(dialled.code()) else {
        return Ok(Decision::refused(End::VacantCode));
    };
    if leads_inside(plan, groups) {
        call_number(plan, seen, words, made, calling, groups, dialled.number())
    } else {
        let alone = CallParties::alone(calling);
        connect(plan, seen, words, made, Aim::Connected, &alone, groups)
    }
}

/// Seizes the register's group, and decides the call on the words as they will be once the
/// register is let go.
#[tactic(auto, using(attempts::proofs::WalksOnWords::live_bind, attempts::proofs::WalksOnWords::live_end), unfolding(crate::specs::Completing::call_without))]
fn call_without(
    plan: &Plan,
    seen: &mut Seen,
    words: &mut [u64],
    calling: &Party,
    dialled: Dialled,
    leave: Leave,
) -> Result<Decision, Wanted>
    requires group { leave.group < 16 }
    requires index { leave.index < 40 }
    ensures { record { found = result; state = seen.new; words = words.new }
        ≡ walk_on_words []
        (call_without_script plan.now calling.now dialled leave) seen.old words.old }
{
    require_held(seen, words, Conn::Group(leave.group))?;
    let mut effects = Effects::new();
    leave.add_effects(&mut effects);
    let effects = effects.as_slice();
    let decision = call(plan, seen, words, effects, &calling.after(effects), dialled)?;
    Ok(decision.leaving(leave))
}

/// The register at which a path ends, if it ends at one.
fn register_at(plan: &Plan, own: &Path) -> Option<MemberPlace>
    ensures register { result ≡ register_at_of plan.now own.now }
    ensures range { IfSome result (λ found. (found.group < 16) × (found.index < 40)) }
{
    let found = plan.member_of(own.place)?;
    if found.group == plan.register_group() {
        Some(found)
    } else {
        None
    }
}

/// Walks a completing job, from the resume point of the earlier walks.
#[tactic(auto, using(attempts::proofs::WalksOnWords::live_bind, attempts::proofs::WalksOnWords::live_end), unfolding(crate::specs::Completing::complete_steps, crate::specs::Completing::complete_from, crate::specs::Completing::call_from))]
// Not inlined into every walk: a dial tone job would pay for its locals.
#[inline(never)]
pub fn complete(
    plan: &Plan,
    seen: &mut Seen,
    words: &mut [u64],
    line: Len,
    dialled: Dialled,
    point: &mut WalkProgress,
) -> Result<Decision, Wanted>
    requires { ResumePointIsValid line point.old seen.old.seen }
    ensures walk { record { found = result; state = seen.new; words = words.new }
        ≡ walk_on_words [] (complete_steps plan.now line dialled) seen.old words.old }
    ensures valid_point { ResumePointIsValid line point.new seen.new.seen }
{
    let calling = point.approach(seen, words, line)?;
    let Some(own) = point.trace(seen, words, line, &calling)? else {
        return Ok(Decision::refused(End::NoRegister));
    };
    let Some(found) = register_at(plan, &own) else {
        return Ok(Decision::refused(End::NoRegister));
    };
    let leave = Leave::of(&own, &None, &found);
    call_without(plan, seen, words, &calling, dialled, leave)
}
