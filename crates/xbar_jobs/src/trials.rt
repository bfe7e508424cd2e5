//! The walk that joins the parties of a job, by two trials on a trunk group.

ghost use Rattle.std.specs.Prelude.{◌≡◌, ◌<◌, ◌≤◌, length};
ghost use Rattle.xbar_plan.specs.Tables.{AreGroups};
ghost use Rattle.xbar_jobs.specs.Connecting.{busy_end as busy_end_of, connect as connect_script};
ghost use Rattle.xbar_jobs.specs.Keeping.{AreEffects};
ghost use Rattle.xbar_jobs.specs.Script.{walk_on_words};
ghost use Rattle.xbar_jobs.specs.Trials.{after_first_trial as after_first_script, first_trial_steps, second_trial_at as second_trial_at_script, second_trial_steps, trial_end as trial_end_of, two_trials_steps};

use crate::decision::Decision;
use crate::effect::Effect;
use crate::offices::{Seen, Wanted};
use crate::party::CallParties;
use crate::sides::Sides;
use crate::trunks::{Reached, Trunk, Trunks, find_trunk, next_clear, reach, trunks_of};
use xbar_office::{Aim, Card, Cards, End, TrialEnd, Trials};
use xbar_plan::{Member, Plan};

/// How a trial on a member ends, by the words of its trunk switches and of the line junctor
/// switches.
fn trial_end(
    plan: &Plan,
    sides: &Sides,
    start: u8,
    first: Reached,
    second: Option<Reached>,
) -> TrialEnd
    requires { start < 10 }
    ensures { result ≡ trial_end_of plan.now sides.now start
        (record { first = first; second = second }) }
{
    TrialEnd::of(plan, sides.join(start, &Trunk { first, second }))
}

/// Makes the second trial on this member, from channel 5 on.
#[tactic(auto, using(attempts::proofs::WalksOnWords::live_bind, attempts::proofs::WalksOnWords::live_end), unfolding(crate::specs::Trials::second_trial_steps))]
fn second_trial(
    plan: &Plan,
    seen: &mut Seen,
    words: &mut [u64],
    made: &[Effect],
    sides: &Sides,
    cards: Cards,
    index: usize,
    member: &Member,
) -> Result<Trials, Wanted>
    requires made { AreEffects made.now }
    requires index { index < 40 }
    requires cards { length cards ≤ 1 }
    ensures { record { found = result; state = seen.new; words = words.new }
        ≡ walk_on_words made.now (second_trial_steps plan.now sides.now cards index member.now)
        seen.old words.old }
{
    let trunk = reach(seen, words, made, member)?;
    let end = trial_end(plan, sides, 5, trunk.first, trunk.second);
    Ok(Trials::second(cards, index as u8, end))
}

/// Makes the second trial on the member of this index.
#[tactic(auto, unfolding(crate::specs::Trials::second_trial_at))]
fn second_trial_at(
    plan: &Plan,
    seen: &mut Seen,
    words: &mut [u64],
    made: &[Effect],
    sides: &Sides,
    trunks: &Trunks,
    cards: Cards,
    index: usize,
) -> Result<Trials, Wanted>
    requires made { AreEffects made.now }
    requires index { index < length trunks.now.members }
    requires size { length trunks.now.members ≤ 40 }
    requires cards { length cards ≤ 1 }
    ensures { record { found = result; state = seen.new; words = words.new }
        ≡ walk_on_words made.now (second_trial_at_script plan.now sides.now trunks.now cards index)
        seen.old words.old }
{
    let member = &trunks.members[index];
    second_trial(plan, seen, words, made, sides, cards, index, member)
}

/// What follows the first trial: its choice, or a second trial on the same line junctor switches.
#[tactic(auto, using(attempts::proofs::WalksOnWords::live_end), unfolding(crate::specs::Trials::after_first_trial))]
fn after_first_trial(
    plan: &Plan,
    seen: &mut Seen,
    words: &mut [u64],
    made: &[Effect],
    sides: &Sides,
    trunks: &Trunks,
    first: usize,
    end: TrialEnd,
) -> Result<Trials, Wanted>
    requires made { AreEffects made.now }
    requires index { first < length trunks.now.members }
    requires size { length trunks.now.members ≤ 40 }
    ensures { record { found = result; state = seen.new; words = words.new }
        ≡ walk_on_words made.now (after_first_script plan.now sides.now trunks.now first end)
        seen.old words.old }
{
    let cards = match end {
        TrialEnd::Chosen(call) => return Ok(Trials::first(first as u8, &call)),
        TrialEnd::Faulty(link) => Cards::one(Card { trial: 1, link }),
        TrialEnd::NoChannel => Cards::new(),
    };
    let next = next_clear(trunks.word, trunks.members.len(), first);
    second_trial_at(plan, seen, words, made, sides, trunks, cards, next)
}

/// Makes the first trial on this member, and a second one if it fails.
#[tactic(auto, using(attempts::proofs::WalksOnWords::live_bind), unfolding(crate::specs::Trials::first_trial_steps))]
fn first_trial(
    plan: &Plan,
    seen: &mut Seen,
    words: &mut [u64],
    made: &[Effect],
    parties: &CallParties,
    trunks: &Trunks,
    first: usize,
    member: &Member,
) -> Result<Trials, Wanted>
    requires made { AreEffects made.now }
    requires index { first < length trunks.now.members }
    requires size { length trunks.now.members ≤ 40 }
    ensures { record { found = result; state = seen.new; words = words.new }
        ≡ walk_on_words made.now
        (first_trial_steps plan.now parties.now trunks.now first member.now)
        seen.old words.old }
{
    let trunk = reach(seen, words, made, member)?;
    let sides = Sides::test(seen, words, made, parties)?;
    let end = trial_end(plan, &sides, 0, trunk.first, trunk.second);
    after_first_trial(plan, seen, words, made, &sides, trunks, first, end)
}

/// Makes up to two trials on the group's members: on this idle one, and on the next idle one.
#[tactic(auto, unfolding(crate::specs::Trials::two_trials_steps))]
pub fn two_trials(
    plan: &Plan,
    seen: &mut Seen,
    words: &mut [u64],
    made: &[Effect],
    parties: &CallParties,
    trunks: &Trunks,
    first: usize,
) -> Result<Trials, Wanted>
    requires made { AreEffects made.now }
    requires index { first < length trunks.now.members }
    requires size { length trunks.now.members ≤ 40 }
    ensures { record { found = result; state = seen.new; words = words.new }
        ≡ walk_on_words made.now (two_trials_steps plan.now parties.now trunks.now first)
        seen.old words.old }
{
    first_trial(
        plan,
        seen,
        words,
        made,
        parties,
        trunks,
        first,
        &trunks.members[first],
    )
}

/// The end of a job for which no group has an idle member.
fn busy_end(aim: Aim) -> End
    ensures { result ≡ busy_end_of aim }
{
    match aim {
        Aim::DialTone => End::RegistersBusy,
        Aim::Connected => End::TrunksBusy,
    }
}

/// Joins the parties by a member of the first of these groups that has an idle one.
#[tactic(auto, using(attempts::proofs::WalksOnWords::live_bind, attempts::proofs::WalksOnWords::live_end), unfolding(crate::specs::Connecting::connect, crate::specs::Connecting::try_trunk))]
pub fn connect(
    plan: &Plan,
    seen: &mut Seen,
    words: &mut [u64],
    made: &[Effect],
    aim: Aim,
    parties: &CallParties,
    groups: &[u8],
) -> Result<Decision, Wanted>
    requires made { AreEffects made.now }
    requires groups { AreGroups plan.now groups.now }
    ensures { record { found = result; state = seen.new; words = words.new }
        ≡ walk_on_words made.now
        (connect_script plan.now aim parties.now groups.now) seen.old words.old }
{
    let Some(idle) = find_trunk(plan, seen, words, made, groups)? else {
        return Ok(Decision::refused(busy_end(aim)));
    };
    let trunks = trunks_of(plan, idle.group, idle.word);
    let first = usize::from(idle.first);
    let trials = two_trials(plan, seen, words, made, parties, &trunks, first)?;
    Ok(Decision::tried(aim, idle.group, trials))
}
