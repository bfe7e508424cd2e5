//! Trunk groups and their members, as a marker reads them from words.

ghost use Rattle.std.specs.Prelude.{◌≡◌, ◌<◌, ◌≤◌, IfOk, IfSome, length};
ghost use Rattle.xbar_equip.specs.First.{first_below, next_below};
ghost use Rattle.xbar_plan.specs.Tables.{AreGroups};
ghost use Rattle.xbar_jobs.specs.Keeping.{AreEffects};
ghost use Rattle.xbar_jobs.specs.Script.{walk_on_words};
ghost use Rattle.xbar_jobs.specs.Trunks.{IsOfPlan, find_trunk as find_trunk_script, is_bit_clear as is_bit_clear_of, trunks_of as trunks_by};
ghost use Rattle.xbar_jobs.specs.Sides.{reach as reach_script, test_place as test_place_script, test_second as test_second_script};

use crate::effect::{Effect, made as made_by};
use crate::offices::{Seen, Wanted};
use crate::seen::{require_held, value_of};
use std::marker::Model;
use xbar_equip::{Conn, Ten, group_word, trunk_switch};
use xbar_plan::{Member, Plan};

/// A group that has an idle member: its number, its word's value, and its first idle member's
/// index.
#[derive(Clone, Copy)]
pub struct IdleGroup {
    pub group: u8,
    pub word: u64,
    pub first: u8,
}

/// The members of a trunk group, and the value of the group's word.
#[derive(Drop)]
pub struct Trunks<'p> {
    pub members: &'p [Member],
    pub word: u64,
}

impl<'p> Model for Trunks<'p> {
    ghost use Rattle.xbar_jobs.specs.Trunks.{Trunks};

    ghost Value = { Trunks };

    ghost view = { λ a. record { members = a.members.now; word = a.word } };
}

fn is_bit_clear(word: u64, index: usize) -> bool
    requires { index < 64 }
    ensures { result ≡ is_bit_clear_of word index }
{
    word >> index & 1 == 0
}

/// The first of `count` members whose bit is 0.
fn first_clear(word: u64, count: usize) -> Option<usize>
    requires { count ≤ 40 }
    ensures first { result ≡ first_below (is_bit_clear_of word) count }
    ensures bound { IfSome result (λ index. index < count) }
{
    for index in 0..count {
        if is_bit_clear(word, index) {
            return Some(index);
        }
    }
    None
}

/// The next member whose bit is 0, or this one again if none follows.
pub fn next_clear(word: u64, count: usize, index: usize) -> usize
    requires index { index < count }
    requires size { count ≤ 40 }
    ensures next { result ≡ next_below (is_bit_clear_of word) count index }
    ensures bound { result < count }
{
    for next in index + 1..count {
        if is_bit_clear(word, next) {
            return next;
        }
    }
    index
}

/// The members of a group of the plan, with the value of the group's word.
pub fn trunks_of(plan: &Plan, group: u8, word: u64) -> Trunks<'_>
    requires { group < length plan.now.groups }
    ensures trunks { result ≡ trunks_by plan.now group word }
    ensures size { length result.members ≤ 40 }
{
    Trunks {
        members: plan.group(group).members(),
        word,
    }
}

/// Finds the first of some groups that has an idle member. Seizes the groups and tests their words
/// in order, until one has.
pub fn find_trunk(
    plan: &Plan,
    seen: &mut Seen,
    words: &mut [u64],
    made: &[Effect],
    groups: &[u8],
) -> Result<Option<IdleGroup>, Wanted>
    requires made { AreEffects made.now }
    requires groups { AreGroups plan.now groups.now }
    ensures walk { record { found = result; state = seen.new; words = words.new }
        ≡ walk_on_words made.now (find_trunk_script plan.now groups.now) seen.old words.old }
    ensures range { IfOk result (λ found. IfSome found (λ idle. IsOfPlan plan.now idle)) }
{
    // Called only for its contract.
    xbar_plan::laws::every_plan_is_lawful(plan);
    for group in groups {
        let group = *group;
        require_held(seen, words, Conn::Group(group))?;
        let word = value_of(seen, words, made, group_word(group))?;
        let trunks = trunks_of(plan, group, word);
        if let Some(first) = first_clear(word, trunks.members.len()) {
            return Ok(Some(IdleGroup {
                group,
                word,
                first: first as u8,
            }));
        }
    }
    Ok(None)
}

/// A trunk place, and the value of its switch word.
#[derive(Clone, Copy)]
pub struct Reached {
    pub place: Ten,
    pub word: u64,
}

impl Reached {
    ghost use Rattle.xbar_jobs.specs.Sides.{reached_after};

    /// The place with its word as effects will leave it.
    pub fn after(&self, effects: &[Effect]) -> Self
        requires { AreEffects effects.now }
        ensures { result ≡ reached_after effects.now self.now }
    {
        let place = self.place;
        let number = trunk_switch(place.frame(), place.switch());
        Reached {
            place,
            word: made_by(effects, number, self.word),
        }
    }
}

/// A member of a trunk group that was reached: its place, or both places of a pair.
#[derive(Clone, Copy)]
pub struct Trunk {
    pub first: Reached,
    pub second: Option<Reached>,
}

/// Tests the trunk switch of a place.
#[tactic(auto, using(attempts::proofs::WalksOnWords::live_bind, attempts::proofs::WalksOnWords::live_end), unfolding(crate::specs::Sides::test_place))]
fn test_place(
    seen: &mut Seen,
    words: &[u64],
    made: &[Effect],
    place: Ten,
) -> Result<Reached, Wanted>
    requires made { AreEffects made.now }
    ensures { record { found = result; state = seen.new; words = words.now }
        ≡ walk_on_words made.now (test_place_script place) seen.old words.now }
{
    let word = value_of(
        seen,
        words,
        made,
        trunk_switch(place.frame(), place.switch()),
    )?;
    Ok(Reached { place, word })
}

/// Tests the trunk switch of the second place, if there is one.
#[tactic(auto, using(attempts::proofs::WalksOnWords::live_bind, attempts::proofs::WalksOnWords::live_end), unfolding(crate::specs::Sides::test_second))]
fn test_second(
    seen: &mut Seen,
    words: &[u64],
    made: &[Effect],
    place: Option<Ten>,
) -> Result<Option<Reached>, Wanted>
    requires made { AreEffects made.now }
    ensures { record { found = result; state = seen.new; words = words.now }
        ≡ walk_on_words made.now (test_second_script place) seen.old words.now }
{
    match place {
        None => Ok(None),
        Some(place) => Ok(Some(test_place(seen, words, made, place)?)),
    }
}

/// Reaches a member: seizes its trunk link frame and tests the trunk switches of its places.
#[tactic(auto, using(attempts::proofs::WalksOnWords::live_bind, attempts::proofs::WalksOnWords::live_end), unfolding(crate::specs::Sides::reach))]
#[inline(always)]
pub fn reach(
    seen: &mut Seen,
    words: &mut [u64],
    made: &[Effect],
    member: &Member,
) -> Result<Trunk, Wanted>
    requires made { AreEffects made.now }
    ensures { record { found = result; state = seen.new; words = words.new }
        ≡ walk_on_words made.now (reach_script member.now) seen.old words.old }
{
    require_held(seen, words, Conn::Tlf(member.first.frame()))?;
    let first = test_place(seen, words, made, member.first)?;
    let second = test_second(seen, words, made, member.second)?;
    Ok(Trunk { first, second })
}
