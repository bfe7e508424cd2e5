//! The sides of a call: what a marker has read in the parties' frames, and the paths that it finds
//! by that.

ghost use Rattle.std.specs.Prelude.{◌≡◌, ◌<◌, IfSome, option_map};
ghost use Rattle.xbar_jobs.specs.Keeping.{AreEffects};
ghost use Rattle.xbar_jobs.specs.Script.{walk_on_words};
ghost use Rattle.xbar_jobs.specs.Sides.{IsNextJunctor, join as join_of, join_called as join_called_of, junctors_after as junctors_after_of, open_path as open_path_of, test_called as test_called_script, test_junctors as junctors_script, test_side as test_side_script, test_sides as test_sides_script};

use crate::effect::{Effect, Effects, close_path, made as made_by};
use crate::offices::{Seen, Wanted};
use crate::party::{CallParties, Party};
use crate::seen::value_of;
use crate::trunks::{Reached, Trunk};
use std::marker::Model;
use xbar_equip::{Path, line_junctor};
use xbar_match::match_channel;
use xbar_office::CallPaths;

/// One side of a call: the party, and the words of its frame's ten line junctor switches.
#[derive(Drop)]
pub struct Side {
    party: Party,
    junctors: [u64; 10],
}

impl Model for Side {
    ghost use Rattle.xbar_jobs.specs.Sides.{Side};

    ghost Value = { Side };

    ghost view = { λ a. record { party = a.party; junctors = a.junctors } };
}

/// Both sides of a call, or the calling one alone.
#[derive(Drop)]
pub struct Sides {
    calling: Side,
    called: Option<Side>,
}

impl Model for Sides {
    ghost use Rattle.xbar_jobs.specs.Sides.{Sides};

    ghost Value = { Sides };

    ghost view = { λ a. record { calling = a.calling; called = a.called } };
}

/// Tests the ten line junctor switches of a frame in order, and returns their words.
#[tactic(auto, using(attempts::proofs::WalksOnWords::live_bind), unfolding(crate::specs::Sides::test_junctors))]
fn test_junctors(
    seen: &mut Seen,
    words: &[u64],
    made: &[Effect],
    frame: u8,
) -> Result<[u64; 10], Wanted>
    requires made { AreEffects made.now }
    requires frame { frame < 10 }
    ensures { record { found = result; state = seen.new; words = words.now }
        ≡ walk_on_words made.now (junctors_script frame 0 10) seen.old words.now }
{
    let mut row = [0; 10];
    for channel in 0..10 {
        row[usize::from(channel)] = value_of(seen, words, made, line_junctor(frame, channel))?;
    }
    Ok(row)
}

/// The line junctor switch that is tested after this one. None if this word isn't a line junctor
/// switch, or is the last of its frame.
pub fn next_junctor(word: usize) -> Option<usize>
    ensures { IfSome result (λ next. IsNextJunctor word next) }
{
    let frame = word / 20;
    let place = word % 20;
    if frame < 10 && place >= 10 && place < 19 {
        Some(word + 1)
    } else {
        None
    }
}

/// The words of a frame's line junctor switches as effects will leave them.
fn junctors_after(effects: &[Effect], frame: u8, junctors: &[u64; 10]) -> [u64; 10]
    requires frame { frame < 10 }
    requires effects { AreEffects effects.now }
    ensures { result ≡ junctors_after_of effects.now frame 0 junctors.now }
{
    let mut words = *junctors;
    for channel in 0..10 {
        let index = usize::from(channel);
        words[index] = made_by(effects, line_junctor(frame, channel), words[index]);
    }
    words
}

impl Side {
    ghost use Rattle.xbar_jobs.specs.Sides.{side_after};

    /// Tests the line junctor switches of the party's frame.
    #[tactic(auto, using(attempts::proofs::WalksOnWords::live_bind, attempts::proofs::WalksOnWords::live_end), unfolding(crate::specs::Sides::test_side))]
    fn test(seen: &mut Seen, words: &[u64], made: &[Effect], party: &Party) -> Result<Side, Wanted>
        requires made { AreEffects made.now }
        ensures { record { found = result; state = seen.new; words = words.now }
            ≡ walk_on_words made.now (test_side_script party.now) seen.old words.now }
    {
        let junctors = test_junctors(seen, words, made, party.line.frame())?;
        Ok(Side {
            party: *party,
            junctors,
        })
    }

    /// The side with its words as effects will leave them.
    fn after(&self, effects: &[Effect]) -> Self
        requires { AreEffects effects.now }
        ensures { result ≡ side_after effects.now self.now }
    {
        let frame = self.party.line.frame();
        Side {
            party: self.party.after(effects),
            junctors: junctors_after(effects, frame, &self.junctors),
        }
    }

    /// The path to a place by the first channel, from `start` on, whose three fields are open.
    fn open_path(&self, start: u8, reached: &Reached) -> Option<Path>
        requires { start < 10 }
        ensures { result ≡ open_path_of self.now start reached.now }
    {
        let line = self.party.line;
        let place = reached.place;
        let channel = match_channel(
            self.party.word,
            &self.junctors,
            reached.word,
            place.frame(),
            start,
        )?;
        Some(Path {
            line,
            channel,
            place,
        })
    }
}

/// Tests the called side, if there is a called party.
#[tactic(auto, using(attempts::proofs::WalksOnWords::live_bind, attempts::proofs::WalksOnWords::live_end), unfolding(crate::specs::Sides::test_called))]
fn test_called(
    seen: &mut Seen,
    words: &[u64],
    made: &[Effect],
    party: &Option<Party>,
) -> Result<Option<Side>, Wanted>
    requires made { AreEffects made.now }
    ensures { record { found = result; state = seen.new; words = words.now }
        ≡ walk_on_words made.now (test_called_script party.now) seen.old words.now }
{
    match party {
        None => Ok(None),
        Some(party) => Ok(Some(Side::test(seen, words, made, party)?)),
    }
}

/// Joins the called side to the second place, on the words as they will be once the calling path
/// is closed.
// Not inlined into every walk: a dial tone job would pay for its locals.
#[inline(never)]
fn join_called(
    side: &Option<Side>,
    start: u8,
    reached: &Option<Reached>,
    calling: &Path,
) -> Option<CallPaths>
    requires { start < 10 }
    ensures { result ≡ join_called_of side.now start reached.now calling.now }
{
    let (Some(side), Some(reached)) = (side, reached) else {
        return Some(CallPaths {
            calling: *calling,
            called: None,
        });
    };
    let mut closes = Effects::new();
    close_path(&mut closes, calling);
    let closes = closes.as_slice();
    let called = side.after(closes).open_path(start, &reached.after(closes))?;
    Some(CallPaths {
        calling: *calling,
        called: Some(called),
    })
}

impl Sides {
    /// Tests the line junctor switches of the parties' frames.
    #[tactic(auto, using(attempts::proofs::WalksOnWords::live_bind, attempts::proofs::WalksOnWords::live_end), unfolding(crate::specs::Sides::test_sides))]
    pub fn test(
        seen: &mut Seen,
        words: &[u64],
        made: &[Effect],
        parties: &CallParties,
    ) -> Result<Sides, Wanted>
        requires made { AreEffects made.now }
        ensures { record { found = result; state = seen.new; words = words.now }
            ≡ walk_on_words made.now (test_sides_script parties.now) seen.old words.now }
    {
        let calling = Side::test(seen, words, made, &parties.calling)?;
        let called = test_called(seen, words, made, &parties.called)?;
        Ok(Sides { calling, called })
    }

    /// The paths that join the sides to a member, if each side finds a channel.
    pub fn join(&self, start: u8, trunk: &Trunk) -> Option<CallPaths>
        requires { start < 10 }
        ensures { result ≡ join_of self.now start trunk.now }
    {
        let calling = self.calling.open_path(start, &trunk.first)?;
        join_called(&self.called, start, &trunk.second, &calling)
    }
}
