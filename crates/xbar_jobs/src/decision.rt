//! What a job decides before its turn, and the effects that carry it out.

ghost use Rattle.std.specs.Prelude.{◌≡◌, ◌≤◌, length, option_map, ◌<◌, ◌+◌, ◌^◌, IfSome, drop, slice_get, ◌++◌};
ghost use Rattle.xbar_jobs.specs.Closing.{effects as effects_of};
ghost use Rattle.xbar_jobs.specs.Keeping.{AreEffects};
ghost use Rattle.xbar_jobs.specs.Standing.{most_effects};
ghost use Rattle.arrayvec.specs.ArrayVec.{array_vec_len};

use crate::effect::{Effect, Effects, OfficeEffect, close_path, open_path};
use std::marker::Model;
use xbar_equip::Path;
use xbar_office::{Aim, CallPaths, Choice, End, Reply, Trials};
use xbar_plan::MemberPlace;

/// What a job decides before its turn: its reply, what it lets go, and what it takes.
#[derive(Debug, Drop)]
pub struct Decision {
    pub reply: Reply,
    pub leave: Option<Leave>,
    pub take: Option<Take>,
}

impl Decision {
    ghost use Rattle.xbar_jobs.specs.Closing.{effects as effects_of_decision, leaving as leaving_by, refused as refused_by, released as released_by, take_of as take_by, tried as tried_by};

    /// A decision that lets nothing go and takes nothing.
    pub fn refused(end: End) -> Self
        ensures { result ≡ refused_by end }
    {
        Decision {
            reply: Reply::plain(end),
            leave: None,
            take: None,
        }
    }

    /// The decision after the trials on a group: it takes the member that was chosen, if one was.
    pub fn tried(aim: Aim, group: u8, trials: Trials) -> Self
        ensures { result ≡ tried_by aim group trials }
    {
        Decision {
            take: Decision::take_of(group, &trials.choice),
            leave: None,
            reply: Reply::of_trials(aim, trials),
        }
    }

    /// The decision of a release: it lets a call go and takes nothing.
    pub fn released(leave: Leave) -> Self
        ensures { result ≡ released_by leave }
    {
        let end = End::Released {
            own: leave.own,
            other: leave.other,
        };
        Decision {
            reply: Reply::plain(end),
            leave: Some(leave),
            take: None,
        }
    }

    /// The same decision, which also lets `leave` go.
    pub fn leaving(self, leave: Leave) -> Self
        ensures { result ≡ leaving_by leave self }
    {
        Decision {
            leave: Some(leave),
            ..self
        }
    }

    /// The effects of the decision, in the order in which they are made past the turn.
    pub fn effects(&self) -> Effects
        requires { length (effects_of_decision self.now) ≤ 14 }
        ensures { result.items ≡ effects_of_decision self.now }
    {
        let mut effects = Effects::new();
        if let Some(leave) = &self.leave {
            leave.add_effects(&mut effects);
        }
        if let Some(take) = &self.take {
            take.add_effects(&mut effects);
        }
        effects
    }

    fn take_of(group: u8, choice: &Option<Choice>) -> Option<Take>
        ensures { result ≡ option_map (take_by group) choice.now }
    {
        choice.as_ref().map(|choice| Take {
            group,
            index: choice.index,
            paths: choice.paths,
        })
    }
}

/// A decision with the list of its effects.
#[derive(Debug, Drop)]
pub struct Decided {
    decision: Decision,
    effects: Effects,
}

impl Model for Decided {
    ghost use Rattle.std.specs.Prelude.{◌≡◌};
    ghost use Rattle.xbar_jobs.specs.Closing.{effects as effects_of};
    ghost use Rattle.xbar_jobs.specs.Keeping.{AreEffects};
    ghost use Rattle.xbar_jobs.specs.declared.decision.Decision.{Decision};

    ghost Value = { Decision };

    ghost view = { λ a. a.decision };

    ghost invariant = { λ a. (a.effects.items ≡ effects_of a.decision)
        × AreEffects (effects_of a.decision) };
}

impl Decided {
    pub fn new(decision: Decision) -> Self
        requires effects { AreEffects (effects_of decision) }
        requires few { length (effects_of decision) ≤ most_effects }
        ensures { result ≡ decision }
    {
        let effects = decision.effects();
        Decided { decision, effects }
    }

    pub fn reply(&self) -> &Reply
        ensures { result.now ≡ self.now.reply }
    {
        &self.decision.reply
    }

    /// The effect at index `place`, or None past the last one.
    pub fn effect(&self, place: usize) -> Option<OfficeEffect>
        ensures effect { result ≡ slice_get (effects_of self.now) place }
        ensures more { IfSome result (λ effect. place + 1 < 2 ^ 64) }
    {
        let effects = self.effects.as_slice();
        if place < effects.len() {
            Some(OfficeEffect::new(effects[place]))
        } else {
            None
        }
    }

    /// The effects from index `place` on. Empty past the last one.
    pub fn effects_from(&self, place: usize) -> &[Effect]
        ensures { result.now ≡ drop place (effects_of self.now) }
    {
        let effects = self.effects.as_slice();
        if place <= effects.len() {
            &effects[place..]
        } else {
            &[]
        }
    }

    /// Does nothing. Called for its contract, that each effect is one of the office's.
    pub fn is_of_the_office(&self)
        ensures { AreEffects (effects_of self.now) }
    {
        let _ = &self.decision;
    }
}

/// A member of a trunk group that a job takes, with the paths that lead to it.
#[derive(Clone, Copy, Debug)]
pub struct Take {
    pub group: u8,
    pub index: u8,
    pub paths: CallPaths,
}

impl Take {
    ghost use Rattle.xbar_jobs.specs.Closing.{take_effects};

    /// Adds its effects: the closes of its paths, then the setting of the member's bit.
    pub fn add_effects(&self, effects: &mut Effects)
        requires { array_vec_len effects.old + length (take_effects self.now) ≤ 14 }
        ensures { effects.new.items ≡ effects.old.items ++ take_effects self.now }
    {
        close_path(effects, &self.paths.calling);
        if let Some(called) = &self.paths.called {
            close_path(effects, called);
        }
        effects.push(Effect::SetBit {
            group: self.group,
            index: self.index,
        });
    }
}

/// A member of a trunk group that a job lets go, with the paths that lead to it.
#[derive(Clone, Copy, Debug)]
pub struct Leave {
    pub group: u8,
    pub index: u8,
    pub own: Path,
    /// The other party's path, if the member is a pair.
    pub other: Option<Path>,
}

impl Leave {
    ghost use Rattle.xbar_jobs.specs.Closing.{leave_effects, leave_of};
    ghost use Rattle.xbar_jobs.specs.Keeping.{AreEffects};

    /// The member `found` at the end of the own path, with the paths that lead to it.
    pub fn of(own: &Path, other: &Option<Path>, found: &MemberPlace) -> Self
        ensures { result ≡ leave_of own.now other.now found.now }
    {
        Leave {
            group: found.group,
            index: found.index,
            own: *own,
            other: *other,
        }
    }

    /// Adds its effects: the opens of its paths, then the clearing of the member's bit.
    pub fn add_effects(&self, effects: &mut Effects)
        requires { array_vec_len effects.old + length (leave_effects self.now) ≤ 14 }
        ensures effects { effects.new.items ≡ effects.old.items ++ leave_effects self.now }
        ensures len { array_vec_len effects.new
            ≡ array_vec_len effects.old + length (leave_effects self.now) }
        ensures range { self.now.group < 16 → self.now.index < 40
            → AreEffects (leave_effects self.now) }
    {
        open_path(effects, &self.own);
        if let Some(other) = &self.other {
            open_path(effects, other);
        }
        effects.push(Effect::ClearBit {
            group: self.group,
            index: self.index,
        });
    }
}
