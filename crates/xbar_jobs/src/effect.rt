//! Effects, the writes that a job makes to words past its turn, and lists of them.

ghost use Rattle.std.specs.Prelude.{◌≡◌, ◌-◌, ◌≤◌, ◌+◌, ◌++◌};
ghost use Rattle.xbar_match.specs.Effects.{IsCrosspoint};
ghost use Rattle.xbar_match.specs.Switches.{shape_at as shape_by};
ghost use Rattle.xbar_switch.specs.Field.{close_bits_of as close_bits_by, open_mask_of as open_mask_by};
ghost use Rattle.xbar_jobs.specs.Attempt.{effect_step};
ghost use Rattle.xbar_jobs.specs.Keeping.{IsEffect, AreEffects};
ghost use Rattle.arrayvec.specs.ArrayVec.{array_vec_len};
ghost use Rattle.xbar_equip.specs.Path.{IsPath};
ghost use Rattle.xbar_jobs.specs.Closing.{value_after as made_of, path_closes, path_opens};

use crate::program::Step;
use arrayvec::ArrayVec;
use std::marker::Model;
use turns::Operation;
use xbar_equip::{Crosspoint, Path, WordNo, group_word};
use xbar_match::{effects_of, shape_at};
use xbar_switch::{close_bits, open_mask};

/// A write that a job makes to a word, past its turn.
#[derive(Clone, Copy, Debug, PartialEq, Eq)]
pub enum Effect {
    /// Marks a member of a trunk group as busy, by the group's number and the member's index.
    SetBit { group: u8, index: u8 },
    /// Marks a member as idle.
    ClearBit { group: u8, index: u8 },
    Close(Crosspoint),
    Open(Crosspoint),
}

/// The effect that fills free places of a list. All its bytes are 0, and so are those of an empty
/// list.
impl Default for Effect {
    fn default() -> Self {
        Effect::SetBit { group: 0, index: 0 }
    }
}

/// The bits that closing the crosspoint sets in its word.
fn close_bits_of(crosspoint: &Crosspoint) -> u64
    requires { IsCrosspoint crosspoint.now }
    ensures { result ≡ close_bits_by (shape_by crosspoint.now.word) crosspoint.now.field
        (crosspoint.now.value - 1) }
{
    let shape = shape_at(crosspoint.word.number());
    close_bits(shape, crosspoint.field, crosspoint.value - 1)
}

/// The bits that opening the crosspoint keeps in its word.
fn open_mask_of(crosspoint: &Crosspoint) -> u64
    requires { IsCrosspoint crosspoint.now }
    ensures { result ≡ open_mask_by (shape_by crosspoint.now.word) crosspoint.now.field }
{
    open_mask(shape_at(crosspoint.word.number()), crosspoint.field)
}

impl Effect {
    ghost use Rattle.xbar_jobs.specs.Closing.{effect_word, operation_of};
    ghost use Rattle.xbar_jobs.specs.Keeping.{IsEffect};

    /// The step that makes the effect.
    pub fn step(&self) -> Step
        requires { IsEffect self.now }
        ensures { result ≡ effect_step self.now }
    {
        let word = self.word();
        match self {
            Effect::Close(crosspoint) => Step::Close(word, close_bits_of(crosspoint)),
            Effect::Open(crosspoint) => Step::Open(word, open_mask_of(crosspoint)),
            Effect::SetBit { index, .. } => Step::Close(word, 1 << *index),
            Effect::ClearBit { index, .. } => Step::Open(word, !(1 << *index)),
        }
    }

    /// The word that the effect changes.
    pub fn word(&self) -> WordNo
        requires { IsEffect self.now }
        ensures { result ≡ effect_word self.now }
    {
        match self {
            Effect::Close(crosspoint) | Effect::Open(crosspoint) => crosspoint.word,
            Effect::SetBit { group, .. } | Effect::ClearBit { group, .. } => group_word(*group),
        }
    }

    /// The operation that makes the effect on its word.
    pub fn operation(&self) -> Operation
        requires { IsEffect self.now }
        ensures { result ≡ operation_of self.now }
    {
        match self {
            Effect::Close(crosspoint) => Operation::Or(close_bits_of(crosspoint)),
            Effect::Open(crosspoint) => Operation::And(open_mask_of(crosspoint)),
            Effect::SetBit { index, .. } => Operation::Or(1 << *index),
            Effect::ClearBit { index, .. } => Operation::And(!(1 << *index)),
        }
    }
}

/// An effect that is in range: on a crosspoint of the office, or on the bit of a member of a
/// group.
#[derive(Clone, Copy, Debug)]
pub struct OfficeEffect {
    effect: Effect,
}

impl Model for OfficeEffect {
    ghost use Rattle.xbar_jobs.specs.Keeping.{IsEffect};
    ghost use Rattle.xbar_jobs.specs.declared.effect.Effect.{Effect};

    ghost Value = { Effect };

    ghost view = { λ a. a.effect };

    ghost invariant = { λ a. IsEffect a.effect };

    ghost inverse = { λ effect. record { effect = effect } };
}

impl OfficeEffect {
    ghost use Rattle.xbar_jobs.specs.Attempt.{effect_step};
    ghost use Rattle.xbar_jobs.specs.Closing.{effect_word, operation_of};

    pub(crate) fn new(effect: Effect) -> Self
        requires { IsEffect effect }
        ensures { result ≡ effect }
    {
        OfficeEffect { effect }
    }

    /// The word that the effect changes.
    pub fn word(&self) -> WordNo
        ensures { result ≡ effect_word self.now }
    {
        self.effect.word()
    }

    /// The operation that makes the effect on its word.
    pub fn operation(&self) -> Operation
        ensures { result ≡ operation_of self.now }
    {
        self.effect.operation()
    }

    /// The step that makes the effect.
    pub fn step(&self) -> Step
        ensures { result ≡ effect_step self.now }
    {
        self.effect.step()
    }
}

/// The largest number of effects of a job. A call inside the office has 14: five to let its
/// register go, and nine to take two paths and a member.
pub const MOST_EFFECTS: usize = 14;

/// The effects of a job, in the order in which they are made.
pub type Effects = ArrayVec<Effect, MOST_EFFECTS>;

/// Adds the four closes of a path.
pub fn close_path(effects: &mut Effects, path: &Path)
    requires { array_vec_len effects.old ≤ 10 }
    ensures effects { effects.new.items ≡ effects.old.items ++ path_closes path.now }
    ensures len { array_vec_len effects.new ≡ array_vec_len effects.old + 4 }
    ensures range { IsPath path.now }
{
    let [line, line_junctor, trunk_junctor, trunk] = effects_of(path);
    effects.push(Effect::Close(line));
    effects.push(Effect::Close(line_junctor));
    effects.push(Effect::Close(trunk_junctor));
    effects.push(Effect::Close(trunk));
}

/// Adds the four opens of a path.
pub fn open_path(effects: &mut Effects, path: &Path)
    requires { array_vec_len effects.old ≤ 10 }
    ensures effects { effects.new.items ≡ effects.old.items ++ path_opens path.now }
    ensures len { array_vec_len effects.new ≡ array_vec_len effects.old + 4 }
    ensures range { IsPath path.now }
{
    let [line, line_junctor, trunk_junctor, trunk] = effects_of(path);
    effects.push(Effect::Open(line));
    effects.push(Effect::Open(line_junctor));
    effects.push(Effect::Open(trunk_junctor));
    effects.push(Effect::Open(trunk));
}

/// The value of a word after effects are made one after another, if it was `value` before.
pub fn made(effects: &[Effect], word: WordNo, value: u64) -> u64
    requires { AreEffects effects.now }
    ensures { result ≡ made_of effects.now word value }
{
    let mut value = value;
    for effect in effects {
        if effect.word() == word {
            value = effect.operation().apply(value);
        }
    }
    value
}
