//! Laws: lemmas about the slots. The functions do nothing; their contracts are the statements.

ghost use Rattle.std.specs.Prelude.{◌≡◌, ◌≤◌, ◌<◌, ◌+◌, ◌/◌, ◌%◌, ◌^◌, ◌==◌, ◌++◌, ℕ, List, [], ◌∷◌, length, slice_index};
ghost use Rattle.std.specs.Int.{bit_at};
ghost use mathlib.Core.Option.{some};
ghost use lib.ListN.{get_elem?};
ghost use Rattle.turns.specs.Attempt.{AttemptOf, act, begin};
ghost use Rattle.turns.specs.declared.act.Act.TheVariants.{Make};
ghost use Rattle.turns.specs.Bounds.{AreSteady, IsAside, after_steps};
ghost use Rattle.turns.specs.Law.{IsAvailable, Lawful, holder_at};
ghost use Rattle.turns.specs.Runs.{Move, AreMoves, run_of};
ghost use Rattle.turns.specs.World.{World, ActorOf, Does, RecordOf, after};
ghost use Rattle.turns.specs.declared.answer.Answer.{Answer};
ghost use Rattle.slots.specs.Slots.{none_busy};
ghost use Rattle.slots.specs.System.{IsJob, slots};
ghost use Rattle.slots.specs.Taken.{IsGivenBack, Took};
ghost use Rattle.slots.specs.WorkedRun.{replies, worked};
ghost use Rattle.slots.specs.declared.job.Job.{Job};

use crate::bank::{BANK_SIZE, SLOT_COUNT};
use crate::effect::Effect;
use turns::laws::{self, Family};

/// The system of the slots, by which the laws of `turns` are called.
#[derive(Drop)]
struct Slots {}

impl Family for Slots {
    ghost Setting = { Unit {0} };

    ghost system = { λ setting. slots };
}

/// Whatever any number of actors do, and in whatever order they make their steps, each job acts as
/// if done whole at its turn.
pub fn every_run_of_slots_is_lawful()
    ensures { (count : ℕ) (moves : List (Move Job)) → count < 2 ^ 32 →
        AreMoves slots moves →
        Lawful slots (run_of slots count moves) }
{
    laws::every_run_is_lawful::<Slots>();
}

/// No slot is taken twice: between any two jobs that took the same slot, in the order of turns, a
/// job freed it.
pub fn slots_are_taken_once()
    ensures { (w : World slots) (before between later : List (RecordOf slots))
        (r other : RecordOf slots) (slot : ℕ) → Lawful slots w →
        w.order ≡ before ++ r ∷ (between ++ other ∷ later) → Took slot r → Took slot other →
        IsGivenBack slot between }
{
    laws::jobs_act_at_their_turns::<Slots>();
}

/// If no bank's lock is held, the words show which slots are taken after the turns so far.
pub fn unheld_words_show_the_slots()
    ensures { (w : World slots) (slot : ℕ) → Lawful slots w →
        ((bank : ℕ) → bank < 2 → holder_at slots w.words bank ≡ 0) → slot < SLOT_COUNT →
        after slots none_busy w.order slot ≡ (bit_at (slice_index w.words (slot / BANK_SIZE))
        (slot % BANK_SIZE) == 1) }
{
    laws::jobs_act_at_their_turns::<Slots>();
}

/// An actor that is about to mark a slot finds it free, whatever the others do.
pub fn slots_are_marked_free()
    ensures { (w : World slots) (k number : ℕ) (a : AttemptOf slots) (slot : ℕ) → Lawful slots w →
        get_elem? w.actors k ≡ some (Does number a) → act a ≡ Make (Effect.Mark slot) →
        bit_at (slice_index w.words (slot / BANK_SIZE)) (slot % BANK_SIZE) ≡ 0 }
{
    laws::words_are_their_holders::<Slots>();
}

/// A job that is never denied a lock, and never has to repeat a seizing, ends within 11 steps.
pub fn steady_jobs_are_short()
    ensures { (job : Job) (answers : List Answer) → IsJob job →
        AreSteady slots (begin slots job) answers → length answers ≤ 11 }
{
    laws::steady_attempts_are_short::<Slots>();
}

/// An actor that is left alone ends its job within 13 steps, and one more for each lock that it
/// holds at first. Left alone means that each other actor is idle, or holds nothing and has no
/// pending request.
pub fn jobs_left_alone_end()
    ensures { (w : World slots) (k number : ℕ) (a : AttemptOf slots) (count : ℕ) → Lawful slots w →
        get_elem? w.actors k ≡ some (Does number a) →
        ((j : ℕ) (m : ActorOf slots) → ¬ (j ≡ k) → get_elem? w.actors j ≡ some m →
        IsAside slots m) → 13 + length a.held ≤ count →
        (ended : ActorOf slots) × (get_elem? (after_steps slots k count w).actors k ≡ some ended) ×
        IsAvailable slots ended }
{
    laws::actors_left_alone_end::<Slots>();
}

/// A run of two actors, worked out by hand. Actor 0 takes slot 0. Actor 1 takes slot 1, the lowest
/// that is left in this bank, and slot 32, the lowest of the other bank. With bits 0 and 1 of word
/// 0 and bit 0 of word 1 set, the words are 3 and 1. Both locks are free, and two turns were
/// taken.
pub fn two_actors_take_slots()
    ensures words { worked.words ≡ 3 ∷ 1 ∷ 0 ∷ 0 ∷ 2 ∷ [] }
    ensures replies { replies worked.order ≡ (0 ∷ []) ∷ (1 ∷ 32 ∷ []) ∷ [] }
{}
