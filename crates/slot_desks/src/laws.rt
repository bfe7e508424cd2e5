//! Laws: lemmas about the slots that threads took. The functions do nothing; their contracts are
//! the statements.

ghost use Rattle.std.specs.Prelude.{◌≡◌, ◌≤◌, ◌<◌, ◌^◌, ◌/◌, ◌%◌, ◌==◌, ℕ, List, length, slice_index};
ghost use Rattle.std.specs.Int.{bit_at};
ghost use Rattle.desks.specs.Met.{AreShut};
ghost use Rattle.desks.specs.Reports.{MakeUp};
ghost use Rattle.desks.specs.Views.{DeskView};
ghost use Rattle.turns.specs.Law.{IsLegal, holder_at};
ghost use Rattle.turns.specs.World.{RecordOf, after};
ghost use Rattle.slots.specs.Slots.{none_busy};
ghost use Rattle.slots.specs.declared.effect.Effect.{Effect};
ghost use Rattle.slots.specs.declared.job.Job.{Job};
ghost use Rattle.slots.specs.System.{slots};
ghost use Rattle.slot_desks.specs.Ended.{AllGiveOwn, NoneHadTwice, NoneTakenTwice};

use crate::jobs::SlotJobs;
use slots::bank::{BANK_SIZE, SLOT_COUNT};

/// No slot is taken twice, whichever threads took it: between two logged jobs that took the same
/// slot, a logged job freed it. If each desk freed only slots that it had, then that job was of
/// the desk that took the slot first, so no two desks have a slot at the same time.
pub fn no_slot_is_taken_twice()
    ensures once { (logs : List (List (RecordOf slots))) (order : List (RecordOf slots))
        → IsLegal slots 0 slots.opening order → MakeUp slots logs order → length order ≤ 2 ^ 64
        → NoneTakenTwice logs }
    ensures had { (logs : List (List (RecordOf slots))) (order : List (RecordOf slots))
        → IsLegal slots 0 slots.opening order → MakeUp slots logs order → length order ≤ 2 ^ 64
        → AllGiveOwn logs → NoneHadTwice logs }
{
    desks::laws::reports_make_up_the_order::<SlotJobs>();
}

/// Even if a room is shut with jobs under way, the word of a bank whose lock nobody holds shows
/// which of the bank's slots are taken after all turns, whoever holds the other bank's lock.
pub fn shut_banks_show_their_slots()
    ensures { (desks : List (DeskView (Unit {0}) ℕ Job (List ℕ) Effect)) (words : List ℕ)
        (shut : AreShut slots desks words) (slot : ℕ) → slot < SLOT_COUNT
        → holder_at slots words (slot / BANK_SIZE) ≡ 0
        → after slots none_busy shut.order slot
        ≡ (bit_at (slice_index words (slot / BANK_SIZE)) (slot % BANK_SIZE) == 1) }
{}
