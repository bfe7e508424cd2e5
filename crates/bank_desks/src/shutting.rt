//! The shutting of a bank whose desks have worked, each with a log of its records.

ghost use Rattle.std.specs.List.{list_all};
ghost use Rattle.std.specs.Prelude.{◌≡◌, ◌<◌, IfErr, IfOk, map, vec_len};
ghost use Rattle.bank.specs.System.{bank};
ghost use Rattle.bank_desks.specs.Ended.{HasEnded};
ghost use Rattle.desks.specs.Reports.{HaveLogs};
ghost use Rattle.turns.specs.Runs.{is_available};
ghost use Rattle.workers.specs.Workers.{AreAtWork, records};

use crate::jobs::BankJobs;
use bank::{Opening, laws};
use desks::Room;
use std::alloc::Global;
use workers::{NotShut, Shift, shut_if_idle};

/// Shuts a bank with the desks of shifts, if none of them is at a job, and returns its words. If
/// one is, or if memory runs out, returns the bank and the shifts instead.
pub fn shut_bank(
    alloc: Global,
    room: Room<BankJobs>,
    opening: Opening,
    shifts: Vec<Shift<BankJobs>>,
) -> Result<Vec<u64>, NotShut<BankJobs>>
    requires opening { room.setting ≡ opening }
    requires work { AreAtWork room opening (map (λ shift. shift.desk) shifts.items) }
    requires logs { HaveLogs (bank opening) (map (λ shift. shift.desk) shifts.items)
        (map (λ shift. records shift.log.items) shifts.items) }
    requires all { (vec_len shifts ≡ room.count) × (0 < vec_len shifts) }
    ensures ended { IfOk result (λ words.
        HasEnded opening (map (λ shift. records shift.log.items) shifts.items) words.items) }
    ensures back { IfErr result (λ kept. (kept.room ≡ room) × (kept.shifts ≡ shifts)) }
    ensures why { IfErr result (λ kept. kept.were_idle
        ≡ list_all (λ shift. is_available (bank opening) shift.desk.actor) shifts.items) }
{
    laws::shown_words_have_the_sum();
    shut_if_idle(alloc, room, &opening, shifts)
}
