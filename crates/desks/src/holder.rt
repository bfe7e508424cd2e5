//! Who holds a lock.

ghost use Rattle.std.specs.Prelude.{◌≡◌, ◌<◌};
ghost use Rattle.desks.specs.Holders.{HasLoaded, WasHeldBy};
ghost use Rattle.desks.specs.Views.{IsDeskOf};
ghost use Rattle.turns.specs.System.{system_of};

use crate::desk::Desk;
use crate::jobs::Jobs;
use crate::room::Room;
use crate::steps::{SeatView, Words, load};
use atomic_table::Seat;
use std::marker::Brand;

/// Loads a lock's own word.
fn load_lock_word<F: Jobs>(
    shared: &Words<F>,
    setting: &F::Setting,
    seat: &mut Seat<(), SeatView<F>>,
    lock: &F::Lock,
) -> u64
    requires setting { F.IsSetting setting.now }
    requires table { seat.old.table_id ≡ shared.now.table_id }
    requires words { shared.now.table_id.words ≡ (F.places setting.now).count }
    requires key { shared.now.key.setting.value ≡ setting.now }
    requires lock { (F.system setting.now).IsLock lock.now }
    ensures same { (seat.new.table_id ≡ seat.old.table_id) × (seat.new.me ≡ seat.old.me) }
    ensures loaded { HasLoaded (system_of (F.system setting.now)) shared.now.key.count
        ((F.system setting.now).lock_word lock.now) seat.old.me.0 result seat.new.me.0 }
{
    load::<F, Brand>(shared, setting, seat, F::lock_word(setting, lock))
}

impl<F: Jobs> Desk<F> {
    /// Who holds a lock: the number of the actor that held it at the moment of one atomic load of
    /// the lock's own word, or None if nobody did. This is no step, and changes nothing.
    pub fn holder(&mut self, room: &Room<F>, setting: &F::Setting, lock: &F::Lock) -> Option<u32>
        requires desk { IsDeskOf self.old room.now setting.now }
        requires lock { (F.system setting.now).IsLock lock.now }
        ensures same { self.new ≡ self.old }
        ensures held { WasHeldBy (system_of (F.system setting.now)) room.now.count self.old.number
            self.old.actor self.old.seen lock.now result }
    {
        let word = load_lock_word::<F>(&room.table.shared, setting, &mut self.seat, lock);
        F::holder_in(setting, word)
    }
}
