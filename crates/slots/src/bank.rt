//! A bank's word: bit `slot % 32` is set if the slot is taken.

ghost use Rattle.std.specs.Prelude.{◌≡◌, ◌<◌, IfSome};
ghost use Rattle.slots.specs.System.{free_in};

/// The number of slots of a bank: slots 0 to 31 are bank 0, slots 32 to 63 are bank 1.
pub const BANK_SIZE: u32 = 32;

/// The number of slots of both banks.
pub const SLOT_COUNT: u32 = 64;

/// The lowest free slot of bank 0 or 1, by the bank's word. None if all its slots are taken.
pub fn lowest_free(bank: u32, word: u64) -> Option<u32>
    requires { bank < 2 }
    ensures free { result ≡ free_in bank word }
    ensures there { IfSome result (λ slot. slot < SLOT_COUNT) }
{
    let taken = (word & 0xffff_ffff).trailing_ones();
    if taken < BANK_SIZE {
        Some(BANK_SIZE * bank + taken)
    } else {
        None
    }
}
