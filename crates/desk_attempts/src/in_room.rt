ghost use Rattle.std.specs.Prelude.{◌≡◌, ◌≤◌, ◌<◌, IfOk};

use attempts::OnWords;
use std::alloc::{AllocError, Global};
use std::ops::Range;

/// How desks do jobs on words in a room of the kind `R`: where the room keeps each word, and what a
/// desk stores of the setting. An `impl` also proves that the jobs are a system of `turns` whose
/// scripts ask for no more than `READINGS` and `HELD` (`are_scripts`). Jobs on words in groups have
/// one for `InGroups` (`OnGroups`).
pub trait InRoom<R, const READINGS: usize, const HELD: usize>: OnWords<READINGS, HELD> {
    ghost use Rattle.attempts.specs.Validity.{AreScripts};
    ghost use Rattle.turns.specs.Places.{ArePlaces, Places};

    /// What a desk stores of its setting.
    type Kept: Drop;

    ghost kept: { Self.Kept → Self.Setting };

    // Where a room keeps each word.
    ghost places: { Self.Setting → Places };

    fn keep(setting: &Self::Setting) -> Self::Kept
        ensures { kept result ≡ setting.now };

    /// The place of a word in a room's table. Words that threads use at the same time had better be
    /// on cache lines of their own.
    fn place(setting: &Self::Setting, word: usize) -> usize
        requires { word < (Self.system setting.now).size }
        ensures { result ≡ (places setting.now).place word };

    /// The number of places in a room's table.
    fn place_count(setting: &Self::Setting) -> usize
        ensures { result ≡ (places setting.now).count };

    /// The initial words.
    fn initial(alloc: Global, setting: &Self::Setting) -> Result<Vec<u64>, AllocError>
        ensures { IfOk result (λ words. words.items
            ≡ (Self.system setting.now).initial) };

    /// The words under a lock, if their numbers are consecutive; otherwise an empty range. A desk
    /// that has seized the lock takes a snapshot of them, so that one walk predicts all that it
    /// will read there. Another range is always right, only slower; by default it is empty.
    fn words_under(setting: &Self::Setting, lock: Self::Lock) -> Range<usize>
        ensures { result.end ≤ (Self.system setting.now).size }
    {
        0..0
    }

    ghost are_scripts: { (setting : Self.Setting) → Self.IsSetting setting
        → AreScripts Self.Lock.eq Self.reply_of Self.effects_of
        (Self.system setting) (Self.ResumePointIsValid setting) READINGS HELD };

    // The proof that each word has a place of its own.
    ghost are_places: { (setting : Self.Setting) → Self.IsSetting setting
        → ArePlaces (places setting) (Self.system setting).size };
}
