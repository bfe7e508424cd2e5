ghost use Rattle.std.specs.Prelude.{◌≡◌, ◌≤◌, ◌<◌, ◌*◌, ◌^◌};
ghost use Rattle.turns.specs.Layouts.{lock_word_in, size_of, turn_word_in};
ghost use Rattle.desk_attempts.specs.Groups.{layout_of, places_of, stride_of};

use crate::in_room::InRoom;
use attempts::OnWords;
use std::alloc::{AllocError, Global};
use std::ops::Range;

/// How many words stand on the cache lines that a processor may fetch together: two lines of 64
/// bytes.
const LINES: u32 = 16;

/// Words in groups of one size, each under a lock, which has its group's number. The words of all
/// groups come first, then each lock's own word, then the turn word. All are 0 at first. In a
/// room's table each group stands with its lock on cache lines of its own, and so does the turn
/// word.
#[derive(Clone, Copy, Debug, PartialEq, Eq)]
pub struct Groups {
    /// How many groups there are.
    pub count: u32,
    /// How many words each has.
    pub each: u32,
}

impl Groups {
    /// How many words the groups have together.
    fn words(self) -> usize
        ensures { result ≡ self.count * self.each }
    {
        self.count as usize * self.each as usize
    }

    /// How many words there are, with those of the locks and the turn word.
    pub fn size(self) -> usize
        ensures { result ≡ size_of (layout_of self) }
    {
        self.words() + self.count as usize + 1
    }

    /// How far one group begins after another in a room's table.
    fn stride(self) -> usize
        ensures stride { result ≡ stride_of self }
        ensures far { result ≤ 2 ^ 32 }
    {
        match self.each.checked_add(2 * LINES - 1) {
            Some(reach) => (reach / LINES * LINES) as usize,
            None => self.each as usize + 1,
        }
    }

    /// The number of a lock's own word.
    pub fn lock_word(self, lock: u32) -> usize
        ensures { result ≡ lock_word_in (layout_of self) lock }
    {
        self.words() + lock as usize
    }

    /// The number of the word on which turns are taken.
    pub fn turn_word(self) -> usize
        ensures { result ≡ turn_word_in (layout_of self) }
    {
        self.words() + self.count as usize
    }

    /// The place of a word in a room's table.
    pub fn place(self, word: usize) -> usize
        requires { word < size_of (layout_of self) }
        ensures { result ≡ (places_of self).place word }
    {
        let words = self.words();
        if word < words {
            let each = self.each as usize;
            word / each * self.stride() + word % each
        } else if word < words + self.count as usize {
            (word - words) * self.stride() + self.each as usize
        } else {
            self.count as usize * self.stride()
        }
    }

    /// The number of places in a room's table.
    pub fn place_count(self) -> usize
        ensures { result ≡ (places_of self).count }
    {
        self.count as usize * self.stride() + LINES as usize
    }

    /// The words of a group. Empty if there is no such group.
    pub fn group(self, number: u32) -> Range<usize>
        ensures { result.end ≤ size_of (layout_of self) }
    {
        if number >= self.count {
            return 0..0;
        }
        let first = number as usize * self.each as usize;
        first..first + self.each as usize
    }
}

/// Jobs on words in `Groups`, in a room that keeps each group apart. An `impl` also proves that the
/// jobs are a system of `turns` whose scripts ask for no more than `READINGS` and `HELD`
/// (`are_scripts`).
pub trait OnGroups<const READINGS: usize, const HELD: usize>: OnWords<READINGS, HELD, Lock = u32> {
    ghost use Rattle.std.specs.Prelude.{nat_eq};
    ghost use Rattle.attempts.specs.Validity.{AreScripts};
    ghost use Rattle.desk_attempts.specs.Groups.{IsLaidOut};
    ghost use Rattle.desk_attempts.specs.declared.on_groups.Groups.{Groups as GroupsView};

    /// What a desk stores of its setting.
    type Kept: Drop;

    ghost kept: { Self.Kept → Self.Setting };

    fn keep(setting: &Self::Setting) -> Self::Kept
        ensures { kept result ≡ setting.now };

    // The groups in which the words are.
    ghost groups_of: { Self.Setting → GroupsView };

    /// The groups in which the words are.
    fn groups(setting: &Self::Setting) -> Groups
        ensures groups { result ≡ groups_of setting.now }
        ensures laid_out { IsLaidOut (Self.system setting.now) result };

    ghost are_scripts: { (setting : Self.Setting) → Self.IsSetting setting
        → AreScripts nat_eq Self.reply_of Self.effects_of (Self.system setting)
        (Self.ResumePointIsValid setting) READINGS HELD };

    // The proof that the words are in these groups.
    ghost are_laid_out: { (setting : Self.Setting)
        → IsLaidOut (Self.system setting) (groups_of setting) };
}

/// The room of jobs whose words are in groups.
pub struct InGroups;

impl<S: OnGroups<READINGS, HELD>, const READINGS: usize, const HELD: usize> InRoom<
    InGroups,
    READINGS,
    HELD,
> for S {
    ghost use Rattle.desk_attempts.specs.Groups.{places_of};
    ghost use Rattle.desk_attempts.specs.GroupPlaces.{places_of_size};

    type Kept = S::Kept;

    ghost kept = { S.kept };

    ghost places = { λ setting. places_of (S.groups_of setting) };

    fn keep(setting: &S::Setting) -> S::Kept {
        S::keep(setting)
    }

    fn place(setting: &S::Setting, word: usize) -> usize {
        S::groups(setting).place(word)
    }

    fn place_count(setting: &S::Setting) -> usize {
        S::groups(setting).place_count()
    }

    fn initial(alloc: Global, setting: &S::Setting) -> Result<Vec<u64>, AllocError> {
        vec![in alloc; 0; S::groups(setting).size()]
    }

    fn words_under(setting: &S::Setting, lock: u32) -> Range<usize> {
        S::groups(setting).group(lock)
    }

    ghost are_scripts = { S.are_scripts };

    ghost are_places = { λ setting _.
        places_of_size (S.groups_of setting) (S.are_laid_out setting).size };
}
