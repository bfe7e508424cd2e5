ghost use Rattle.std.specs.Prelude.{◌≡◌, ◌↔◌, IfSome, None, is_some};
ghost use Rattle.crossbar5.specs.Kinds.{Names, NamesFor, NamesNone, RefusesLetters, is_letter, letter_of};

use arrayvec::ArrayVec;
use crossbar5_task::Task;
use xbar_moves::{Kind, Kinds, MOST_MARKERS};

/// The kind that a letter names.
fn kind_of(letter: u8) -> Option<Kind>
    ensures named { IfSome result (λ kind. letter ≡ letter_of kind) }
    ensures known { is_some result ≡ is_letter letter }
{
    match letter {
        b'D' => Some(Kind::Dial),
        b'C' => Some(Kind::Completing),
        b'X' => Some(Kind::Combined),
        _ => None,
    }
}

/// The kinds that letters such as `XX` or `DC` name: one for each marker, marker 0 first. `D` is
/// for dial tone jobs, `C` for completing jobs and releases, `X` for all jobs. None if there aren't
/// 1 to 48 letters, or one is another.
pub fn kinds_of(letters: &[u8]) -> Option<Kinds>
    ensures named { IfSome result (λ kinds. Names letters.now kinds) }
    ensures refused { (result ≡ None) ↔ NamesNone letters.now }
{
    let mut kinds: ArrayVec<Kind, MOST_MARKERS> = ArrayVec::new();
    for letter in letters {
        let kind = kind_of(*letter)?;
        kinds.try_push(kind).ok()?;
    }
    Kinds::new(&kinds)
}

/// The kinds of a task's markers, which these letters name. A task on records has no markers, and
/// its letters aren't read.
pub fn kinds_for(task: Task, letters: &[u8]) -> Option<Kinds>
    ensures named { IfSome result (λ kinds. NamesFor task letters.now kinds) }
    ensures refused { (result ≡ None) ↔ RefusesLetters task letters.now }
{
    if task.is_on_rows() {
        kinds_of(letters)
    } else {
        Some(Kinds::default())
    }
}
