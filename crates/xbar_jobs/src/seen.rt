//! How a walk asks for connectors and words. The first one that it lacks and can't get at once
//! ends it.

ghost use Rattle.std.specs.Prelude.{◌≡◌, List, []};
ghost use Rattle.turns.specs.Script.{TestThen, Ends, seize as seize_script};
ghost use Rattle.xbar_equip.specs.Conn.{IsConn};
ghost use Rattle.xbar_jobs.specs.Keeping.{AreEffects};
ghost use Rattle.xbar_jobs.specs.Script.{walk_on_words};
ghost use Rattle.xbar_jobs.specs.declared.effect.Effect.{Effect};

use crate::effect::{Effect, made as made_by};
use crate::offices::{Seen, Wanted};
use xbar_equip::{Conn, WordNo, conn_word};

/// Makes sure that the connector is held. If it isn't, and can't be seized at once, the walk ends.
pub fn require_held(seen: &mut Seen, words: &mut [u64], conn: Conn) -> Result<(), Wanted>
    requires { IsConn conn }
    ensures { (made : List Effect) →
        record { found = result; state = seen.new; words = words.new }
        ≡ walk_on_words made (seize_script conn) seen.old words.old }
{
    seen.seize(conn, usize::from(conn_word(conn).number()), words)
}

/// Returns the word's value. If it wasn't read, and can't be read at once, the walk ends.
pub fn read(seen: &mut Seen, words: &[u64], word: WordNo) -> Result<u64, Wanted>
    ensures { record { found = result; state = seen.new; words = words.now }
        ≡ walk_on_words [] (TestThen word Ends) seen.old words.now }
{
    seen.test(usize::from(word.number()), words)
}

/// Like `read`, but returns the word's value as effects will leave it.
#[inline(always)]
pub fn value_of(
    seen: &mut Seen,
    words: &[u64],
    made: &[Effect],
    word: WordNo,
) -> Result<u64, Wanted>
    requires { AreEffects made.now }
    ensures { record { found = result; state = seen.new; words = words.now }
        ≡ walk_on_words made.now (TestThen word Ends) seen.old words.now }
{
    match read(seen, words, word) {
        Ok(value) => Ok(made_by(made, word, value)),
        Err(wanted) => Err(wanted),
    }
}
