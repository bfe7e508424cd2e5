//! The walks that approach a line and trace paths from switch to switch.

ghost use Rattle.std.specs.Prelude.{◌≡◌, ◌<◌, IfSome, []};
ghost use Rattle.xbar_jobs.specs.Keeping.{AreEffects};
ghost use Rattle.xbar_jobs.specs.Script.{walk_on_words};
ghost use Rattle.xbar_jobs.specs.Tracing.{approach as approach_script, trace as trace_script, trace_back as trace_back_script, trace_back_to as trace_back_to_script, trace_to as trace_to_script};

use crate::effect::Effect;
use crate::offices::{Seen, Wanted};
use crate::party::Party;
use crate::seen::{read, require_held, value_of};
use xbar_equip::{
    Channel, Conn, Len, Path, Ten, line_junctor, line_switch, trunk_junctor, trunk_switch,
};
use xbar_match::{find_number, line_place_of, place_of};

/// Approaches a line: seizes its frame and tests its line switch.
#[tactic(auto, using(attempts::proofs::WalksOnWords::live_bind, attempts::proofs::WalksOnWords::live_end), unfolding(crate::specs::Tracing::approach))]
// Inlined, since each walk begins with it.
#[inline(always)]
pub fn approach(
    seen: &mut Seen,
    words: &mut [u64],
    made: &[Effect],
    line: Len,
) -> Result<Party, Wanted>
    requires made { AreEffects made.now }
    ensures { record { found = result; state = seen.new; words = words.new }
        ≡ walk_on_words made.now (approach_script line) seen.old words.old }
{
    require_held(seen, words, Conn::Llf(line.frame()))?;
    let word = value_of(seen, words, made, line_switch(line.frame(), line.switch()))?;
    Ok(Party { line, word })
}

/// Traces a line's path on, once its channel and its trunk link frame are known.
#[tactic(auto, using(attempts::proofs::WalksOnWords::live_bind, attempts::proofs::WalksOnWords::live_end), unfolding(crate::specs::Tracing::trace_to, crate::specs::Tracing::trace_at))]
fn trace_to(
    seen: &mut Seen,
    words: &mut [u64],
    line: Len,
    channel: u8,
    frame: Option<u8>,
) -> Result<Option<Path>, Wanted>
    requires channel { channel < 10 }
    requires frame { IfSome frame (λ f. f < 10) }
    ensures { record { found = result; state = seen.new; words = words.new }
        ≡ walk_on_words [] (trace_to_script line channel frame) seen.old words.old }
{
    let Some(frame) = frame else {
        return Ok(None);
    };
    require_held(seen, words, Conn::Tlf(frame))?;
    let word = read(seen, words, trunk_junctor(frame, channel))?;
    let Some(switch) = place_of(word, line.frame()) else {
        return Ok(None);
    };
    let word = read(seen, words, trunk_switch(frame, switch))?;
    match place_of(word, channel) {
        None => Ok(None),
        Some(appearance) => Ok(Some(Path {
            line,
            channel: Channel::new(channel),
            place: Ten::new(frame, switch, appearance),
        })),
    }
}

/// Traces a line's path from switch to switch. A path that breaks off, which no lawful office
/// shows, counts as none.
#[tactic(auto, using(attempts::proofs::WalksOnWords::live_bind, attempts::proofs::WalksOnWords::live_end), unfolding(crate::specs::Tracing::trace, crate::specs::Tracing::trace_by))]
pub fn trace(seen: &mut Seen, words: &mut [u64], party: &Party) -> Result<Option<Path>, Wanted>
    ensures { record { found = result; state = seen.new; words = words.new }
        ≡ walk_on_words [] (trace_script party.now) seen.old words.old }
{
    let line = party.line;
    let Some(channel) = party.channel() else {
        return Ok(None);
    };
    let word = read(seen, words, line_junctor(line.frame(), channel))?;
    trace_to(seen, words, line, channel, find_number(word, line.switch()))
}

/// Traces a trunk place's path on, once its channel and its line link frame are known.
#[tactic(auto, using(attempts::proofs::WalksOnWords::live_bind, attempts::proofs::WalksOnWords::live_end), unfolding(crate::specs::Tracing::trace_back_to, crate::specs::Tracing::trace_back_at))]
fn trace_back_to(
    seen: &mut Seen,
    words: &mut [u64],
    place: Ten,
    channel: u8,
    frame: Option<u8>,
) -> Result<Option<Path>, Wanted>
    requires channel { channel < 10 }
    requires frame { IfSome frame (λ f. f < 10) }
    ensures { record { found = result; state = seen.new; words = words.new }
        ≡ walk_on_words [] (trace_back_to_script place channel frame) seen.old words.old }
{
    let Some(frame) = frame else {
        return Ok(None);
    };
    require_held(seen, words, Conn::Llf(frame))?;
    let word = read(seen, words, line_junctor(frame, channel))?;
    let Some(switch) = place_of(word, place.frame()) else {
        return Ok(None);
    };
    let word = read(seen, words, line_switch(frame, switch))?;
    match line_place_of(word, channel) {
        None => Ok(None),
        Some(x) => Ok(Some(Path {
            line: Len::new(frame, switch, x),
            channel: Channel::new(channel),
            place,
        })),
    }
}

/// Traces the path of a trunk place, whose frame is held, from switch to switch.
#[tactic(auto, using(attempts::proofs::WalksOnWords::live_bind, attempts::proofs::WalksOnWords::live_end), unfolding(crate::specs::Tracing::trace_back, crate::specs::Tracing::trace_back_by))]
pub fn trace_back(seen: &mut Seen, words: &mut [u64], place: Ten) -> Result<Option<Path>, Wanted>
    ensures { record { found = result; state = seen.new; words = words.new }
        ≡ walk_on_words [] (trace_back_script place) seen.old words.old }
{
    let word = read(seen, words, trunk_switch(place.frame(), place.switch()))?;
    let Some(channel) = find_number(word, place.appearance()) else {
        return Ok(None);
    };
    let word = read(seen, words, trunk_junctor(place.frame(), channel))?;
    trace_back_to(
        seen,
        words,
        place,
        channel,
        find_number(word, place.switch()),
    )
}
