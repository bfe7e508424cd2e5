ghost use Rattle.std.specs.Prelude.{◌≡◌, ◌≤◌, ◌<◌, IfNone, IfSome, option_map};
ghost use Rattle.turns.specs.Attempt.{act, asked_in};
ghost use Rattle.turns.specs.Sharings.{sharing_of};
ghost use Rattle.turns.specs.declared.act.Act.TheVariants.{Finished};
ghost use Rattle.desks.specs.WordSteps.{Makes};
ghost use Rattle.desk_attempts.specs.Of.{IsValidSpeculation, now_of};
ghost use Rattle.attempts.specs.Of.{system_of};

use crate::in_room::InRoom;
use crate::now::{
    apply_found, apply_past_turn_now, asked, begin_next_now, begin_now, gives_back, has_ended,
    next_now, next_past_turn_now, next_without_lock_now, outcome_now, restart_now,
};
use crate::speculation::SpeculationOf;
use attempts::{OnWords, step_operation, step_word};
use desks::{Jobs, WordStep};
use std::alloc::{AllocError, Global};
use std::marker::PhantomData;
use std::ops::Range;
use turns::{Act, Answer, Phase, Reading};

/// The words under the lock that the pending step seizes, or an empty range if it seizes none or
/// the number `found` tells that it didn't.
fn words_under_seized<S: InRoom<R, READINGS, HELD>, R, const READINGS: usize, const HELD: usize>(
    setting: &S::Setting,
    program: &SpeculationOf<S, READINGS, HELD>,
    found: u64,
) -> Range<usize>
    ensures { result.end ≤ (S.system setting.now).size }
{
    let sharing = S::sharing(setting);
    let phase = program.predicted.phase();
    match phase {
        Phase::Requests(lock) if !sharing.asks() && sharing.holder(found).is_none() => {
            S::words_under(setting, lock)
        }
        Phase::Seizes(lock, expected) if found == expected => S::words_under(setting, lock),
        _ => 0..0,
    }
}

/// The attempt's next step as an operation on a word. None if there is no next step.
#[inline(always)]
fn on_word<S: InRoom<R, READINGS, HELD>, R, const READINGS: usize, const HELD: usize>(
    setting: &S::Setting,
    actor: u32,
    _program: &SpeculationOf<S, READINGS, HELD>,
    step: Act<S::Lock, S::Effect>,
) -> Option<WordStep>
    requires actor { actor < (sharing_of (S.system setting.now).sharing).most }
    requires valid { S.IsSetting setting.now
        × IsValidSpeculation S.Lock.eq S.Scripts setting.now _program.now }
    requires next { step ≡ act (now_of S.Scripts _program.now) }
    ensures makes { IfSome result
        (Makes (system_of S.Lock.eq S.Scripts setting.now) actor
        (now_of S.Scripts _program.now)) }
    ensures none { IfNone result (act (now_of S.Scripts _program.now) ≡ Finished) }
{
    if let Act::Finished = step {
        return None;
    }
    Some(WordStep {
        place: step_word::<S, READINGS, HELD>(setting, step),
        operation: step_operation::<S, READINGS, HELD>(setting, actor, step),
    })
}

/// The word of the lock that the attempt's next step requests or seizes.
fn lock_to_acquire<S: OnWords<READINGS, HELD>, const READINGS: usize, const HELD: usize>(
    setting: &S::Setting,
    program: &SpeculationOf<S, READINGS, HELD>,
) -> Option<usize>
    ensures { result
        ≡ option_map (S.system setting.now).lock_word
        (asked_in (now_of S.Scripts program.now).phase) }
{
    let lock = asked::<S, READINGS, HELD>(program)?;
    Some(S::lock_word(setting, lock))
}

/// The jobs of `S`, in a room of the kind `R`, as desks run them: by attempts that make predictions. `READINGS` and `HELD` are
/// the largest numbers of words that a script tests and of locks that it seizes.
pub struct Attempts<S, R, const READINGS: usize, const HELD: usize> {
    of: PhantomData<(S, R)>,
}

impl<S: InRoom<R, READINGS, HELD>, R, const READINGS: usize, const HELD: usize> Jobs
    for Attempts<S, R, READINGS, HELD> {
    ghost use Rattle.desk_attempts.specs.Speculation.{predictions};
    ghost use Rattle.desk_attempts.specs.Of.{IsValidSpeculation, now_of};
    ghost use Rattle.attempts.specs.SystemWith.{over_with};

    type Setting = S::Setting;

    type Kept = S::Kept;

    type Lock = S::Lock;

    type Job = S::Job;

    type Reply = S::Reply;

    type Effect = S::Effect;

    type Program = SpeculationOf<S, READINGS, HELD>;

    ghost kept = { S.kept };

    ghost system = { λ setting. over_with S.Lock.eq S.reply_of S.effects_of (S.system setting) };

    ghost predictions_of = { predictions };

    ghost IsSetting = { S.IsSetting };

    ghost places = { S.places };

    ghost attempt = { λ program. now_of S.Scripts program };

    ghost IsValid = { λ setting program. S.IsSetting setting
        × IsValidSpeculation S.Lock.eq S.Scripts setting program };

    fn keep(setting: &S::Setting) -> S::Kept {
        S::keep(setting)
    }

    fn begin(_setting: &S::Kept, job: S::Job) -> SpeculationOf<S, READINGS, HELD> {
        begin_now::<S, READINGS, HELD>(job)
    }

    fn begin_next(_setting: &S::Kept, job: S::Job, program: &mut SpeculationOf<S, READINGS, HELD>) {
        begin_next_now::<S, READINGS, HELD>(program, job);
    }

    fn size(setting: &S::Setting) -> usize {
        S::size(setting)
    }

    fn place(setting: &S::Setting, word: usize) -> usize {
        S::place(setting, word)
    }

    fn place_count(setting: &S::Setting) -> usize {
        S::place_count(setting)
    }

    fn initial(alloc: Global, setting: &S::Setting) -> Result<Vec<u64>, AllocError> {
        S::initial(alloc, setting)
    }

    fn turn_word(setting: &S::Setting) -> usize {
        S::turn_word(setting)
    }

    fn lock_word(setting: &S::Setting, lock: &S::Lock) -> usize {
        S::lock_word(setting, *lock)
    }

    fn holder_in(setting: &S::Setting, word: u64) -> Option<u32> {
        S::sharing(setting).holder(word)
    }

    fn is_finished(program: &SpeculationOf<S, READINGS, HELD>) -> bool {
        has_ended::<S, READINGS, HELD>(program)
    }

    fn is_giving_back(program: &SpeculationOf<S, READINGS, HELD>) -> bool {
        gives_back::<S, READINGS, HELD>(program)
    }

    fn outcome(
        program: &SpeculationOf<S, READINGS, HELD>,
    ) -> Option<(u64, Self::Job, Self::Reply)> {
        outcome_now::<S, READINGS, HELD>(program)
    }

    #[inline(always)]
    fn next(
        setting: &S::Setting,
        actor: u32,
        program: &SpeculationOf<S, READINGS, HELD>,
    ) -> Option<WordStep> {
        let step = next_now::<S, READINGS, HELD>(program);
        on_word::<S, R, READINGS, HELD>(setting, actor, program, step)
    }

    #[inline(always)]
    fn next_without_lock(
        setting: &S::Setting,
        actor: u32,
        program: &SpeculationOf<S, READINGS, HELD>,
    ) -> Option<WordStep> {
        let step = next_without_lock_now::<S, READINGS, HELD>(program)?;
        on_word::<S, R, READINGS, HELD>(setting, actor, program, step)
    }

    fn lock_to_acquire(
        setting: &S::Setting,
        program: &SpeculationOf<S, READINGS, HELD>,
    ) -> Option<usize> {
        lock_to_acquire::<S, READINGS, HELD>(setting, program)
    }

    #[inline(always)]
    fn predictions<'a>(
        _setting: &S::Setting,
        program: &'a SpeculationOf<S, READINGS, HELD>,
    ) -> &'a [Reading<usize>] {
        program.predictions()
    }

    #[inline(always)]
    fn confirm(_setting: &S::Setting, program: &mut SpeculationOf<S, READINGS, HELD>, made: usize) {
        // Called for its contract, that each value read fits 64 bits.
        let _predictions = program.predictions();
        program.confirm(made);
    }

    #[inline(always)]
    fn next_past_turn(
        setting: &S::Setting,
        actor: u32,
        program: &SpeculationOf<S, READINGS, HELD>,
    ) -> Option<WordStep> {
        let step = next_past_turn_now::<S, READINGS, HELD>(program)?;
        on_word::<S, R, READINGS, HELD>(setting, actor, program, step)
    }

    #[inline(always)]
    fn apply_past_turn(_setting: &S::Setting, program: &mut SpeculationOf<S, READINGS, HELD>) {
        apply_past_turn_now::<S, READINGS, HELD>(program);
    }

    fn snapshot_range(
        setting: &S::Setting,
        program: &SpeculationOf<S, READINGS, HELD>,
        found: u64,
    ) -> Range<usize> {
        words_under_seized::<S, R, READINGS, HELD>(setting, program, found)
    }

    #[inline(always)]
    fn apply(
        setting: &S::Setting,
        actor: u32,
        program: &mut SpeculationOf<S, READINGS, HELD>,
        found: u64,
        snapshot: &mut [u64],
    ) -> Answer {
        apply_found::<S, READINGS, HELD>(setting, actor, program, found, snapshot)
    }

    fn restart(setting: &S::Setting, program: &mut SpeculationOf<S, READINGS, HELD>) {
        let _ = setting;
        restart_now::<S, READINGS, HELD>(program);
    }

    ghost is_system = { λ setting right. (S.are_scripts setting right).is_system };

    ghost are_places = { S.are_places };
}
