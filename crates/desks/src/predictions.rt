//! Testing a program's predictions: the words that it tests next, each with the value expected
//! there.

ghost use Rattle.std.specs.Prelude.{◌≡◌, ◌<◌, ◌≤◌, ◌^◌, IfSome, length, slice_get};
ghost use Rattle.turns.specs.System.{system_of};
ghost use Rattle.turns.specs.declared.phase.Phase.TheVariants.{Tests};
ghost use Rattle.desks.specs.Predictions.{confirmed, corrected, tests_made};
ghost use Rattle.desks.specs.Running.{HasComeTo, IsAtWork};
ghost use Rattle.desks.specs.Watching.{watched_more};

use crate::jobs::{Jobs, WordStep};
use crate::rule::Systems;
use crate::steps::{SeatView, Words, make};
use crate::watch::Watch;
use atomic_table::Seat;
use std::marker::Brand;
use turns::{Operation, Reading, laws};

#[inline(always)]
fn prediction_at(predictions: &[Reading<usize>], place: usize) -> Option<Reading<usize>>
    ensures { result ≡ slice_get predictions.now place }
{
    predictions.get(place).copied()
}

/// Tests the program's predictions, up to the first that is wrong. Returns the number of right
/// ones before it, and the value found in place of the wrong one, if there is one.
#[inline(always)]
fn test_predictions<F: Jobs, W: Watch>(
    shared: &Words<F>,
    setting: &F::Setting,
    seat: &mut Seat<(), SeatView<F>>,
    actor: u32,
    number: u64,
    program: &F::Program,
    watch: &mut W,
) -> (usize, Option<u64>)
    requires at_work { IsAtWork (system_of (F.system setting.now)) (F.places setting.now)
        (F.IsSetting setting.now) (F.IsValid setting.now program.now) setting.now shared.now.key.setting.value
        shared.now.table_id seat.old.table_id seat.old.me actor number (F.attempt program.now) }
    ensures at_work { let O = system_of (F.system setting.now) in
        IsAtWork O (F.places setting.now) (F.IsSetting setting.now)
        (F.IsValid setting.now program.now) setting.now
        shared.now.key.setting.value shared.now.table_id seat.new.table_id seat.new.me actor number
        (corrected O
        (confirmed O (F.attempt program.now) (F.predictions_of program.now) result.0) result.1) }
    ensures within { result.0 ≤ length (F.predictions_of program.now) }
    ensures few { result.0 < 2 ^ 62 }
    ensures goes_on { let O = system_of (F.system setting.now) in IfSome result.1 (λ _.
        (word : _) ×
        ((confirmed O (F.attempt program.now) (F.predictions_of program.now) result.0).phase
        ≡ Tests word)) }
    ensures come { let O = system_of (F.system setting.now) in
        HasComeTo O actor number (tests_made result.0 result.1) (F.attempt program.now)
        (corrected O
        (confirmed O (F.attempt program.now) (F.predictions_of program.now) result.0) result.1)
        seat.old.me seat.new.me }
    ensures reported { W.steps_watched watch.new
        ≡ watched_more (tests_made result.0 result.1) (W.steps_watched watch.old) }
{
    laws::every_move_keeps_the_law::<Systems<F>>();
    let predictions = F::predictions(setting, program);
    let mut made = 0;
    while let Some(prediction) = prediction_at(predictions, made) {
        let test = WordStep {
            place: prediction.word,
            operation: Operation::Load,
        };
        let found = make::<F, W, Brand>(
            shared, setting, seat, actor, number, program, made, test, watch,
        );
        if found != prediction.value {
            return (made, Some(found));
        }
        made += 1;
    }
    (made, None)
}

/// Confirms the first `made` predictions of the program, if `made` isn't 0.
#[inline(always)]
fn confirm<F: Jobs>(setting: &F::Setting, program: &mut F::Program, made: usize)
    requires valid { F.IsValid setting.now program.old }
    requires made { made ≤ length (F.predictions_of program.old) }
    ensures confirmed { F.attempt program.new
        ≡ confirmed (system_of (F.system setting.now)) (F.attempt program.old)
        (F.predictions_of program.old) made }
    ensures valid { F.IsValid setting.now program.new }
{
    if made > 0 {
        F::confirm(setting, program, made);
    }
}

/// Tests the program's predictions, up to the first that is wrong, and applies what was found to
/// the program. Returns the number of tests made.
#[inline(always)]
pub(crate) fn read_predictions<F: Jobs, W: Watch>(
    shared: &Words<F>,
    setting: &F::Setting,
    seat: &mut Seat<(), SeatView<F>>,
    actor: u32,
    number: u64,
    program: &mut F::Program,
    snapshot: &mut [u64],
    watch: &mut W,
) -> usize
    requires { IsAtWork (system_of (F.system setting.now)) (F.places setting.now)
        (F.IsSetting setting.now) (F.IsValid setting.now program.old) setting.now shared.now.key.setting.value
        shared.now.table_id seat.old.table_id seat.old.me actor number (F.attempt program.old) }
    ensures at_work { IsAtWork (system_of (F.system setting.now)) (F.places setting.now)
        (F.IsSetting setting.now) (F.IsValid setting.now program.new) setting.now shared.now.key.setting.value
        shared.now.table_id seat.new.table_id seat.new.me actor number (F.attempt program.new) }
    ensures few { result < 2 ^ 63 }
    ensures come { HasComeTo (system_of (F.system setting.now)) actor number result
        (F.attempt program.old) (F.attempt program.new) seat.old.me seat.new.me }
    ensures reported { W.steps_watched watch.new ≡ watched_more result (W.steps_watched watch.old) }
{
    let (made, other) = test_predictions::<F, W>(
        shared, setting, seat, actor, number, program, watch,
    );
    confirm::<F>(setting, program, made);
    let Some(found) = other else {
        return made;
    };
    F::apply(setting, actor, program, found, snapshot);
    made + 1
}
