//! Applies the answer to an attempt's pending step, with predictions or without.

ghost use Rattle.std.specs.Prelude.{◌≡◌, None, Some, slice_get};
ghost use Rattle.turns.specs.Attempt.{change};
ghost use Rattle.turns.specs.Seen.{Seen as SeenView};
ghost use Rattle.desk_attempts.specs.Speculation.{predictions, validated_of};
ghost use Rattle.desk_attempts.specs.Of.{MayApply, IsValidSpeculation, now_of};
ghost use Rattle.attempts.specs.Of.{AreScripts, IsValid, attempt_of, system_of};

use crate::predicting::{apply_plain, apply_seized};
use crate::speculation::SpeculationOf;
use attempts::Scripts;
use turns::{Answer, Phase, Reading};

/// Drops the predictions and what was decided by them. `word`, that of the first prediction, is
/// tested next.
pub(crate) fn drop_predictions<
    S: Scripts<READINGS, HELD>,
    const READINGS: usize,
    const HELD: usize,
>(program: &mut SpeculationOf<S, READINGS, HELD>, word: usize)
    ensures settled { program.new
        ≡ record {
          predicted = record program.old.predicted {
            readings = validated_of program.old.validated program.old.predicted.readings;
            phase = Phase.Tests word;
            decision = None;
            made = 0;
            point = program.new.predicted.point;
          };
          validated = None;
        } }
    ensures valid_point { (setting : S.Setting) (seen : SeenView S.Lock) →
        S.ResumePointIsValid setting program.old.predicted.job program.new.predicted.point seen }
{
    let start = S::start(program.predicted.job());
    if let Some(made) = program.validated {
        program.predicted.keep_readings(made);
    }
    program.predicted.test_next(word, start);
    program.validated = None;
}

/// Like `drop_predictions`, in a form whose contract lets an answer be applied next.
#[inline(always)]
fn drop_predictions_to_apply<S: Scripts<READINGS, HELD>, const READINGS: usize, const HELD: usize>(
    program: &mut SpeculationOf<S, READINGS, HELD>,
    setting: &S::Setting,
    prediction: Reading<usize>,
)
    requires may { MayApply S.Lock.eq S.Scripts setting.now program.old }
    requires prediction { Some prediction ≡ slice_get (predictions program.old) 0 }
    ensures setting { S.IsSetting setting.now }
    ensures scripts { AreScripts S.Lock.eq S.Scripts setting.now }
    ensures valid { IsValid S.Lock.eq S.Scripts setting.now program.new.predicted }
    ensures now { attempt_of S.Scripts program.new.predicted
        ≡ now_of S.Scripts program.old }
    ensures validated { program.new.validated ≡ None }
{
    let _ = setting;
    drop_predictions::<S, READINGS, HELD>(program, prediction.word);
}

/// Marks all readings as validated, since there are no predictions.
#[inline(always)]
fn expect_no_predictions<S: Scripts<READINGS, HELD>, const READINGS: usize, const HELD: usize>(
    program: &mut SpeculationOf<S, READINGS, HELD>,
    setting: &S::Setting,
)
    requires may { MayApply S.Lock.eq S.Scripts setting.now program.old }
    requires none { None ≡ slice_get (predictions program.old) 0 }
    ensures validated { program.new.validated ≡ None }
    ensures now { attempt_of S.Scripts program.new.predicted
        ≡ now_of S.Scripts program.old }
    ensures may { MayApply S.Lock.eq S.Scripts setting.now program.new }
    ensures setting { S.IsSetting setting.now }
    ensures scripts { AreScripts S.Lock.eq S.Scripts setting.now }
    ensures valid { IsValid S.Lock.eq S.Scripts setting.now program.new.predicted }
{
    let _ = setting;
    program.validate_all();
}

/// Applies the value that was found in the word of the first prediction. If it is as predicted,
/// the prediction is validated; otherwise all are dropped, and the attempt goes on by that value.
#[inline(always)]
pub(crate) fn apply_to_prediction<
    S: Scripts<READINGS, HELD>,
    const READINGS: usize,
    const HELD: usize,
>(
    program: &mut SpeculationOf<S, READINGS, HELD>,
    setting: &S::Setting,
    prediction: Reading<usize>,
    found: u64,
)
    requires may { MayApply S.Lock.eq S.Scripts setting.now program.old }
    requires prediction { Some prediction ≡ slice_get (predictions program.old) 0 }
    ensures change { let O = system_of S.Lock.eq S.Scripts setting.now in
        now_of S.Scripts program.new
        ≡ change O (now_of S.Scripts program.old) (Answer.Value found) }
    ensures valid { IsValidSpeculation S.Lock.eq S.Scripts setting.now program.new }
{
    if found == prediction.value {
        program.confirm(1);
    } else {
        drop_predictions_to_apply::<S, READINGS, HELD>(program, setting, prediction);
        apply_plain::<S, READINGS, HELD>(program, setting, Answer::Value(found));
    }
}

/// Applies the answer to the pending step of an attempt without predictions. If that step seized a
/// lock, the attempt makes predictions by the snapshot `words`, which may be out of date.
#[inline(always)]
pub(crate) fn apply_without_prediction<
    S: Scripts<READINGS, HELD>,
    const READINGS: usize,
    const HELD: usize,
>(
    program: &mut SpeculationOf<S, READINGS, HELD>,
    setting: &S::Setting,
    answer: Answer,
    words: &mut [u64],
)
    requires may { MayApply S.Lock.eq S.Scripts setting.now program.old }
    requires none { None ≡ slice_get (predictions program.old) 0 }
    ensures change { let O = system_of S.Lock.eq S.Scripts setting.now in
        now_of S.Scripts program.new
        ≡ change O (now_of S.Scripts program.old) answer }
    ensures valid { IsValidSpeculation S.Lock.eq S.Scripts setting.now program.new }
{
    expect_no_predictions::<S, READINGS, HELD>(program, setting);
    if let Answer::Seized = answer {
        apply_seized::<S, READINGS, HELD>(program, setting, words);
    } else {
        apply_plain::<S, READINGS, HELD>(program, setting, answer);
    }
}
