ghost use Rattle.std.specs.Prelude.{◌≡◌, ◌<◌, ◌≤◌, ◌+◌, ◌-◌, ◌++◌, ◌∷◌, [], None, Some, is_some, length, option_map, slice_get};
ghost use Rattle.turns.specs.Seen.{AreReadWords};
ghost use Rattle.desk_attempts.specs.Speculation.{predictions};
ghost use Rattle.attempts.specs.Counting.{counted_by};

use attempts::{Attempt, Scripts};
use std::marker::Model;
use turns::Reading;

/// An attempt that may have predictions: readings taken from a snapshot, which atomic steps still
/// have to validate.
#[derive(Debug, Drop)]
pub struct Speculation<L, J, D, P, const READINGS: usize, const HELD: usize> {
    /// The attempt as it is if all predictions are right.
    pub(crate) predicted: Attempt<L, J, D, P, READINGS, HELD>,
    /// How many of the readings are validated, or None if all are. The rest are predictions.
    pub(crate) validated: Option<usize>,
}

impl<L, J, D, P, const READINGS: usize, const HELD: usize> Model
    for Speculation<L, J, D, P, READINGS, HELD> {
    ghost use Rattle.desk_attempts.specs.Speculation.{Speculation};

    ghost Value = { Speculation L J D P };

    ghost view = { λ a. record { predicted = a.predicted; validated = a.validated } };
}

/// The attempts at the jobs of `S`, with predictions.
pub type SpeculationOf<S, const READINGS: usize, const HELD: usize> = Speculation<
    <S as Scripts<READINGS, HELD>>::Lock,
    <S as Scripts<READINGS, HELD>>::Job,
    <S as Scripts<READINGS, HELD>>::Decision,
    <S as Scripts<READINGS, HELD>>::ResumePoint,
    READINGS,
    HELD,
>;

/// `before + more`, which doesn't overflow: `more` is at most what `before` leaves of `readings`.
#[inline(always)]
fn made_with(before: usize, more: usize, readings: usize) -> usize
    requires { more ≤ readings - before }
    ensures { result ≡ before + more }
{
    if before < readings {
        before + more
    } else {
        before
    }
}

impl<
    L: Copy + Default + Drop,
    J: Drop,
    D: Drop,
    P: Drop,
    const READINGS: usize,
    const HELD: usize,
> Speculation<L, J, D, P, READINGS, HELD> {
    /// The first prediction.
    #[inline(always)]
    pub(crate) fn prediction(&self) -> Option<Reading<usize>>
        ensures { result ≡ slice_get (predictions self.now) 0 }
    {
        let made = self.validated?;
        self.predicted.reading(made)
    }

    /// The predictions, in the order in which steps have to validate them.
    #[inline(always)]
    pub(crate) fn predictions(&self) -> &[Reading<usize>]
        ensures predictions { result.now ≡ predictions self.now }
        ensures words { AreReadWords self.now.predicted.readings }
    {
        // Without predictions, called for its contract, that each value read fits 64 bits.
        match self.validated {
            Some(made) => self.predicted.readings_from(made),
            None => {
                let _readings = self.predicted.readings_from(0);
                &[]
            }
        }
    }

    /// Marks the first `made` predictions as validated, and counts the steps that did so.
    #[inline(always)]
    pub(crate) fn confirm(&mut self, made: usize)
        requires { made ≤ length (predictions self.old) }
        ensures predicted { self.new.predicted ≡ record self.old.predicted
            { count = self.new.predicted.count } }
        ensures validated { self.new.validated ≡ option_map
            (λ before. before + made) self.old.validated }
    {
        self.predicted
            .count_steps(u32::try_from(made).unwrap_or(u32::MAX));
        let (readings, _) = self.predicted.counts();
        if let Some(before) = self.validated {
            self.validated = Some(made_with(before, made, readings));
        }
    }

    /// Whether the attempt has decided, if all predictions are right.
    pub(crate) fn has_decided(&self) -> bool
        ensures { result ≡ is_some self.now.predicted.decision }
    {
        self.predicted.has_decided()
    }

    /// Marks all readings as validated.
    pub(crate) fn validate_all(&mut self)
        ensures { self.new ≡ record self.old { validated = None } }
    {
        self.validated = None;
    }

    /// Adds the lock that the step has seized, and counts that step.
    pub(crate) fn hold(&mut self, lock: L)
        requires { length self.old.predicted.held < HELD }
        ensures { self.new
            ≡ record self.old {
              predicted = record self.old.predicted {
                held = self.old.predicted.held ++ lock ∷ [];
                count = counted_by 1 self.old.predicted.count;
              };
            } }
    {
        self.predicted.hold(lock);
        self.predicted.count_steps(1);
    }
}
