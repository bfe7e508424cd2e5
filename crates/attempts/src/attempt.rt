ghost use Rattle.std.specs.Prelude.{◌≡◌, ◌<◌, ◌^◌, ◌++◌, ◌∷◌, [], ℕ, Err, IfNone, IfSome, List, None, Ok, Some, drop, is_some, length, option_copied, slice_get, take};
ghost use Rattle.turns.specs.Attempt.{asked_in, rest_of, turn_in};
ghost use Rattle.turns.specs.Script.{value_read};
ghost use Rattle.turns.specs.Seen.{AreReadWords};
ghost use Rattle.turns.specs.Outcomes.{is_giving_back as is_giving_back_in};
ghost use Rattle.attempts.specs.Counting.{count_in, counted, counted_by, is_at_beginning};
ghost use Rattle.attempts.specs.WalkOnWords.{WantsNext};
ghost use Rattle.attempts.specs.Running.{RunsFarEnough};
ghost use Rattle.attempts.specs.Validity.{begun_at};
ghost use Rattle.attempts.specs.Applied.{continued};

use crate::scripts::Scripts;
use crate::seen::Seen;
use std::marker::Model;
use turns::{Phase, Reading, Wanted};

/// The count after one more step. It saturates.
fn next_count(count: u32) -> u32
    ensures { result ≡ counted count }
{
    count.saturating_add(1)
}

/// An actor's work on a job: what was seen, found and decided since the job last began. It has a
/// fixed size, and doesn't borrow the setting.
///
/// Its phase tells what kind of step is next. Walks lead it through the job's script, from lock to
/// lock and word to word, until it decides. Then it takes its turn, makes the decision's effects
/// and frees its locks. An attempt that is denied a lock withdraws its request, frees its locks
/// and begins anew.
#[derive(Debug, Drop)]
pub struct Attempt<L, J, D, P, const READINGS: usize, const HELD: usize> {
    pub(crate) seen: Seen<L, READINGS, HELD>,
    pub(crate) job: J,
    /// What the walks have found, for the next one to resume from.
    pub(crate) point: P,
    pub(crate) phase: Phase<L, usize>,
    pub(crate) decision: Option<D>,
    /// How many of the decision's effects are made.
    pub(crate) made: usize,
    /// The number of steps so far. Saturates.
    pub(crate) count: u32,
}

/// The attempts at the jobs of `S`.
pub type AttemptOf<S, const READINGS: usize, const HELD: usize> = Attempt<
    <S as Scripts<READINGS, HELD>>::Lock,
    <S as Scripts<READINGS, HELD>>::Job,
    <S as Scripts<READINGS, HELD>>::Decision,
    <S as Scripts<READINGS, HELD>>::ResumePoint,
    READINGS,
    HELD,
>;

impl<L, J, D, P, const READINGS: usize, const HELD: usize> Model
    for Attempt<L, J, D, P, READINGS, HELD> {
    ghost use Rattle.attempts.specs.Validity.{AttemptView};

    ghost Value = { AttemptView L J D P };

    ghost view = { λ a. record {
      job = a.job;
      point = a.point;
      readings = a.seen.seen.readings;
      held = a.seen.seen.held;
      phase = a.phase;
      decision = a.decision;
      made = a.made;
      count = a.count;
    } };
}

impl<
    L: Copy + Default + Drop,
    J: Drop,
    D: Drop,
    P: Drop,
    const READINGS: usize,
    const HELD: usize,
> Attempt<L, J, D, P, READINGS, HELD> {
    /// An attempt that has made no step: it requests the lock `first` next, and its first walk
    /// resumes from `point`.
    pub(crate) fn new(job: J, first: L, point: P) -> Self
        ensures { result ≡ begun_at job first point }
    {
        Attempt {
            seen: Seen::new(),
            job,
            point,
            phase: Phase::Requests(first),
            decision: None,
            made: 0,
            count: 0,
        }
    }

    /// Like `new`, but overwrites an attempt at another job.
    pub(crate) fn begin_job(&mut self, job: J, first: L, point: P)
        ensures { self.new ≡ begun_at job first point }
    {
        self.job = job;
        self.count = 0;
        self.start_over(first, point);
    }

    /// Begins the same job anew, with nothing held. The count stays as it is, until `count_step` or
    /// `count_beginning` resets it.
    pub(crate) fn start_over(&mut self, first: L, point: P)
        ensures { self.new
            ≡ record (begun_at self.old.job first point) { count = self.old.count } }
    {
        self.seen.clear_locks();
        self.phase = Phase::Requests(first);
        self.point = point;
        self.clear_readings();
    }

    /// Drops all that was read and decided.
    pub(crate) fn clear_readings(&mut self)
        ensures { self.new ≡ record self.old { readings = []; decision = None; made = 0 } }
    {
        self.seen.clear_readings();
        self.decision = None;
        self.made = 0;
    }

    /// Gives up this lock: drops all that was read and decided, and withdraws the request next.
    pub(crate) fn deny(&mut self, lock: L)
        ensures { self.new
            ≡ record self.old {
              readings = [];
              decision = None;
              made = 0;
              phase = Phase.Withdraws lock;
            } }
    {
        self.phase = Phase::Withdraws(lock);
        self.clear_readings();
    }

    /// Removes the lock seized first, if any is held.
    pub(crate) fn drop_first_lock(&mut self)
        ensures { self.new ≡ record self.old { held = rest_of self.old.held } }
    {
        self.seen.drop_first_lock();
    }

    /// The walk has decided: the attempt takes its turn next.
    pub(crate) fn decide(&mut self, decision: D)
        ensures { self.new ≡ continued self.old (Ok decision) }
    {
        self.phase = Phase::Turns;
        self.decision = Some(decision);
        self.made = 0;
    }

    /// The walk needs a lock or a word: the attempt requests or tests that next.
    pub(crate) fn want(&mut self, wanted: Wanted<L, usize>)
        ensures { self.new ≡ continued self.old (Err wanted) }
    {
        self.phase = match wanted {
            Wanted::Seize(lock) => Phase::Requests(lock),
            Wanted::Test(word) => Phase::Tests(word),
        };
    }

    /// Continues with the result of the walk: the turn is next, or what the walk needs.
    pub fn continue_with(&mut self, found: Result<D, Wanted<L, usize>>)
        ensures { self.new ≡ continued self.old found }
    {
        match found {
            Ok(decision) => self.decide(decision),
            Err(wanted) => self.want(wanted),
        }
    }

    /// The lock that the next step requests or seizes.
    pub fn lock_to_acquire(&self) -> Option<L>
        ensures { result ≡ asked_in self.now.phase }
    {
        let phase = self.phase;
        match phase {
            Phase::Requests(lock) => Some(lock),
            Phase::Seizes(lock, _) => Some(lock),
            _ => None,
        }
    }

    /// The lock that the attempt requests next, or the word that it tests next. None in other
    /// phases.
    pub(crate) fn wants(&self) -> Option<Wanted<L, usize>>
        ensures some { IfSome result (λ wanted. WantsNext self.now.phase) }
        ensures none { IfNone result ((lock_word : L → ℕ) (words : List ℕ) (most : ℕ) →
            RunsFarEnough lock_word words most 0 self.now.phase self.now.phase) }
    {
        let phase = self.phase;
        match phase {
            Phase::Requests(lock) => Some(Wanted::Seize(lock)),
            Phase::Tests(word) => Some(Wanted::Test(word)),
            _ => None,
        }
    }

    /// Adds a lock that was seized. Like the other public functions below that change an attempt,
    /// it is for `desk_attempts`, which tries predictions and then returns to what steps have
    /// found.
    pub fn hold(&mut self, lock: L)
        requires { length self.old.held < HELD }
        ensures { self.new ≡ record self.old { held = self.old.held ++ lock ∷ [] } }
    {
        self.seen.hold(lock);
    }

    pub(crate) fn add_reading(&mut self, reading: Reading<usize>)
        requires room { length self.old.readings < READINGS }
        requires unread { value_read self.old.readings reading.word ≡ None }
        ensures { self.new ≡ record self.old { readings = self.old.readings ++ reading ∷ [] } }
    {
        self.seen.add_reading(reading);
    }

    /// How many readings there are, and how many locks are held.
    pub fn counts(&self) -> (usize, usize)
        ensures readings { result.0 ≡ length self.now.readings }
        ensures locks { result.1 ≡ length self.now.held }
    {
        self.seen.counts()
    }

    /// Whether the attempt has decided.
    pub fn has_decided(&self) -> bool
        ensures { result ≡ is_some self.now.decision }
    {
        self.decision.is_some()
    }

    /// Keeps the first `kept` readings. The resume point stays: the caller has to know that it is
    /// valid on these readings alone.
    pub fn keep_readings(&mut self, kept: usize)
        ensures { self.new ≡ record self.old { readings = take kept self.old.readings } }
    {
        self.seen.keep_readings(kept);
    }

    /// Keeps the first `readings` readings and the first `locks` locks. The next walk resumes from
    /// `start`.
    pub fn truncate(&mut self, readings: usize, locks: usize, start: P)
        ensures { self.new
            ≡ record self.old {
              readings = take readings self.old.readings;
              held = take locks self.old.held;
              point = start;
            } }
    {
        self.seen.keep_readings(readings);
        self.seen.keep_locks(locks);
        self.point = start;
    }

    /// Drops the decision, and tests this word next. The next walk resumes from `new_point`.
    pub fn test_next(&mut self, word: usize, new_point: P)
        ensures { self.new
            ≡ record self.old {
              phase = Phase.Tests word;
              decision = None;
              made = 0;
              point = new_point;
            } }
    {
        self.phase = Phase::Tests(word);
        self.decision = None;
        self.made = 0;
        self.point = new_point;
    }

    /// Whether the attempt is at its beginning: it requests a lock next, and holds none.
    fn is_fresh(&self) -> bool
        ensures { result ≡ is_at_beginning self.now.phase self.now.held }
    {
        let phase = self.phase;
        if let Phase::Requests(_) = phase {
            self.seen.holds_none()
        } else {
            false
        }
    }

    /// Counts one more step, or resets the count if the attempt is at its beginning again.
    pub(crate) fn count_step(&mut self)
        ensures { self.new
            ≡ record self.old {
              count = count_in self.old.phase self.old.held (counted self.old.count);
            } }
    {
        self.count = if self.is_fresh() {
            0
        } else {
            next_count(self.count)
        };
    }

    /// Counts `made` more steps.
    pub fn count_steps(&mut self, made: u32)
        ensures { self.new ≡ record self.old { count = counted_by made self.old.count } }
    {
        self.count = self.count.saturating_add(made);
    }

    /// Resets the count if the attempt is at its beginning again.
    pub(crate) fn count_beginning(&mut self)
        ensures { self.new
            ≡ record self.old { count = count_in self.old.phase self.old.held self.old.count } }
    {
        if self.is_fresh() {
            self.count = 0;
        }
    }

    /// The decision, once there is one.
    pub fn decision(&self) -> Option<&D>
        ensures { option_copied result ≡ self.now.decision }
    {
        self.decision.as_ref()
    }

    /// The number of the decision's effects that are made.
    pub fn made(&self) -> usize
        ensures { result ≡ self.now.made }
    {
        self.made
    }

    /// What the walks have found: the next one resumes from there.
    pub fn point(&self) -> &P
        ensures { result.now ≡ self.now.point }
    {
        &self.point
    }

    pub fn job(&self) -> &J
        ensures { result.now ≡ self.now.job }
    {
        &self.job
    }

    /// The locks held, in the order of seizing.
    pub fn held(&self) -> &[L]
        ensures { result.now ≡ self.now.held }
    {
        self.seen.held()
    }

    /// The number of the turn, once the attempt has taken it.
    pub fn turn(&self) -> Option<u64>
        ensures { result ≡ turn_in self.now.phase }
    {
        let phase = self.phase;
        if let Phase::Operates(turn) = phase {
            Some(turn)
        } else {
            None
        }
    }

    /// Whether the attempt is giving back: it was given up, and has a request to withdraw or locks
    /// to free.
    pub fn is_giving_back(&self) -> bool
        ensures { result ≡ is_giving_back_in self.now.phase }
    {
        let phase = self.phase;
        match phase {
            Phase::Withdraws(_) => true,
            Phase::GivesBack => true,
            _ => false,
        }
    }

    /// The phase, which tells what kind of step is next.
    pub fn phase(&self) -> Phase<L, usize>
        ensures { result ≡ self.now.phase }
    {
        self.phase
    }

    /// The reading at `place`, counted from 0 in the order of reading.
    pub fn reading(&self, place: usize) -> Option<Reading<usize>>
        ensures { result ≡ slice_get self.now.readings place }
    {
        self.seen.reading(place)
    }

    /// The readings from `place` on. Empty past the last one.
    pub fn readings_from(&self, place: usize) -> &[Reading<usize>]
        ensures readings { result.now ≡ drop place self.now.readings }
        ensures words { AreReadWords self.now.readings }
    {
        // Called for its contract alone.
        self.seen.fits_words();
        self.seen.readings_from(place)
    }

    /// The number of steps so far, counted from 0 each time the attempt begins anew. Saturates at
    /// `u32::MAX`.
    pub fn count(&self) -> u32
        ensures { result ≡ self.now.count }
    {
        self.count
    }
}
