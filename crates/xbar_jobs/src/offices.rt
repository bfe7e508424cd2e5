//! The office's jobs as scripts, and the sizes of their attempts.

use crate::decision::Decided;
use crate::effect::OfficeEffect;
use crate::walk::{WalkProgress, first_conn, next_in_row, walk};
use attempts::{AttemptOf, OnWords, Scripts};
use turns::laws::Family;
use turns::{Clock, LockSharing, Operation};
use xbar_equip::{Conn, WORD_COUNT, conn_number, turn_word};
use xbar_office::{Job, Reply};
use xbar_plan::Plan;

/// What a walk needs next: a connector to seize, or a word to test.
pub type Wanted = turns::Wanted<Conn, usize>;

/// The most words that an attempt reads.
pub const READINGS: usize = 42;

/// The most seizings of a script, counting also those of connectors that are held already.
pub const HELD: usize = 19;

/// The connectors that an attempt holds and the words that it has read.
pub type Seen = attempts::Seen<Conn, READINGS, HELD>;

/// The family of offices as systems of jobs over shared words: one for each plan.
pub struct Offices;

/// An attempt at a job of the office, at run time.
pub type OfficeAttempt = AttemptOf<Offices, READINGS, HELD>;

impl Family for Offices {
    ghost use Rattle.xbar_plan.specs.Tables.{Tables};
    ghost use Rattle.xbar_jobs.specs.Office.{office};

    ghost Setting = { Tables };

    ghost system = { office };
}

impl Scripts<READINGS, HELD> for Offices {
    ghost use Rattle.attempts.specs.SystemWith.{without_decisions};
    ghost use Rattle.turns.specs.declared.lock_sharing.LockSharing.TheVariants.{Preferring};
    ghost use Rattle.xbar_plan.specs.Lawful.{IsLawful};
    ghost use Rattle.xbar_jobs.specs.Closing.{effects as effects_by};
    ghost use Rattle.xbar_jobs.specs.Jobs.{job_line};
    ghost use Rattle.xbar_jobs.specs.Office.{office_over};
    ghost use Rattle.xbar_jobs.specs.Tracing.{ResumePointIsValid};

    type Setting = Plan;

    type Lock = Conn;

    type Job = Job;

    type Reply = Reply;

    type Effect = OfficeEffect;

    type Decision = Decided;

    type ResumePoint = WalkProgress;

    ghost system = { λ plan. without_decisions Preferring (office_over plan) };

    ghost reply_of = { λ decision. decision.reply };

    ghost effects_of = { effects_by };

    ghost IsSetting = { IsLawful };

    ghost ResumePointIsValid = { λ _ job point seen. ResumePointIsValid (job_line job) point seen };

    fn sharing(_plan: &Plan) -> LockSharing {
        LockSharing::Preferring
    }

    fn first(job: &Job) -> Conn {
        first_conn(job)
    }

    fn start(_job: &Job) -> WalkProgress {
        WalkProgress::Begun
    }

    fn walk(
        plan: &Plan,
        job: &Job,
        point: &mut WalkProgress,
        seen: &mut Seen,
        words: &mut [u64],
    ) -> Result<Decided, Wanted> {
        walk(plan, seen, words, job, point)
    }

    fn following(
        plan: &Plan,
        job: &Job,
        point: &WalkProgress,
        seen: &Seen,
        word: usize,
    ) -> Option<usize> {
        next_in_row(plan, seen, job, point, word)
    }

    fn reply(decision: &Decided) -> Reply {
        decision.reply().copy()
    }

    fn effect(decision: &Decided, place: usize) -> Option<OfficeEffect> {
        decision.effect(place)
    }
}

impl OnWords<READINGS, HELD> for Offices {
    fn size(_plan: &Plan) -> usize {
        WORD_COUNT
    }

    fn lock_word(_plan: &Plan, conn: Conn) -> usize {
        usize::from(conn_number(conn))
    }

    fn turn_word(_plan: &Plan) -> usize {
        usize::from(turn_word().number())
    }

    fn clock(_plan: &Plan) -> Clock {
        Clock::Counted
    }

    fn effect_word(_plan: &Plan, effect: OfficeEffect) -> usize {
        usize::from(effect.word().number())
    }

    fn effect_operation(_plan: &Plan, effect: OfficeEffect) -> Operation {
        effect.operation()
    }
}
