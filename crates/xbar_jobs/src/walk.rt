//! Walks of jobs, and the points where they resume.

ghost use Rattle.std.specs.Prelude.{◌≡◌, Err, IfSome, IsTrue, None, [], Ok};
ghost use Rattle.turns.specs.Script.{value_read};
ghost use Rattle.turns.specs.declared.wanted.Wanted.TheVariants.{Test};
ghost use Rattle.attempts.specs.Points.{GoesOnTo};
ghost use Rattle.xbar_equip.specs.Conn.{conn_eq};
ghost use Rattle.xbar_plan.specs.Lawful.{IsLawful};
ghost use Rattle.xbar_office.specs.Legal.{IsJob};
ghost use Rattle.xbar_jobs.specs.Jobs.{TestsRows, script, first_conn as first_conn_of, job_line};
ghost use Rattle.xbar_jobs.specs.Script.{walk_on_words, walk as walk_of, walk};
ghost use Rattle.xbar_jobs.specs.Sides.{IsNextJunctor};
ghost use Rattle.xbar_jobs.specs.Tracing.{ResumePointIsValid, approach as approach_script, trace as trace_script};

use crate::completing::complete;
use crate::decision::{Decided, Decision};
use crate::dialling::dial;
use crate::offices::{Seen, Wanted};
use crate::party::Party;
use crate::releasing::release;
use crate::sides::next_junctor;
use crate::tracing::{approach, trace};
use xbar_equip::{Conn, Len, Path};
use xbar_office::Job;
use xbar_plan::Plan;

fn line_of(job: &Job) -> Len
    ensures { result ≡ job_line job.now }
{
    match job {
        Job::Dial(line) | Job::Complete(line, _) | Job::Release(line) => *line,
    }
}

/// The connector that a job seizes first.
pub fn first_conn(job: &Job) -> Conn
    ensures { result ≡ first_conn_of job.now }
{
    Conn::Llf(line_of(job).frame())
}

/// Walks a job of any kind.
#[tactic(auto, unfolding(crate::specs::Jobs::script))]
// Not inlined, so that a walk that stops early pays for few locals.
#[inline(never)]
fn follow(
    plan: &Plan,
    seen: &mut Seen,
    words: &mut [u64],
    job: &Job,
    point: &mut WalkProgress,
) -> Result<Decision, Wanted>
    requires { ResumePointIsValid (job_line job.now) point.old seen.old.seen }
    ensures walk { record { found = result; state = seen.new; words = words.new }
        ≡ walk_on_words [] (script plan.now job.now) seen.old words.old }
    ensures valid_point { ResumePointIsValid (job_line job.now) point.new seen.new.seen }
{
    match job {
        Job::Dial(line) => dial(plan, seen, words, *line, point),
        Job::Complete(line, dialled) => complete(plan, seen, words, *line, *dialled, point),
        Job::Release(line) => release(plan, seen, words, *line, point),
    }
}

/// Walks a job on what the attempt holds and has read: to its decision, or to what it needs next.
pub fn walk(
    plan: &Plan,
    seen: &mut Seen,
    words: &mut [u64],
    job: &Job,
    point: &mut WalkProgress,
) -> Result<Decided, Wanted>
    requires plan { IsLawful plan.now }
    requires job { IsJob job.now }
    requires valid_point { ResumePointIsValid (job_line job.now) point.old seen.old.seen }
    ensures walk { record { found = result; state = seen.new; words = words.new }
        ≡ walk_on_words [] (script plan.now job.now) seen.old words.old }
    ensures valid_point { ResumePointIsValid (job_line job.now) point.new seen.new.seen }
{
    let decision = follow(plan, seen, words, job, point)?;
    // Called only for its contract.
    seen.fits_words();
    Ok(Decided::new(decision))
}

/// Whether the job, from here on, tests line junctor switches only in whole rows.
fn tests_rows(job: &Job, point: &WalkProgress) -> bool
    ensures { IsTrue result → TestsRows job.now point.now }
{
    match job {
        Job::Dial(_) => true,
        Job::Complete(_, _) => match point {
            WalkProgress::Begun | WalkProgress::Approached { .. } => false,
            WalkProgress::Traced { .. } => true,
        },
        Job::Release(_) => false,
    }
}

/// The line junctor switch after this one in its frame, if there is one that wasn't read yet.
fn unread_after(seen: &Seen, word: usize) -> Option<usize>
    ensures next { IfSome result (λ next. IsNextJunctor word next) }
    ensures unread { IfSome result (λ next. value_read seen.now.seen.readings next ≡ None) }
{
    let next = next_junctor(word)?;
    if seen.has_read(next) {
        None
    } else {
        Some(next)
    }
}

/// The word that a job tests after the one that it needs next, if that is known without a walk.
/// The ten line junctor switches of a frame are tested in order, whatever they show and whatever
/// the plan is.
pub fn next_in_row(
    _plan: &Plan,
    seen: &Seen,
    job: &Job,
    point: &WalkProgress,
    word: usize,
) -> Option<usize>
    requires plan { IsLawful _plan.now }
    requires job { IsJob job.now }
    requires valid_point { ResumePointIsValid (job_line job.now) point.now seen.now.seen }
    requires wants { walk_of seen.now.seen (script _plan.now job.now) ≡ Err (Test word) }
    ensures { IfSome result (GoesOnTo conn_eq seen.now.seen (script _plan.now job.now) word) }
{
    if tests_rows(job, point) {
        unread_after(seen, word)
    } else {
        None
    }
}

/// How far a job's walks have come. The next walk goes on from there.
#[derive(Clone, Copy, Debug)]
pub enum WalkProgress {
    /// Nothing was found yet.
    Begun,
    /// The calling line's switch was read.
    Approached { calling: Party },
    /// Its own path was traced too. None if it has no path.
    Traced { calling: Party, own: Option<Path> },
}

impl WalkProgress {
    fn from_line(calling: &Party) -> Self
        ensures { result ≡ WalkProgress.Approached calling.now }
    {
        WalkProgress::Approached { calling: *calling }
    }

    fn from_path(calling: &Party, own: &Option<Path>) -> Self
        ensures { result ≡ WalkProgress.Traced calling.now own.now }
    {
        WalkProgress::Traced {
            calling: *calling,
            own: *own,
        }
    }

    /// Approaches the calling line, unless an earlier walk has.
    pub fn approach(
        &mut self,
        seen: &mut Seen,
        words: &mut [u64],
        line: Len,
    ) -> Result<Party, Wanted>
        requires { ResumePointIsValid line self.old seen.old.seen }
        ensures walk { record { found = result; state = seen.new; words = words.new }
            ≡ walk_on_words [] (approach_script line) seen.old words.old }
        ensures found { walk seen.new.seen (approach_script line) ≡ result }
        ensures valid_point { ResumePointIsValid line self.new seen.new.seen }
    {
        if let WalkProgress::Approached { calling } = *self {
            return Ok(calling);
        }
        if let WalkProgress::Traced { calling, .. } = *self {
            return Ok(calling);
        }
        let calling = approach(seen, words, &[], line)?;
        *self = WalkProgress::from_line(&calling);
        Ok(calling)
    }

    /// Traces the calling line's own path, unless an earlier walk has.
    pub fn trace(
        &mut self,
        seen: &mut Seen,
        words: &mut [u64],
        line: Len,
        calling: &Party,
    ) -> Result<Option<Path>, Wanted>
        requires valid_point { ResumePointIsValid line self.old seen.old.seen }
        requires approached { walk seen.old.seen (approach_script line) ≡ Ok calling.now }
        ensures walk { record { found = result; state = seen.new; words = words.new }
            ≡ walk_on_words [] (trace_script calling.now) seen.old words.old }
        ensures valid_point { ResumePointIsValid line self.new seen.new.seen }
    {
        if let WalkProgress::Traced { own, .. } = *self {
            return Ok(own);
        }
        let own = trace(seen, words, calling)?;
        *self = WalkProgress::from_path(calling, &own);
        Ok(own)
    }
}
