//! Laws of the one-marker office, for use by other crates. Each function does nothing; its
//! contract is the law.

ghost use Rattle.std.specs.Prelude.{◌≡◌, ◌≢◌, ◌↔◌, ℕ, true, Option, Some, None, [], ◌∷◌, ◌++◌, length, List};
ghost use Rattle.xbar_equip.specs.Len.{Line, IsLine};
ghost use Rattle.xbar_equip.specs.Path.{SharesPart};
ghost use Rattle.xbar_equip.specs.Paths.{has_line, is_idle, without_path};
ghost use Rattle.xbar_equip.specs.Dialled.{IsDialled};
ghost use Rattle.xbar_equip.specs.Among.{IsIn};
ghost use Rattle.xbar_equip.specs.declared.path.Path.{Path};
ghost use Rattle.xbar_plan.specs.Tables.{Tables};
ghost use Rattle.xbar_plan.specs.Lawful.{IsLawful};
ghost use Rattle.xbar_office.specs.Audit.{IsFaultOf};
ghost use Rattle.xbar_office.specs.LawfulSet.{IsLawfulSet};
ghost use Rattle.xbar_office.specs.Legal.{IsJob, AreJobs, IsLegal, after, after_jobs};
ghost use Rattle.xbar_office.specs.AddedPaths.{added_by};
ghost use Rattle.xbar_office.specs.Standing.{register_path};
ghost use Rattle.xbar_office.specs.Whole.{whole};
ghost use Rattle.xbar_office.specs.declared.audit_fault.AuditFault.{AuditFault as AuditFaultOf};
ghost use Rattle.xbar_office.specs.declared.audit_fault.AuditFault.TheVariants.{Memory};
ghost use Rattle.xbar_office.specs.declared.job.Job.{Job as JobOf};
ghost use Rattle.xbar_office.specs.declared.job.Job.TheVariants.{Complete, Release};
ghost use Rattle.xbar_office.specs.declared.reply.End.TheVariants.{Connected, Released};
ghost use Rattle.xbar_office.specs.declared.reply.Record.{Record};

use crate::job::Job;
use xbar_equip::Dialled;
use xbar_equip::laws::line_is_in_range;

/// The dialled digits are in range.
fn digits_are_in_range(dialled: Dialled)
    ensures { IsDialled dialled }
{}

/// The line of a job, and the digits that it dialled, are in range.
pub fn job_is_in_range(job: &Job)
    ensures { IsJob job.now }
{
    match *job {
        Job::Dial(line) => line_is_in_range(line),
        Job::Complete(line, dialled) => {
            line_is_in_range(line);
            digits_are_in_range(dialled);
        }
        Job::Release(line) => line_is_in_range(line),
    }
}

/// An office begins with a lawful set, and its jobs leave its set lawful.
pub fn jobs_leave_lawful_sets()
    ensures empty { (plan : Tables) → IsLawfulSet plan [] }
    ensures job { (plan : Tables) (paths : List Path) (job : JobOf) → IsLawful plan →
        IsLawfulSet plan paths → IsJob job → IsLawfulSet plan (whole plan paths job).paths }
    ensures jobs { (plan : Tables) (paths : List Path) (jobs : List JobOf) → IsLawful plan →
        IsLawfulSet plan paths → AreJobs jobs → IsLawfulSet plan (after_jobs plan paths jobs) }
{}

/// In a lawful set no two paths share a line, a place or a link. So it is after jobs, and after
/// legal records.
pub fn no_part_is_in_two_paths()
    ensures set { (plan : Tables) (paths : List Path) → IsLawfulSet plan paths → (p q : Path) →
        IsIn p paths → IsIn q paths → SharesPart p q → p ≡ q }
    ensures jobs { (plan : Tables) (jobs : List JobOf) → IsLawful plan → AreJobs jobs →
        (p q : Path) → IsIn p (after_jobs plan [] jobs) → IsIn q (after_jobs plan [] jobs) →
        SharesPart p q → p ≡ q }
    ensures records { (plan : Tables) (records : List Record) → IsLawful plan →
        IsLegal plan records → (p q : Path) → IsIn p (after plan records) →
        IsIn q (after plan records) → SharesPart p q → p ≡ q }
{}

/// The set after legal records is lawful.
pub fn legal_records_leave_a_lawful_set()
    ensures { (plan : Tables) (records : List Record) → IsLawful plan → IsLegal plan records →
        IsLawfulSet plan (after plan records) }
{}

/// Legal records stay legal with one more at the end that has the next turn and the reply of the
/// one-marker office. The set after them is what its job leaves of the set before.
pub fn one_record_more_is_legal()
    ensures empty { (plan : Tables) → IsLegal plan [] }
    ensures legal { (plan : Tables) (records : List Record) (last : Record) → IsLegal plan records →
        IsJob last.job → last.turn ≡ length records →
        last.reply ≡ (whole plan (after plan records) last.job).reply →
        IsLegal plan (records ++ last ∷ []) }
    ensures after { (plan : Tables) (records : List Record) (last : Record) →
        after plan (records ++ last ∷ []) ≡ (whole plan (after plan records) last.job).paths }
{}

/// Legal records have no fault, except that an audit may run out of memory.
pub fn legal_records_have_no_fault()
    ensures { (plan : Tables) (records : List Record) (fault : AuditFaultOf) →
        IsLegal plan records → IsFaultOf plan records fault → fault ≡ Memory }
{}

/// If the end of a completing job names no path, and the line had a register, the job removes
/// exactly the register's path, and the line is idle.
pub fn a_completing_job_gives_its_register_back()
    ensures set { (plan : Tables) (paths : List Path) (line : Line) (dialled : ℕ) (own : Path) →
        IsLawful plan → IsLawfulSet plan paths → IsLine line →
        register_path plan paths line ≡ Some own →
        added_by (whole plan paths (Complete line dialled)).reply.end ≡ None →
        (whole plan paths (Complete line dialled)).paths ≡ without_path paths own }
    ensures line { (plan : Tables) (paths : List Path) (line : Line) (dialled : ℕ) (own : Path) →
        IsLawful plan → IsLawfulSet plan paths → IsLine line →
        register_path plan paths line ≡ Some own →
        added_by (whole plan paths (Complete line dialled)).reply.end ≡ None →
        is_idle (has_line line) (whole plan paths (Complete line dialled)).paths ≡ true }
{}

/// The calling path of a call is of the line that dialled, and the called path is of another line.
pub fn a_call_never_gets_a_path_to_its_own_line()
    ensures calling { (plan : Tables) (paths : List Path) (line : Line) (dialled : ℕ)
        (calling : Path) (called : Option Path) (trial : ℕ) →
        (whole plan paths (Complete line dialled)).reply.end ≡ Connected calling called trial →
        calling.line ≡ line }
    ensures called { (plan : Tables) (paths : List Path) (line : Line) (dialled : ℕ) →
        IsLawful plan → IsLawfulSet plan paths → IsLine line → (calling called : Path) (trial : ℕ) →
        (whole plan paths (Complete line dialled)).reply.end ≡
        Connected calling (Some called) trial → called.line ≢ calling.line }
{}

/// A release removes the line's own path and the other path that it names, and leaves exactly the
/// others.
pub fn a_release_leaves_all_other_paths()
    ensures others { (plan : Tables) (paths : List Path) (line : Line) (own : Path)
        (other : Option Path) → IsLawfulSet plan paths →
        (whole plan paths (Release line)).reply.end ≡ Released own other → (path : Path) →
        IsIn path (whole plan paths (Release line)).paths ↔
        (IsIn path paths × (path ≢ own) × (other ≢ Some path)) }
    ensures own { (plan : Tables) (paths : List Path) (line : Line) (own : Path)
        (other : Option Path) → (whole plan paths (Release line)).reply.end ≡ Released own other →
        IsIn own paths × (own.line ≡ line) }
{}
