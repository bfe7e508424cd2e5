//! Laws of jobs as steps, for the crates above. Each function does nothing: its contract is the
//! law. An office under a lawful plan is a system of jobs, so the laws of `turns` hold of it too.

ghost use Rattle.std.specs.Prelude.{◌≡◌, ◌+◌, ◌≤◌, ℕ, [], List, Err, Option, Some, None, length};
ghost use mathlib.Core.Option.{some};
ghost use lib.ListN.{get_elem?};
ghost use Rattle.turns.specs.Among.{IsIn};
ghost use Rattle.turns.specs.Attempt.{HasDecided, act, answer_to as told_of, begin};
ghost use Rattle.turns.specs.declared.act.Act.TheVariants.{Free};
ghost use Rattle.turns.specs.Bounds.{AreBounded, AreSteady};
ghost use Rattle.turns.specs.Script.{value_read};
ghost use Rattle.turns.specs.Seen.{AreReadFrom};
ghost use Rattle.turns.specs.System.{IsSystem, KeepsTo};
ghost use Rattle.turns.specs.Law.{Lawful};
ghost use Rattle.turns.specs.World.{World, Does, operation as act_operation, place};
ghost use Rattle.turns.specs.declared.answer.Answer.{Answer};
ghost use Rattle.xbar_equip.specs.Len.{Line, IsLine};
ghost use Rattle.xbar_equip.specs.declared.path.Path.{Path};
ghost use Rattle.xbar_plan.specs.Tables.{Tables};
ghost use Rattle.xbar_plan.specs.Lawful.{IsLawful};
ghost use Rattle.xbar_office.specs.Legal.{IsJob};
ghost use Rattle.xbar_office.specs.declared.job.Job.{Job};
ghost use Rattle.xbar_office.specs.declared.job.Job.TheVariants.{Release};
ghost use Rattle.xbar_office.specs.declared.reply.Card.{Card};
ghost use Rattle.xbar_office.specs.declared.reply.End.TheVariants.{Released};
ghost use Rattle.xbar_jobs.specs.Attempt.{Act, Attempt, fresh, step_of};
ghost use Rattle.xbar_jobs.specs.Counting.{AreAnswers, after_answers};
ghost use Rattle.xbar_jobs.specs.Jobs.{script};
ghost use Rattle.xbar_jobs.specs.Keeping.{IsCovered};
ghost use Rattle.xbar_jobs.specs.Office.{ShowsOffice, office};
ghost use Rattle.xbar_jobs.specs.OnWords.{step_answer, operation, step_word};
ghost use Rattle.xbar_jobs.specs.Opening.{ReleasesJust};
ghost use Rattle.xbar_jobs.specs.Others.{SeizesOthers};
ghost use Rattle.xbar_jobs.specs.Script.{Script, Seen, walk};
ghost use Rattle.xbar_jobs.specs.declared.decision.Decision.{Decision};
ghost use Rattle.xbar_jobs.specs.Standing.{IsValid, most_effects, most_held, most_others, most_readings, most_seizings, most_steps};
ghost use Rattle.xbar_jobs.specs.Turning.{DoesAsOffice};
ghost use Rattle.xbar_equip.specs.declared.conn.Conn.{Conn};

use crate::offices::Offices;
use turns::{Phase, Wanted};

/// An office under a lawful plan is a system of jobs over shared words.
pub fn the_office_is_a_system()
    ensures { (plan : Tables) → IsLawful plan → IsSystem (office plan) }
{}

/// A job's script tests a word only once it has seized the word's connector, and its effects are
/// only on words whose connectors it has seized.
pub fn scripts_keep_to_what_they_hold()
    ensures { (plan : Tables) (job : Job) → IsLawful plan → IsJob job
        → KeepsTo (office plan) (IsCovered plan) [] (script plan job) }
{}

/// What a walk needs next is neither held nor read yet.
pub fn walks_want_what_is_not_there()
    ensures conn { (seen : Seen) (script : Script Decision) (conn : Conn)
        → walk seen script ≡ Err (Wanted.Seize conn) → ¬ IsIn conn seen.held }
    ensures word { (seen : Seen) (script : Script Decision) (word : ℕ)
        → walk seen script ≡ Err (Wanted.Test word) → value_read seen.readings word ≡ None }
{}

/// A step's word, operation and answer are those of the act that it makes.
pub fn steps_do_what_their_acts_do()
    ensures word { (plan : Tables) (act : Act) → step_word (step_of act) ≡ place (office plan) act }
    ensures operation { (plan : Tables) (marker : ℕ) (act : Act) →
        operation marker (step_of act) ≡ act_operation (office plan) marker act }
    ensures answer { (plan : Tables) (marker : ℕ) (act : Act) (found : ℕ)
        → step_answer marker (step_of act) found ≡ told_of (office plan) marker act found }
{}

/// Past its turn an attempt frees connectors last: once no effect is left.
pub fn frees_come_last()
    ensures { (a : Attempt) (turn : ℕ) (conn : Conn) → a.phase ≡ Phase.Operates turn
        → act a ≡ Free conn → a.effects ≡ [] }
{}

/// On any words that show a set of paths and agree with its readings, an attempt that has decided
/// has the one-marker office's reply, and its effects lead to words that show that office's paths.
pub fn decisions_are_the_one_marker_offices()
    ensures { (plan : Tables) (a : Attempt) → IsLawful plan → IsJob a.job
        → HasDecided (office plan) a → DoesAsOffice plan a }
{}

/// The effects of a release open exactly the crosspoints of the call that its reply names, each of
/// which is closed, and clear its member's bit. Nothing else changes.
pub fn a_release_opens_just_its_call()
    ensures { (plan : Tables) (a : Attempt) (line : Line) (own : Path) (other : Option Path)
        (words : List ℕ) (paths : List Path)
        → IsLawful plan → IsLine line → a.job ≡ Release line → HasDecided (office plan) a
        → (cards : List Card) → a.reply ≡ Some (record { end = Released own other; cards = cards })
        → length words ≡ 453 → ShowsOffice plan words paths → AreReadFrom words a.readings
        → ReleasesJust plan own other words a.effects }
{}

/// An attempt that is never denied and never repeats a seizing ends within 128 steps. From any
/// other point, also after a restart, it ends within 128 steps more than one for its request and
/// one for each connector that it holds.
pub fn steady_attempts_are_short()
    ensures fresh { (plan : Tables) (job : Job) (answers : List Answer) → IsLawful plan → IsJob job
        → AreSteady (office plan) (begin (office plan) job) answers → length answers ≤ most_steps }
    ensures anywhere { (plan : Tables) (w : World (office plan)) (k number : ℕ) (a : Attempt)
        (answers : List Answer) → IsLawful plan → Lawful (office plan) w
        → get_elem? w.actors k ≡ some (Does number a)
        → AreSteady (office plan) a answers → length answers ≤ 1 + length a.held + most_steps }
{
    the_office_is_a_system();
    jobs_are_bounded();
    turns::laws::steady_attempts_are_short::<Offices>();
}

/// Each job has at most 42 tests, 19 seizings and 14 effects.
pub fn jobs_are_bounded()
    ensures { (plan : Tables) → IsLawful plan
        → AreBounded (office plan) most_readings most_seizings most_effects }
{}

/// Whatever answers it gets, an attempt holds at most 18 connectors: the ten line link frames,
/// each at most once, and eight others, since no script seizes more than eight others.
pub fn jobs_hold_few_connectors()
    ensures others { (plan : Tables) (job : Job) → IsLawful plan
        → SeizesOthers most_others (script plan job) }
    ensures valid { (plan : Tables) (a : Attempt) → IsValid plan a → length a.held ≤ most_held }
    ensures told { (plan : Tables) (job : Job) (answers : List Answer) → IsLawful plan → IsJob job
        → AreAnswers plan (fresh job).attempt answers
        → length (after_answers plan (fresh job) answers).attempt.held ≤ most_held }
{}

/// The count of an attempt that is never denied and never repeats a seizing is the number of its
/// steps, so it is at most 128.
pub fn counts_are_steps()
    ensures count { (plan : Tables) (job : Job) (answers : List Answer) → IsLawful plan → IsJob job
        → AreSteady (office plan) (begin (office plan) job) answers
        → (after_answers plan (fresh job) answers).count ≡ length answers }
    ensures bound { (plan : Tables) (job : Job) (answers : List Answer) → IsLawful plan → IsJob job
        → AreSteady (office plan) (begin (office plan) job) answers
        → (after_answers plan (fresh job) answers).count ≤ most_steps }
{
    steady_attempts_are_short();
}
