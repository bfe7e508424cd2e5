//! Laws of the shared words between any two steps of threads, and of each step. The functions do
//! nothing: their contracts are the laws.

ghost use Rattle.std.specs.Prelude.{◌≡◌, ◌≤◌, ◌<◌, ◌^◌, ℕ, List, [], ◌∷◌, ◌++◌, length};
ghost use Rattle.std.specs.Prelude.{Option, Some, false, true};
ghost use Rattle.turns.specs.Attempt.{begin_with};
ghost use Rattle.turns.specs.World.{Does};
ghost use Rattle.turns.specs.declared.phase.Phase.{Phase};
ghost use Rattle.desks.specs.Parts.{Begins};
ghost use Rattle.xbar_equip.specs.declared.conn.Conn.{Conn};
ghost use Rattle.xbar_equip.specs.Len.{Line};
ghost use Rattle.xbar_equip.specs.Link.{Link};
ghost use Rattle.xbar_equip.specs.declared.crosspoint.Crosspoint.{Crosspoint};
ghost use Rattle.xbar_equip.specs.declared.path.Path.{Path};
ghost use Rattle.xbar_plan.specs.Lawful.{IsLawful};
ghost use Rattle.xbar_plan.specs.Tables.{Tables};
ghost use Rattle.xbar_office.specs.declared.job.Job.{Job};
ghost use Rattle.xbar_office.specs.declared.job.Job.TheVariants.{Release};
ghost use Rattle.xbar_office.specs.declared.reply.Card.{Card};
ghost use Rattle.xbar_office.specs.declared.reply.End.TheVariants.{Released};
ghost use Rattle.xbar_office.specs.declared.reply.Record.{Record};
ghost use Rattle.xbar_jobs.specs.Attempt.{Attempt};
ghost use Rattle.xbar_jobs.specs.Jobs.{first_conn};
ghost use Rattle.xbar_moves.specs.Exchange.{Exchange, is_idle};
ghost use Rattle.xbar_moves.specs.Holding.{AsksFor, HasRequested, Holds, IsAt};
ghost use Rattle.xbar_moves.specs.Links.{BelongsTo, IsAtLink, IsClosed, OpensItsOwn};
ghost use Rattle.xbar_moves.specs.Moves.{given_by};
ghost use Rattle.xbar_fabric.specs.Advances.{MarkerHasAdvanced, MarkerHasGivenBack, MarkerHasRun};
ghost use Rattle.xbar_fabric.specs.Advances.{MarkerHasStepped};
ghost use Rattle.xbar_fabric.specs.Between.{IsOfficeOn, Keeps, Known};
ghost use Rattle.xbar_fabric.specs.Histories.{IsHistory, job_at, turned_of};
ghost use Rattle.xbar_fabric.specs.Meetings.{MarkerHasLearned, MarkersHaveMet};
ghost use Rattle.xbar_fabric.specs.Reports.{MarkerHasWorked, ended, reported_by};
ghost use Rattle.xbar_fabric.specs.Views.{DeskView, mine};

use turns::Phase;
use xbar_moves::{Event, Given};

/// Whatever the table of shared words keeps between any two steps, there is an office with these
/// words. In each office with these words, also with jobs under way, each closed crosspoint belongs
/// to a path, all closed crosspoints at one link belong to one path, and a marker past its turn
/// that releases a call has left to open only what its reply names.
pub fn between_steps_there_is_an_office()
    ensures office { (plan : Tables) (count : ℕ) (words : List ℕ) (known : List (Known plan)) →
        Keeps plan count words known → (e : Exchange) × IsOfficeOn plan count words e }
    ensures belongs { (plan : Tables) (count : ℕ) (words : List ℕ) (e : Exchange)
        (c : Crosspoint) → IsLawful plan → IsOfficeOn plan count words e → IsClosed words c →
        (path : Path) × BelongsTo plan e path c }
    ensures one_call { (plan : Tables) (count : ℕ) (words : List ℕ) (e : Exchange) (link : Link)
        (c : Crosspoint) → IsLawful plan → IsOfficeOn plan count words e → IsClosed words c →
        IsAtLink link c → (path : Path)
        × ((d : Crosspoint) → IsClosed words d → IsAtLink link d → BelongsTo plan e path d) }
    ensures release { (plan : Tables) (count : ℕ) (words : List ℕ) (e : Exchange)
        (k number turn : ℕ) (a : Attempt) (line : Line) (own : Path) (other : Option Path)
        (cards : List Card) → IsLawful plan → IsOfficeOn plan count words e → IsAt e k number a →
        a.phase ≡ Phase.Operates turn → a.job ≡ Release line →
        a.reply ≡ Some (record { end = Released own other; cards = cards }) →
        OpensItsOwn plan own other words a.effects }
{
    xbar_moves::laws::no_link_carries_two_calls();
    xbar_moves::laws::a_release_opens_its_own_crosspoints();
}

/// What an answer says is true in the office in which the step was made. If a desk is refused a
/// connector, the marker that is named holds it. If another marker is preferred, nobody holds the
/// connector, and the one that is named has requested it and has the lowest number of all that
/// have.
pub fn steps_tell_the_truth()
    ensures refused { (before after : DeskView) (conn : Conn) (holder : ℕ)
        → (step : MarkerHasStepped before after (Event.Refused conn holder))
        → AsksFor step.office before.marker conn × Holds step.office holder conn }
    ensures preferred { (before after : DeskView) (other : ℕ)
        → (step : MarkerHasStepped before after (Event.Preferred other))
        → (conn : Conn) × AsksFor step.office before.marker conn × (other < before.marker)
        × HasRequested step.office other conn × ((j : ℕ) → ¬ Holds step.office j conn) }
    ensures least { (before after : DeskView) (other : ℕ)
        → (step : MarkerHasStepped before after (Event.Preferred other)) → (conn : Conn)
        → AsksFor step.office before.marker conn → (j : ℕ) → j < other
        → ¬ HasRequested step.office j conn }
{
    xbar_moves::laws::events_tell_the_truth();
}

/// A desk reports each of its own records once, in order. `advance` reports the record of a job that
/// ends; after a step or a run that ends a job, `record` returns it. Nothing else that a desk does
/// takes a turn.
pub fn desks_report_their_records()
    ensures assigned { (before : DeskView) (number : ℕ) (job : Job) →
        is_idle before.work ≡ true → MarkerHasWorked before
        (record before { work = Does number (begin_with (first_conn job) job) }) [] }
    ensures advanced { (before after : DeskView) (event : Event) →
        MarkerHasAdvanced before after event → MarkerHasWorked before after (reported_by event) }
    ensures stepped { (before after : DeskView) (event : Event) → is_idle before.work ≡ false →
        MarkerHasAdvanced before after event → MarkerHasWorked before after (ended after) }
    ensures run { (count : ℕ) (before after : DeskView) → is_idle before.work ≡ false →
        MarkerHasRun count before after → MarkerHasWorked before after (ended after) }
    ensures given_back { (before after : DeskView) → given_by before.work ≡ Given.Given →
        MarkerHasGivenBack before after → MarkerHasWorked before after [] }
    ensures learned { (before after : DeskView) (noted : List Record) →
        after ≡ record before { seen = after.seen } → MarkerHasLearned before noted after →
        MarkerHasWorked before after [] }
    ensures met { (one other one_after other_after : DeskView) →
        one_after ≡ record one { seen = one_after.seen } →
        other_after ≡ record other { seen = other_after.seen } →
        MarkersHaveMet one other one_after other_after →
        MarkerHasWorked one one_after [] × MarkerHasWorked other other_after [] }
    ensures both { (a b c : DeskView) (reported more : List Record) →
        MarkerHasWorked a b reported → MarkerHasWorked b c more →
        MarkerHasWorked a c (reported ++ more) }
{}

/// A desk's job stays the one that was assigned to it, whatever steps the desk makes. The record
/// that the desk reports at the job's end is the job's.
pub fn reports_are_of_assigned_jobs()
    ensures job { (before after : DeskView) (event : Event) → MarkerHasAdvanced before after event →
        job_at after.work ≡ job_at before.work }
    ensures reported { (before after : DeskView) (r : Record) →
        MarkerHasAdvanced before after (Event.Finished r) → turned_of after ≡ r ∷ [] }
{}

/// A desk's next own record has a later turn than all that the desk had seen before.
pub fn next_records_have_later_turns()
    ensures later { (before after : DeskView) (r : Record) → after.marker ≡ before.marker →
        Begins before.seen after.seen → mine after ≡ mine before ++ r ∷ [] →
        IsHistory after.plan after.seen → length after.seen < 2 ^ 64 →
        (length before.seen ≤ r.turn) × (r.turn < length after.seen) }
{}
