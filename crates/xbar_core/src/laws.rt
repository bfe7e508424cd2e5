//! Laws of giving back and of how jobs end. The other laws of every office are those of
//! `xbar_moves`. Each function does nothing: its contract is the law.

ghost use Rattle.std.specs.Prelude.{◌≡◌, ◌+◌, ◌<◌, ◌≤◌, ◌∷◌, ◌++◌, ◌≢◌, ℕ, List, [], length, slice_get, slice_index, true};
ghost use Rattle.turns.specs.Attempt.{begin_with};
ghost use Rattle.turns.specs.declared.phase.Phase.{Phase};
ghost use Rattle.xbar_equip.specs.declared.conn.Conn.{Conn};
ghost use Rattle.xbar_plan.specs.Tables.{Tables};
ghost use Rattle.xbar_plan.specs.Lawful.{IsLawful};
ghost use Rattle.xbar_office.specs.Legal.{after};
ghost use Rattle.xbar_office.specs.declared.reply.Record.{Record};
ghost use Rattle.xbar_jobs.specs.Attempt.{Attempt};
ghost use Rattle.xbar_jobs.specs.Jobs.{first_conn};
ghost use Rattle.xbar_jobs.specs.Office.{office};
ghost use Rattle.xbar_core.specs.Ends.{ComesToEnd, Settles, own_steps};
ghost use Rattle.xbar_moves.specs.Exchange.{Exchange, IsLawfulExchange, Marker, is_idle};
ghost use Rattle.xbar_moves.specs.Holding.{HasRequested, Holds, IsAt};
ghost use Rattle.xbar_moves.specs.Moves.{event_at_step, given_at, given_back};
ghost use Rattle.xbar_moves.specs.Runs.{Move, after_move, run_from};
ghost use Rattle.xbar_moves.specs.Settling.{settled};
ghost use Rattle.xbar_moves.specs.declared.event.Event.{Event};
ghost use Rattle.xbar_moves.specs.declared.event.Given.{Given};

pub use xbar_moves::laws::{
    a_release_opens_its_own_crosspoints, attempts_keep_their_order, connectors_tell_the_truth,
    events_tell_the_truth, every_move_keeps_the_law, every_run_is_lawful, jobs_act_at_their_turns,
    moves_are_those_of_its_world, no_link_carries_two_calls, turned_jobs_are_recorded,
    words_are_their_holders,
};

/// A marker that gives back, as it may up to its turn, then holds no connector, has no request,
/// and is at the very beginning of its job. Whether it gives back or not, it keeps its job under
/// its number, and no record, no other marker and no protected word changes.
pub fn giving_back_frees_all()
    ensures free { (plan : Tables) (e : Exchange) (k : ℕ) (conn : Conn) →
        given_at e k ≡ Given.Given →
        (¬ Holds (given_back plan k e) k conn) × (¬ HasRequested (given_back plan k e) k conn) }
    ensures job { (plan : Tables) (e : Exchange) (k number : ℕ) (a : Attempt) → IsAt e k number a →
        (b : Attempt) × IsAt (given_back plan k e) k number b × (b.job ≡ a.job) }
    ensures records { (plan : Tables) (e : Exchange) (k : ℕ) →
        (given_back plan k e).records ≡ e.records }
    ensures others { (plan : Tables) (e : Exchange) (k j : ℕ) → j ≢ k →
        slice_get (given_back plan k e).markers j ≡ slice_get e.markers j }
    ensures words { (plan : Tables) (e : Exchange) (k n : ℕ) → n < 416 →
        slice_index (given_back plan k e).words n ≡ slice_index e.words n }
    ensures begins { (plan : Tables) (e : Exchange) (k number : ℕ) (a : Attempt)
        → given_at e k ≡ Given.Given → IsAt e k number a
        → IsAt (given_back plan k e) k number (begin_with (first_conn a.job) a.job) }
{}

/// Records are only ever added at the end: those before any moves are a prefix of those after
/// them.
pub fn records_only_grow()
    ensures moved { (plan : Tables) (e : Exchange) (move : Move)
        → (later : List Record) × ((after_move plan e move).records ≡ e.records ++ later) }
    ensures run { (plan : Tables) (e : Exchange) (moves : List Move)
        → (later : List Record) × ((run_from plan e moves).records ≡ e.records ++ later) }
{}

/// A job past its turn comes to its end within as many steps of its marker as it has effects and
/// connectors left, whatever other moves come in between. The step that frees its last connector
/// reports its record.
pub fn jobs_past_their_turns_end()
    ensures ends { (plan : Tables) (e : Exchange) (moves : List Move) (k number turn : ℕ)
        (a : Attempt) → IsAt e k number a → a.phase ≡ Phase.Operates turn
        → length a.effects + length a.held ≤ own_steps k moves
        → ComesToEnd plan e moves k number turn a.job }
    ensures told { (plan : Tables) (e : Exchange) (k number turn : ℕ) (a : Attempt) (conn : Conn)
        → IsLawfulExchange plan e → IsAt e k number a → a.phase ≡ Phase.Operates turn
        → a.effects ≡ [] → a.held ≡ conn ∷ []
        → (r : Record) × (event_at_step plan k e ≡ Event.Finished r) }
{}

/// An office that settles brings each job to its end, in the order of the markers' numbers: first
/// the markers past their turn run to their end, then all others give back, and then each runs to
/// its end. Then all markers are idle. Only one office can result.
pub fn settling_ends_all_jobs()
    ensures settles { (plan : Tables) (e : Exchange) → IsLawful plan → IsLawfulExchange plan e
        → Settles plan e (settled plan e) }
    ensures idle { (plan : Tables) (e : Exchange) (k : ℕ) (m : Marker) → IsLawful plan
        → IsLawfulExchange plan e → slice_get (settled plan e).markers k ≡ Some m
        → is_idle m.work ≡ true }
    ensures one { (plan : Tables) (e other : Exchange) → Settles plan e other
        → IsLawful plan → IsLawfulExchange plan e → other ≡ settled plan e }
    ensures same { (plan : Tables) (e one other : Exchange)
        → Settles plan e one → Settles plan e other → one ≡ other }
{}
