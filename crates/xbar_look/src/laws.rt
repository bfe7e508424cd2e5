//! Laws of what is told of an office as it stands. Each function does nothing: its contract is the
//! law.

ghost use Rattle.std.specs.Prelude.{◌≡◌, ◌<◌, ◌↔◌, ℕ, None, Some, true, slice_get, slice_index};
ghost use Rattle.turns.specs.Among.{IsIn};
ghost use Rattle.turns.specs.Sharing.{held_by};
ghost use Rattle.turns.specs.Sharings.{preferring};
ghost use Rattle.xbar_equip.specs.Conn.{IsConn};
ghost use Rattle.xbar_equip.specs.Word.{ConnWord, word_number};
ghost use Rattle.xbar_equip.specs.declared.conn.Conn.{Conn};
ghost use Rattle.xbar_plan.specs.Tables.{Tables};
ghost use Rattle.xbar_jobs.specs.Attempt.{next_step};
ghost use Rattle.xbar_jobs.specs.OnWords.{answer_of};
ghost use Rattle.xbar_moves.specs.AtWork.{next_step_at};
ghost use Rattle.xbar_moves.specs.Exchange.{Exchange, IsLawfulExchange, Marker, is_idle};
ghost use Rattle.xbar_moves.specs.Moves.{after_answer, after_step};
ghost use Rattle.xbar_look.specs.Jobs.{UnderWay, held_for, requested_for, under_way};

/// The step that is told as a marker's next is the one that it makes next, if it is the next to
/// step: that step of its job, under its number, with the answer that the words give as they stand.
pub fn the_next_step_is_made_next()
    ensures next { (m : Marker) (u : UnderWay) → under_way m ≡ Some u
        → next_step_at m.work ≡ next_step u.attempt }
    ensures made { (plan : Tables) (e : Exchange) (k : ℕ) (m : Marker) (u : UnderWay)
        → slice_get e.markers k ≡ Some m → under_way m ≡ Some u
        → after_step plan k e ≡ after_answer plan k m u.number u.attempt
        (answer_of k (next_step u.attempt) e.words) e }
{}

/// A marker is told without a job exactly if it is idle.
pub fn idle_markers_have_no_job()
    ensures { (m : Marker) → (under_way m ≡ None) ↔ (is_idle m.work ≡ true) }
{}

/// A connector is told among those that a marker holds exactly if the connector's own word, by
/// which its holder is told, names the marker. It is told as the one that a marker requests exactly
/// if the marker's request is in the word.
pub fn held_connectors_name_their_markers()
    ensures held { (plan : Tables) (e : Exchange) (k : ℕ) (m : Marker) (conn : Conn)
        → IsLawfulExchange plan e → IsConn conn → slice_get e.markers k ≡ Some m
        → IsIn conn (held_for (under_way m))
        ↔ (held_by preferring (slice_index e.words (word_number (ConnWord conn))) ≡ Some k) }
    ensures requested { (plan : Tables) (e : Exchange) (k : ℕ) (m : Marker) (conn : Conn)
        → IsLawfulExchange plan e → IsConn conn → slice_get e.markers k ≡ Some m → k < 48
        → (requested_for (under_way m) ≡ Some conn)
        ↔ (preferring.requests k (slice_index e.words (word_number (ConnWord conn))) ≡ true) }
{}
