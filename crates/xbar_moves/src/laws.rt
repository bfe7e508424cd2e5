//! Laws of every office of many markers, whatever moves its markers make in whatever order. Each
//! function does nothing: its contract is the law.

ghost use Rattle.std.specs.Prelude.{◌≡◌, ◌+◌, ◌<◌, ◌≤◌, ◌⊎◌, ◌^◌, ◌%◌, ◌∷◌, ◌++◌, ◌≢◌, ℕ, List, [], Option, Some, None, true, length, slice_get, slice_index};
ghost use Rattle.turns.specs.Among.{IsIn};
ghost use Rattle.turns.specs.Attempt.{IsSeizing, act, change, read_in};
ghost use Rattle.turns.specs.declared.act.Act.TheVariants.{Free, Make};
ghost use Rattle.turns.specs.System.{perform_all};
ghost use Rattle.turns.specs.World as worlds;
ghost use Rattle.turns.specs.declared.answer.Answer.{Answer};
ghost use Rattle.turns.specs.declared.phase.Phase.{Phase};
ghost use Rattle.turns.specs.declared.reading.Reading.{Reading};
ghost use Rattle.xbar_equip.specs.Conn.{IsConn};
ghost use Rattle.xbar_equip.specs.Word.{ConnWord, TurnWord, word_number};
ghost use Rattle.xbar_equip.specs.declared.conn.Conn.{Conn};
ghost use Rattle.xbar_equip.specs.Len.{Line};
ghost use Rattle.xbar_equip.specs.Link.{Link};
ghost use Rattle.xbar_equip.specs.declared.crosspoint.Crosspoint.{Crosspoint};
ghost use Rattle.xbar_equip.specs.declared.path.Path.{Path};
ghost use Rattle.xbar_plan.specs.Tables.{Tables};
ghost use Rattle.xbar_plan.specs.Lawful.{IsLawful};
ghost use Rattle.xbar_office.specs.Legal.{IsJob, IsLegal, AreJobs, HaveReplies, after, jobs_of};
ghost use Rattle.xbar_office.specs.declared.job.Job.{Job};
ghost use Rattle.xbar_office.specs.declared.job.Job.TheVariants.{Release};
ghost use Rattle.xbar_office.specs.declared.reply.Card.{Card};
ghost use Rattle.xbar_office.specs.declared.reply.End.TheVariants.{Released};
ghost use Rattle.xbar_office.specs.declared.reply.Record.{Record};
ghost use Rattle.xbar_jobs.specs.Attempt.{Attempt, next_step};
ghost use Rattle.xbar_jobs.specs.Office.{Protects, ShowsOffice, office};
ghost use Rattle.xbar_jobs.specs.OnWords.{answer_of, step_word};
ghost use Rattle.xbar_jobs.specs.Opening.{ReleasesJust};
ghost use Rattle.xbar_jobs.specs.declared.effect.Effect.{Effect};
ghost use Rattle.xbar_moves.specs.Exchange.{Exchange, IsLawfulExchange, Marker, is_idle, fresh_exchange, world};
ghost use Rattle.xbar_moves.specs.Holding.{AsksFor, HasRequested, Holds, IsAt, TellsTruth, completed};
ghost use Rattle.xbar_moves.specs.Links.{BelongsTo, IsAtLink, IsClosed, IsPastTurn, OpensItsOwn};
ghost use Rattle.xbar_moves.specs.Moves.{assigned, restarted_at, event_at_step, given_back, added_record, refusal, after_step};
ghost use Rattle.xbar_moves.specs.Runs.{AreMoves, Move, run_of};
ghost use Rattle.xbar_moves.specs.Settling.{settled};
ghost use Rattle.xbar_moves.specs.declared.event.Event.{Event};
ghost use Rattle.xbar_moves.specs.declared.kinds.Kind.{Kind};

/// A new office is lawful, and each assignment, step, restart, give back and settling keeps it
/// lawful. A step that is a turn adds its record at the end; any other step adds none.
pub fn every_move_keeps_the_law()
    ensures opens { (plan : Tables) (kinds : List Kind) → IsLawful plan → length kinds ≤ 48 →
        IsLawfulExchange plan (fresh_exchange kinds) }
    ensures assigns { (plan : Tables) (e : Exchange) (k number : ℕ) (job : Job) →
        IsLawful plan → IsLawfulExchange plan e → IsJob job → refusal e k job ≡ None →
        IsLawfulExchange plan (assigned k number job e) }
    ensures steps { (plan : Tables) (e : Exchange) (k : ℕ) →
        IsLawful plan → IsLawfulExchange plan e → IsLawfulExchange plan (after_step plan k e) }
    ensures restarts { (plan : Tables) (e : Exchange) (k : ℕ) →
        IsLawful plan → IsLawfulExchange plan e → IsLawfulExchange plan (restarted_at plan k e) }
    ensures gives_back { (plan : Tables) (e : Exchange) (k : ℕ) →
        IsLawful plan → IsLawfulExchange plan e → IsLawfulExchange plan (given_back plan k e) }
    ensures settles { (plan : Tables) (e : Exchange) → IsLawful plan → IsLawfulExchange plan e →
        IsLawfulExchange plan (settled plan e) }
    ensures adds { (plan : Tables) (e : Exchange) (k number : ℕ) (a : Attempt) → IsAt e k number a →
        (after_step plan k e).records
        ≡ e.records ++ added_record k number a (answer_of k (next_step a) e.words) }
{}

/// Whatever moves any markers make, in whatever order, the office after them is lawful.
pub fn every_run_is_lawful()
    ensures { (plan : Tables) (kinds : List Kind) (moves : List Move) → IsLawful plan →
        length kinds ≤ 48 → AreMoves moves → IsLawfulExchange plan (run_of plan kinds moves) }
{}

/// Jobs act at one step, their turn. The records are those of the one-marker office, which does
/// the jobs whole, one after another in turn order, and the turn word counts them. Once all
/// effects are made that markers past their turns have left, the words show the set of paths after
/// these records. If no effect is left, they show it as they are: so it is if no connector is
/// held, as when all markers are idle. Turn numbers are counted modulo 2^64, so they are indices
/// only in shorter lists.
pub fn jobs_act_at_their_turns()
    ensures jobs { (plan : Tables) (e : Exchange) → IsLawfulExchange plan e →
        AreJobs (jobs_of e.records) }
    ensures replies { (plan : Tables) (e : Exchange) → IsLawfulExchange plan e →
        HaveReplies plan [] e.records }
    ensures legal { (plan : Tables) (e : Exchange) → IsLawfulExchange plan e →
        length e.records < 2 ^ 64 → IsLegal plan e.records }
    ensures counted { (plan : Tables) (e : Exchange) → IsLawfulExchange plan e →
        slice_index e.words (word_number TurnWord) ≡ length e.records % 2 ^ 64 }
    ensures shows { (plan : Tables) (e : Exchange) → IsLawfulExchange plan e →
        ShowsOffice plan (completed plan e) (after plan e.records) }
    ensures made { (plan : Tables) (e : Exchange) → IsLawfulExchange plan e →
        ((k number turn : ℕ) (a : Attempt) → IsAt e k number a → a.phase ≡ Phase.Operates turn →
        a.effects ≡ []) → ShowsOffice plan e.words (after plan e.records) }
    ensures free { (plan : Tables) (e : Exchange) → IsLawfulExchange plan e →
        ((k : ℕ) (conn : Conn) → ¬ Holds e k conn) →
        ShowsOffice plan e.words (after plan e.records) }
    ensures idle { (plan : Tables) (e : Exchange) → IsLawfulExchange plan e →
        ((k : ℕ) (m : Marker) → slice_get e.markers k ≡ Some m → is_idle m.work ≡ true) →
        ShowsOffice plan e.words (after plan e.records) }
{}

/// A connector's word tells which marker holds the connector, and which markers have requested it.
pub fn connectors_tell_the_truth()
    ensures { (plan : Tables) (e : Exchange) (conn : Conn) → IsLawfulExchange plan e → IsConn conn →
        TellsTruth e conn (slice_index e.words (word_number (ConnWord conn))) }
{}

/// Only the holder of a connector tests or changes the words that the connector protects. What a
/// marker has read before its turn is still in the words. A step that frees a connector changes no
/// protected word.
pub fn words_are_their_holders()
    ensures alone { (plan : Tables) (e : Exchange) (k number : ℕ) (a : Attempt) (conn : Conn) →
        IsLawfulExchange plan e → IsAt e k number a → Protects conn (step_word (next_step a)) →
        IsIn conn a.held }
    ensures spared { (plan : Tables) (e : Exchange) (k n : ℕ) (conn : Conn) →
        IsLawfulExchange plan e → Protects conn n → ¬ Holds e k conn →
        slice_index (after_step plan k e).words n ≡ slice_index e.words n }
    ensures read { (plan : Tables) (e : Exchange) (k number : ℕ) (a : Attempt) (r : Reading ℕ) →
        IsLawfulExchange plan e → IsAt e k number a → IsIn r (read_in a.phase a.readings) →
        slice_index e.words r.word ≡ r.value }
    ensures frees { (plan : Tables) (e : Exchange) (k number n : ℕ) (a : Attempt) (conn : Conn)
        → IsAt e k number a → act a ≡ Free conn → n < 416
        → slice_index (after_step plan k e).words n ≡ slice_index e.words n }
{}

/// An attempt requests and seizes no connector past its turn, and makes no effect before it. It
/// keeps each connector that it has seized until it frees it: when it gives back, or past its turn
/// once no effect is left.
pub fn attempts_keep_their_order()
    ensures seizes { (a : Attempt) (turn : ℕ) → a.phase ≡ Phase.Operates turn →
        ¬ IsSeizing (act a) }
    ensures effects { (a : Attempt) (effect : Effect) → act a ≡ Make effect →
        (turn : ℕ) × (a.phase ≡ Phase.Operates turn) }
    ensures keeps { (plan : Tables) (a : Attempt) (answer : Answer) (conn : Conn) →
        IsIn conn a.held → act a ≢ Free conn → IsIn conn (change (office plan) a answer).held }
    ensures frees { (a : Attempt) (conn : Conn) → act a ≡ Free conn
        → (a.phase ≡ Phase.GivesBack)
        ⊎ ((turn : ℕ) × (a.phase ≡ Phase.Operates turn) × (a.effects ≡ [])) }
{}

/// A job past its turn has a record with its turn, marker, number, job and reply, whether it has
/// finished or not. The record of a job that finishes is at the index of its turn.
pub fn turned_jobs_are_recorded()
    ensures turned { (plan : Tables) (e : Exchange) (k number turn : ℕ) (a : Attempt) →
        IsLawfulExchange plan e → IsAt e k number a → a.phase ≡ Phase.Operates turn →
        (place : ℕ) × IsPastTurn e k place a }
    ensures place { (plan : Tables) (e : Exchange) (k : ℕ) (r : Record) → IsLawfulExchange plan e →
        length e.records < 2 ^ 64 → event_at_step plan k e ≡ Event.Finished r →
        slice_get (after_step plan k e).records r.turn ≡ Some r }
    ensures job { (plan : Tables) (e : Exchange) (k number : ℕ) (a : Attempt) (r : Record) →
        IsAt e k number a → event_at_step plan k e ≡ Event.Finished r →
        (r.marker ≡ k) × (r.job_no ≡ number) × (r.job ≡ a.job) }
{}

/// If a marker is refused a connector, the marker that is named holds it. If another marker is
/// preferred, nobody holds the connector, and the one that is named has requested it, has a lower
/// number, and has the lowest of all that have requested it.
pub fn events_tell_the_truth()
    ensures refused { (plan : Tables) (e : Exchange) (k holder : ℕ) (conn : Conn) →
        IsLawfulExchange plan e → event_at_step plan k e ≡ Event.Refused conn holder →
        AsksFor e k conn × Holds e holder conn }
    ensures preferred { (plan : Tables) (e : Exchange) (k other : ℕ) →
        IsLawfulExchange plan e → event_at_step plan k e ≡ Event.Preferred other →
        (conn : Conn) × AsksFor e k conn × (other < k)
        × HasRequested e other conn × ((j : ℕ) → ¬ Holds e j conn) }
    ensures least { (plan : Tables) (e : Exchange) (k other : ℕ) → IsLawfulExchange plan e
        → event_at_step plan k e ≡ Event.Preferred other
        → (conn : Conn) → AsksFor e k conn → (j : ℕ) → j < other → ¬ HasRequested e j conn }
{}

/// No link ever carries two calls. At each moment, also with jobs under way, each closed crosspoint
/// belongs to a path: one of the set after all records, or one that a marker past its turn takes
/// out and has yet to open there. All closed crosspoints at one link belong to one path.
pub fn no_link_carries_two_calls()
    ensures belongs { (plan : Tables) (e : Exchange) (c : Crosspoint) → IsLawful plan →
        IsLawfulExchange plan e → IsClosed e.words c → (path : Path) × BelongsTo plan e path c }
    ensures one { (plan : Tables) (e : Exchange) (link : Link) (c : Crosspoint) →
        IsLawful plan → IsLawfulExchange plan e → IsClosed e.words c → IsAtLink link c →
        (path : Path)
        × ((d : Crosspoint) → IsClosed e.words d → IsAtLink link d → BelongsTo plan e path d) }
{}

/// A release opens exactly its own crosspoints. Its effects are fixed at its turn: to open the
/// paths that its reply names, crosspoint by crosspoint, then to clear their member's bit, and
/// nothing else. Each crosspoint is closed, and the bit set, until its effect is made. Each step
/// makes the first effect that is left, and the effects left are always the last ones of this
/// list.
pub fn a_release_opens_its_own_crosspoints()
    ensures turn { (plan : Tables) (e : Exchange) (k number : ℕ) (a : Attempt)
        (line : Line) (own : Path) (other : Option Path) (cards : List Card) →
        IsLawful plan → IsLawfulExchange plan e → IsAt e k number a → a.phase ≡ Phase.Turns →
        a.job ≡ Release line → a.reply ≡ Some (record { end = Released own other; cards = cards }) →
        ReleasesJust plan own other (completed plan e) a.effects }
    ensures each { (plan : Tables) (e : Exchange) (k number turn : ℕ) (a : Attempt)
        (effect : Effect) (effects : List Effect) →
        IsAt e k number a → a.phase ≡ Phase.Operates turn → a.effects ≡ effect ∷ effects →
        ((after_step plan k e).words ≡ perform_all (office plan) e.words (effect ∷ []))
        × IsAt (after_step plan k e) k number (record a { effects = effects }) }
    ensures left { (plan : Tables) (e : Exchange) (k number turn : ℕ) (a : Attempt)
        (line : Line) (own : Path) (other : Option Path) (cards : List Card) →
        IsLawful plan → IsLawfulExchange plan e →
        IsAt e k number a → a.phase ≡ Phase.Operates turn → a.job ≡ Release line →
        a.reply ≡ Some (record { end = Released own other; cards = cards }) →
        OpensItsOwn plan own other e.words a.effects }
{}

/// A step, a restart and an assignment in the office are those moves of its world. Of a step this
/// holds if a marker that gives back still holds a connector, as it does in every lawful office.
pub fn moves_are_those_of_its_world()
    ensures steps { (plan : Tables) (e : Exchange) (k number : ℕ) (a : Attempt) → IsAt e k number a
        → (a.phase ≡ Phase.GivesBack → a.held ≢ [])
        → world plan (after_step plan k e) ≡ worlds.moved (office plan) k number a (world plan e) }
    ensures holds { (plan : Tables) (e : Exchange) (k number : ℕ) (a : Attempt)
        → IsLawfulExchange plan e → IsAt e k number a → a.phase ≡ Phase.GivesBack → a.held ≢ [] }
    ensures restarts { (plan : Tables) (e : Exchange) (k number : ℕ) (a : Attempt)
        → IsAt e k number a → world plan (restarted_at plan k e)
        ≡ worlds.job_restarted (office plan) k number a (world plan e) }
    ensures assigns { (plan : Tables) (e : Exchange) (k number : ℕ) (job : Job)
        → world plan (assigned k number job e)
        ≡ worlds.assigned (office plan) k number job (world plan e) }
{}
