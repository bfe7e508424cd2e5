//! What holds of every system of jobs. Each function does nothing: its contract is the law.

ghost use Rattle.std.specs.Prelude.{◌≡◌, ◌≢◌, ◌⊎◌, ◌<◌, ◌≤◌, ◌+◌, ◌*◌, ◌++◌, ◌^◌, ◌%◌, ◌↔◌};
ghost use Rattle.std.specs.Prelude.{ℕ, suc, [], Bool, List, Ok, Some, false, true};
ghost use Rattle.std.specs.Prelude.{length, slice_get, slice_index};
ghost use mathlib.Core.Option.{some};
ghost use lib.ListN.{get_elem?};
ghost use Rattle.turns.specs.Among.{IsIn};
ghost use Rattle.turns.specs.Clock.{IsCount};
ghost use Rattle.turns.specs.Seen.{Seen, AreReadFrom, AreReadWords};
ghost use Rattle.turns.specs.Script.{run, walk};
ghost use Rattle.turns.specs.System.{System, IsSystem, IsUnder};
ghost use Rattle.turns.specs.Attempt.{AttemptOf, act, answer_to, begin, change};
ghost use Rattle.turns.specs.declared.act.Act.TheVariants.{Free, Make, Finished};
ghost use Rattle.turns.specs.Attempt.{IsAnswer, IsSeizing, IsValid, read_in, restarted};
ghost use Rattle.turns.specs.World.{World, ActorOf, RecordOf, Does, moved, place, added};
ghost use Rattle.turns.specs.World.{assigned, job_restarted, fresh_world, completed, after, effects_left_of, value_after};
ghost use Rattle.turns.specs.Law.{Lawful, IsAvailable, IsLegal, IsRecorded, WasDecided};
ghost use Rattle.turns.specs.Law.{Holds, HasRequested, MaySeize, holder_at, word_at};
ghost use Rattle.turns.specs.Runs.{Move, AreMoves, AreOfOthers, after_move, run_from, run_of};
ghost use Rattle.turns.specs.Bounds.{AreBounded, AreSteady, IsAside, after_steps};
ghost use Rattle.turns.specs.Ending.{ComesToEnd, own_steps};
ghost use Rattle.turns.specs.Denied.{IsDeniedBy};
ghost use Rattle.turns.specs.Sharing.{IsSharing, ShowsRequests};
ghost use Rattle.turns.specs.Sharings.{plain, preferring};

use crate::answer::Answer;
use crate::judgement::Judgement;
use crate::phase::Phase;
use crate::reading::Reading;

/// A family of systems, one for each setting, like an office for each plan.
pub trait Family {
    ghost Setting: { Type 0 };

    ghost system: { Setting → System };
}

/// The invariant (`Lawful`) holds of the world in which a system opens, and each assignment to an
/// available actor, each step and each giving back keeps it. A turn adds its record at the end of
/// the order, and no other step adds one.
pub fn every_move_keeps_the_law<F: Family>()
    ensures opens { (setting : F.Setting) → let O = F.system setting in
        (count : ℕ) → IsSystem O → count ≤ O.sharing.most → Lawful O (fresh_world O count) }
    ensures assigns { (setting : F.Setting) → let O = F.system setting in
        (w : World O) (k number : ℕ) (m : ActorOf O) (job : O.Job)
        → IsSystem O → Lawful O w → get_elem? w.actors k ≡ some m → IsAvailable O m → O.IsJob job
        → Lawful O (assigned O k number job w) }
    ensures moves { (setting : F.Setting) → let O = F.system setting in
        (w : World O) (k number : ℕ) (a : AttemptOf O)
        → IsSystem O → Lawful O w → get_elem? w.actors k ≡ some (Does number a)
        → Lawful O (moved O k number a w) }
    ensures gives_back { (setting : F.Setting) → let O = F.system setting in
        (w : World O) (k number : ℕ) (a : AttemptOf O)
        → IsSystem O → Lawful O w → get_elem? w.actors k ≡ some (Does number a)
        → Lawful O (job_restarted O k number a w) }
    ensures records { (setting : F.Setting) → let O = F.system setting in
        (w : World O) (k number : ℕ) (a : AttemptOf O)
        → (moved O k number a w).order ≡ w.order ++ added O k number a w }
{}

/// Every run is lawful, whatever moves the actors make in whatever order.
pub fn every_run_is_lawful<F: Family>()
    ensures { (setting : F.Setting) → let O = F.system setting in
        (count : ℕ) (moves : List (Move O.Job))
        → IsSystem O → count ≤ O.sharing.most → AreMoves O moves
        → Lawful O (run_of O count moves) }
{}

/// Whatever moves are made, the order before them is a prefix of the order after them.
pub fn the_order_only_grows<F: Family>()
    ensures each { (setting : F.Setting) → let O = F.system setting in
        (w : World O) (move : Move O.Job)
        → (later : List (RecordOf O)) × ((after_move O w move).order ≡ w.order ++ later) }
    ensures run { (setting : F.Setting) → let O = F.system setting in
        (w : World O) (moves : List (Move O.Job))
        → (later : List (RecordOf O)) × ((run_from O w moves).order ≡ w.order ++ later) }
{}

/// Jobs are linearizable: each acts as if it were done whole at its turn.
///
/// The order of turns is legal: each reply is that of the job done whole on the state after the
/// jobs before it. The words show the state after all of these jobs, once all effects that turned
/// jobs have left are made. The words themselves show it if no lock is held, if no actor past its
/// turn has an effect left to make, or if every actor is available. A word under the locks of one
/// actor lacks only the effects that this one has left. With a counted clock the turn word counts
/// the order modulo 2^64; with a ghost clock it stays 0. Each word has 64 bits.
pub fn jobs_act_at_their_turns<F: Family>()
    ensures legal { (setting : F.Setting) → let O = F.system setting in
        (w : World O) → Lawful O w → IsLegal O 0 O.opening w.order }
    ensures counted { (setting : F.Setting) → let O = F.system setting in
        (w : World O) → Lawful O w
        → IsCount O.clock (slice_index w.words O.turn_word) (length w.order) }
    ensures words { (setting : F.Setting) → let O = F.system setting in
        (w : World O) (n : ℕ) → Lawful O w → slice_index w.words n < 2 ^ 64 }
    ensures shows { (setting : F.Setting) → let O = F.system setting in
        (w : World O) → Lawful O w → O.Shows (completed O w) (after O O.opening w.order) }
    ensures free { (setting : F.Setting) → let O = F.system setting in
        (w : World O)
        → IsSystem O → Lawful O w → ((lock : O.Lock) → O.IsLock lock → holder_at O w.words lock ≡ 0)
        → O.Shows w.words (after O O.opening w.order) }
    ensures held { (setting : F.Setting) → let O = F.system setting in
        (w : World O) (k number : ℕ) (a : AttemptOf O) (n : ℕ)
        → IsSystem O → Lawful O w → get_elem? w.actors k ≡ some (Does number a) → IsUnder O a.held n
        → slice_index (completed O w) n
        ≡ value_after O (effects_left_of O (Does number a)) n (slice_index w.words n) }
    ensures made { (setting : F.Setting) → let O = F.system setting in
        (w : World O)
        → Lawful O w
        → ((k number turn : ℕ) (a : AttemptOf O) → get_elem? w.actors k ≡ some (Does number a)
        → a.phase ≡ Phase.Operates turn → a.effects ≡ [])
        → O.Shows w.words (after O O.opening w.order) }
    ensures idle { (setting : F.Setting) → let O = F.system setting in
        (w : World O)
        → Lawful O w → ((k : ℕ) (m : ActorOf O) → get_elem? w.actors k ≡ some m → IsAvailable O m)
        → O.Shows w.words (after O O.opening w.order) }
{}

/// A lock's word names an actor exactly if that actor holds the lock. It has an actor's request
/// only if that actor has requested the lock, and has neither seized it nor withdrawn; exactly
/// then, if the sharing shows requests.
pub fn lock_words_tell_the_truth<F: Family>()
    ensures word { (setting : F.Setting) → let O = F.system setting in
        (w : World O) (lock : O.Lock) → Lawful O w → O.IsLock lock
        → O.sharing.IsWord (word_at O w.words lock) }
    ensures names { (setting : F.Setting) → let O = F.system setting in
        (w : World O) (k : ℕ) (lock : O.Lock) → Lawful O w → O.IsLock lock
        → (holder_at O w.words lock ≡ suc k) ↔ Holds O w.actors k lock }
    ensures made { (setting : F.Setting) → let O = F.system setting in
        (w : World O) (k : ℕ) (lock : O.Lock) → Lawful O w → O.IsLock lock → k < O.sharing.most
        → O.sharing.requests k (word_at O w.words lock) ≡ true → HasRequested O w.actors k lock }
    ensures requests { (setting : F.Setting) → let O = F.system setting in
        (w : World O) (k : ℕ) (lock : O.Lock)
        → ShowsRequests O.sharing → Lawful O w → O.IsLock lock → k < O.sharing.most
        → (O.sharing.requests k (word_at O w.words lock) ≡ true) ↔ HasRequested O w.actors k lock }
{}

/// Only a lock's holder tests or changes the words under it. What an actor has read before its
/// turn is still what the words have. Each effect finds what it relies on.
pub fn words_are_their_holders<F: Family>()
    ensures alone { (setting : F.Setting) → let O = F.system setting in
        (w : World O) (k number : ℕ) (a : AttemptOf O) (lock : O.Lock)
        → IsSystem O → Lawful O w → get_elem? w.actors k ≡ some (Does number a)
        → O.Protects lock (place O (act a))
        → IsIn lock a.held }
    ensures spared { (setting : F.Setting) → let O = F.system setting in
        (w : World O) (k number : ℕ) (a : AttemptOf O) (n : ℕ) (lock : O.Lock)
        → IsSystem O → Lawful O w → get_elem? w.actors k ≡ some (Does number a) → O.Protects lock n
        → ¬ IsIn lock a.held
        → slice_index (moved O k number a w).words n ≡ slice_index w.words n }
    ensures read { (setting : F.Setting) → let O = F.system setting in
        (w : World O) (k number : ℕ) (a : AttemptOf O) (r : Reading ℕ)
        → Lawful O w → get_elem? w.actors k ≡ some (Does number a)
        → IsIn r (read_in a.phase a.readings)
        → slice_index w.words r.word ≡ r.value }
    ensures due { (setting : F.Setting) → let O = F.system setting in
        (w : World O) (k number : ℕ) (a : AttemptOf O) (effect : O.Effect)
        → Lawful O w → get_elem? w.actors k ≡ some (Does number a) → act a ≡ Make effect
        → O.Due effect (slice_index w.words (O.effect_word effect)) }
{}

/// The order of an attempt's steps.
///
/// No effect comes before the turn, and past the turn nothing is requested or seized, and nothing
/// is given back. Past its turn an attempt has its record in the order, with its reply and its
/// turn. Its decision is its script's on words that show the state before its turn; the effects
/// that it has left are the last of that decision's, and those made have turned these words into
/// what is now under its locks. Before its turn, the word expected of a requested lock is one by
/// which the actor may seize it. A lock is held until it is freed, which happens only in giving
/// back, or past the turn with no effect left. Each answer is of its step's kind.
pub fn attempts_keep_their_order<F: Family>()
    ensures seizes { (setting : F.Setting) → let O = F.system setting in
        (a : AttemptOf O) (turn : ℕ) → a.phase ≡ Phase.Operates turn → ¬ IsSeizing (act a) }
    ensures stays { (setting : F.Setting) → let O = F.system setting in
        (a : AttemptOf O) (turn : ℕ) (answer : Answer) → a.phase ≡ Phase.Operates turn
        → (change O a answer).phase ≡ Phase.Operates turn }
    ensures restart { (setting : F.Setting) → let O = F.system setting in
        (a : AttemptOf O) (turn : ℕ) → a.phase ≡ Phase.Operates turn → restarted O a ≡ a }
    ensures effects { (setting : F.Setting) → let O = F.system setting in
        (a : AttemptOf O) (effect : O.Effect) → act a ≡ Make effect
        → (turn : ℕ) × (a.phase ≡ Phase.Operates turn) }
    ensures recorded { (setting : F.Setting) → let O = F.system setting in
        (w : World O) (k number : ℕ) (a : AttemptOf O) (turn : ℕ)
        → Lawful O w → get_elem? w.actors k ≡ some (Does number a) → a.phase ≡ Phase.Operates turn
        → IsRecorded O w.order k number turn a }
    ensures decided { (setting : F.Setting) → let O = F.system setting in
        (w : World O) (k number : ℕ) (a : AttemptOf O) (turn : ℕ)
        → Lawful O w → get_elem? w.actors k ≡ some (Does number a) → a.phase ≡ Phase.Operates turn
        → (known : IsRecorded O w.order k number turn a)
        × WasDecided O w.words w.order known.place a }
    ensures expected { (setting : F.Setting) → let O = F.system setting in
        (w : World O) (k number : ℕ) (a : AttemptOf O) (lock : O.Lock) (expected : ℕ)
        → Lawful O w → get_elem? w.actors k ≡ some (Does number a)
        → a.phase ≡ Phase.Seizes lock expected
        → MaySeize O k expected }
    ensures answers { (setting : F.Setting) → let O = F.system setting in
        (k : ℕ) (a : AttemptOf O) (found : ℕ) → act a ≢ Finished → found < 2 ^ 64
        → IsAnswer O (act a) (answer_to O k (act a) found) }
    ensures frees { (setting : F.Setting) → let O = F.system setting in
        (a : AttemptOf O) (lock : O.Lock) → act a ≡ Free lock
        → (a.phase ≡ Phase.GivesBack)
        ⊎ ((turn : ℕ) × (a.phase ≡ Phase.Operates turn) × (a.effects ≡ [])) }
    ensures keeps { (setting : F.Setting) → let O = F.system setting in
        (a : AttemptOf O) (answer : Answer) (lock : O.Lock) → IsIn lock a.held → act a ≢ Free lock
        → IsIn lock (change O a answer).held }
{}

/// A denial follows from the lock's own word: as the step left it, the word says that the actor
/// named in the answer holds the lock, or is preferred.
pub fn denials_name_who_is_in_the_way<F: Family>()
    ensures held { (setting : F.Setting) → let O = F.system setting in
        (k : ℕ) (a : AttemptOf O) (found holder : ℕ)
        → answer_to O k (act a) found ≡ Answer.Held holder
        → IsDeniedBy O k (act a) found (Judgement.Held holder) }
    ensures preferred { (setting : F.Setting) → let O = F.system setting in
        (k : ℕ) (a : AttemptOf O) (found other : ℕ)
        → answer_to O k (act a) found ≡ Answer.Preferred other
        → IsDeniedBy O k (act a) found (Judgement.Preferred other) }
{}

/// An attempt is valid from its beginning on, through any answers and restarts, as long as each
/// number that it has read fits 64 bits. Each attempt in a lawful world is valid.
pub fn attempts_agree_with_their_scripts<F: Family>()
    ensures begins { (setting : F.Setting) → let O = F.system setting in
        (job : O.Job) → IsSystem O → O.IsJob job → IsValid O (begin O job) }
    ensures changes { (setting : F.Setting) → let O = F.system setting in
        (a : AttemptOf O) (answer : Answer)
        → IsSystem O → O.IsJob a.job → AreReadWords (read_in a.phase a.readings) → IsValid O a
        → IsValid O (change O a answer) }
    ensures restarts { (setting : F.Setting) → let O = F.system setting in
        (a : AttemptOf O)
        → IsSystem O → O.IsJob a.job → AreReadWords (read_in a.phase a.readings) → IsValid O a
        → IsValid O (restarted O a) }
    ensures sound { (setting : F.Setting) → let O = F.system setting in
        (w : World O) (k number : ℕ) (a : AttemptOf O)
        → Lawful O w → get_elem? w.actors k ≡ some (Does number a)
        → IsValid O a }
{}

/// A walk that decides, on readings that are what given words have, decides as the script does on
/// those words.
pub fn walks_end_as_scripts_do<F: Family>()
    ensures { (setting : F.Setting) → let O = F.system setting in
        (words : List ℕ) (seen : Seen O.Lock) (job : O.Job) (decision : O.Decision)
        → AreReadFrom words seen.readings → walk O.same seen (O.script job) ≡ Ok decision
        → run words (O.script job) ≡ decision }
{}

/// An attempt that is never denied a lock and never retries a seize is short. If each job tests at
/// most `tests` words, seizes at most `seizings` locks and has at most `effects` effects, it ends
/// within three steps a lock (request, seize, free), one a test, one an effect, and its turn. An
/// attempt that has begun already, or gives back, needs at most one step more for each lock that
/// it holds, and one for its request.
pub fn steady_attempts_are_short<F: Family>()
    ensures fresh { (setting : F.Setting) → let O = F.system setting in
        (tests seizings effects : ℕ) (job : O.Job) (answers : List Answer)
        → IsSystem O → AreBounded O tests seizings effects → O.IsJob job
        → AreSteady O (begin O job) answers
        → length answers ≤ 3 * seizings + tests + effects + 1 }
    ensures anywhere { (setting : F.Setting) → let O = F.system setting in
        (tests seizings effects : ℕ) (w : World O) (k number : ℕ) (a : AttemptOf O)
        (answers : List Answer)
        → IsSystem O → AreBounded O tests seizings effects → Lawful O w
        → get_elem? w.actors k ≡ some (Does number a) → AreSteady O a answers
        → length answers ≤ 1 + length a.held + (3 * seizings + tests + effects + 1) }
{}

/// A job past its turn ends within as many of its actor's own steps as it has effects and locks
/// left, whatever other moves are made in between.
pub fn jobs_past_their_turns_end<F: Family>()
    ensures { (setting : F.Setting) → let O = F.system setting in
        (w : World O) (k number turn : ℕ) (a : AttemptOf O) (moves : List (Move O.Job))
        → get_elem? w.actors k ≡ some (Does number a) → a.phase ≡ Phase.Operates turn
        → length a.effects + length a.held ≤ own_steps k moves
        → ComesToEnd O w moves k number turn a.job }
{}

/// A lost actor keeps the locks that it holds for good, and the words under them stay as they are.
/// A lost actor is one that makes no more moves, as when its thread has died.
///
/// In a run without a move of any lost actor, each of them stays as it is, even in the middle of a
/// job. A lock that it holds is still held by it, and by nobody else, and a request of its that is
/// pending stays so. A word that has changed and is under a lock is under no lock that a lost actor
/// holds. The order grows by records of other actors alone.
pub fn lost_actors_keep_their_locks<F: Family>()
    ensures stay { (setting : F.Setting) → let O = F.system setting in
        (lost : ℕ → Bool) (w : World O) (moves : List (Move O.Job)) (k : ℕ)
        → AreOfOthers lost moves → lost k ≡ true
        → get_elem? (run_from O w moves).actors k ≡ get_elem? w.actors k }
    ensures hold { (setting : F.Setting) → let O = F.system setting in
        (lost : ℕ → Bool) (w : World O) (moves : List (Move O.Job)) (k : ℕ) (lock : O.Lock)
        → IsSystem O → Lawful O w → AreMoves O moves → AreOfOthers lost moves → lost k ≡ true
        → Holds O w.actors k lock
        → Holds O (run_from O w moves).actors k lock
        × (holder_at O (run_from O w moves).words lock ≡ suc k) }
    ensures alone { (setting : F.Setting) → let O = F.system setting in
        (lost : ℕ → Bool) (w : World O) (moves : List (Move O.Job)) (k j : ℕ) (lock : O.Lock)
        → IsSystem O → Lawful O w → AreMoves O moves → AreOfOthers lost moves → lost k ≡ true
        → Holds O w.actors k lock → Holds O (run_from O w moves).actors j lock → j ≡ k }
    ensures requests { (setting : F.Setting) → let O = F.system setting in
        (lost : ℕ → Bool) (w : World O) (moves : List (Move O.Job)) (k : ℕ) (lock : O.Lock)
        → IsSystem O → Lawful O w → AreMoves O moves → AreOfOthers lost moves → lost k ≡ true
        → O.IsLock lock → HasRequested O w.actors k lock
        → HasRequested O (run_from O w moves).actors k lock
        × (ShowsRequests O.sharing
        → O.sharing.requests k (word_at O (run_from O w moves).words lock) ≡ true) }
    ensures words { (setting : F.Setting) → let O = F.system setting in
        (lost : ℕ → Bool) (w : World O) (moves : List (Move O.Job)) (k : ℕ) (lock : O.Lock) (n : ℕ)
        → IsSystem O → Lawful O w → AreMoves O moves → AreOfOthers lost moves → lost k ≡ true
        → Holds O w.actors k lock → O.Protects lock n
        → slice_index (run_from O w moves).words n ≡ slice_index w.words n }
    ensures changed { (setting : F.Setting) → let O = F.system setting in
        (lost : ℕ → Bool) (w : World O) (moves : List (Move O.Job)) (k : ℕ) (lock : O.Lock) (n : ℕ)
        → IsSystem O → Lawful O w → AreMoves O moves → AreOfOthers lost moves
        → slice_index (run_from O w moves).words n ≢ slice_index w.words n → O.Protects lock n
        → Holds O w.actors k lock → lost k ≡ false }
    ensures order { (setting : F.Setting) → let O = F.system setting in
        (lost : ℕ → Bool) (w : World O) (moves : List (Move O.Job))
        → AreOfOthers lost moves
        → (later : List (RecordOf O)) × ((run_from O w moves).order ≡ w.order ++ later)
        × ((r : RecordOf O) → IsIn r later → lost r.actor ≡ false) }
{}

/// An actor that is left alone ends its job in a bounded number of steps. No other actor may hold
/// a lock or have a pending request.
pub fn actors_left_alone_end<F: Family>()
    ensures { (setting : F.Setting) → let O = F.system setting in
        (tests seizings effects : ℕ) (w : World O) (k number : ℕ) (a : AttemptOf O) (count : ℕ)
        → IsSystem O → AreBounded O tests seizings effects → Lawful O w
        → get_elem? w.actors k ≡ some (Does number a)
        → ((j : ℕ) (m : ActorOf O) → ¬ (j ≡ k) → get_elem? w.actors j ≡ some m → IsAside O m)
        → 2 + length a.held + (3 * seizings + tests + effects + 1) ≤ count
        → (ended : ActorOf O)
        × (get_elem? (after_steps O k count w).actors k ≡ some ended) × IsAvailable O ended }
{
    every_move_keeps_the_law::<F>();
}

/// Sharing a lock's word by requests, of which the lowest actor's is preferred, keeps the rules of
/// a sharing, and shows requests.
pub fn preferring_is_a_sharing()
    ensures sharing { IsSharing preferring }
    ensures requests { ShowsRequests preferring }
{}

/// Sharing a lock's word by compare-and-exchange alone, without requests, keeps the rules of a
/// sharing.
pub fn plain_is_a_sharing()
    ensures { IsSharing plain }
{}
