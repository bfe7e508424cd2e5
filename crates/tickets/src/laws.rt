//! What holds of these jobs. The functions do nothing: their contracts are the statements.

ghost use Rattle.std.specs.Prelude.{◌≡◌, ◌≤◌, ℕ, List};
ghost use Rattle.turns.specs.Law.{IsLegal, holder_at};
ghost use Rattle.turns.specs.Runs.{Move, AreMoves, run_of};
ghost use Rattle.turns.specs.World.{after};
ghost use Rattle.tickets.specs.System.{Shows, tickets};
ghost use Rattle.tickets.specs.declared.jobs.Job.{Job};

use turns::laws::{self, Family};

struct TicketSystem;

impl Family for TicketSystem {
    ghost Setting = { Unit {0} };

    ghost system = { λ _. tickets };
}

// change: add laws in your own words; most are made of this one
/// Whatever up to 48 actors do, in whatever order of steps, each reply is that of its job done
/// whole, after the jobs of the turns before it. If no lock is held, the words show the state after
/// the jobs of all turns.
pub fn jobs_act_as_if_done_whole()
    ensures { (count : ℕ) (moves : List (Move Job)) → count ≤ 48 → AreMoves tickets moves →
        let w = run_of tickets count moves in IsLegal tickets 0 tickets.opening w.order
        × (((lock : ℕ) → tickets.IsLock lock → holder_at tickets w.words lock ≡ 0) →
        Shows w.words (after tickets tickets.opening w.order)) }
{
    laws::every_run_is_lawful::<TicketSystem>();
    laws::jobs_act_at_their_turns::<TicketSystem>();
}
