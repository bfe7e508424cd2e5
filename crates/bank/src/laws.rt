//! Laws: lemmas about the bank. The functions do nothing; their contracts are the statements.

ghost use Rattle.std.specs.Prelude.{◌≡◌, ◌≤◌, ◌<◌, ◌+◌, ◌*◌, ◌^◌, ℕ, List, slice_index};
ghost use Rattle.turns.specs.Law.{IsLegal, Lawful, holder_at};
ghost use Rattle.turns.specs.Runs.{Move, AreMoves, run_of};
ghost use Rattle.turns.specs.Sharings.{sharing_of};
ghost use Rattle.turns.specs.World.{Record, World, after};
ghost use Rattle.bank.specs.Bank.{all_have};
ghost use Rattle.bank.specs.Sums.{deposited, total, withdrawn};
ghost use Rattle.bank.specs.System.{Shows, accounts, bank};
ghost use Rattle.bank.specs.declared.job.Job.{Job};
ghost use Rattle.bank.specs.declared.job.Reply.{Reply};
ghost use Rattle.bank.specs.declared.opening.Opening.{Opening};

use turns::laws::{self, Family};

/// The banks, one for each opening, by which the laws of `turns` are called.
#[derive(Drop)]
struct Banks {}

impl Family for Banks {
    ghost Setting = { Opening };

    ghost system = { bank };
}

/// Whatever as many actors as may share a lock do, and in whatever order they make their steps,
/// each job acts as if done whole at its turn.
pub fn every_run_of_the_bank_is_lawful()
    ensures { (opening : Opening) (count : ℕ) (moves : List (Move Job)) →
        opening.balance < 2 ^ 64 → count ≤ (sharing_of opening.sharing).most →
        AreMoves (bank opening) moves →
        Lawful (bank opening) (run_of (bank opening) count moves) }
{
    laws::every_run_is_lawful::<Banks>();
}

/// Each reply is that of its job done whole, after the jobs of the turns before it.
pub fn replies_are_those_of_jobs_done_whole()
    ensures { (opening : Opening) (w : World (bank opening)) → Lawful (bank opening) w →
        IsLegal (bank opening) 0 (all_have opening.balance) w.order }
{
    laws::jobs_act_at_their_turns::<Banks>();
}

/// The sum of the balances changes by the deposits and withdrawals that were done, and by nothing
/// else.
pub fn sums_change_by_deposits_and_withdrawals()
    ensures { (opening : Opening) (w : World (bank opening)) → Lawful (bank opening) w →
        total (after (bank opening) (all_have opening.balance) w.order) (accounts opening)
        + withdrawn w.order ≡ accounts opening * opening.balance + deposited w.order }
{
    laws::jobs_act_at_their_turns::<Banks>();
}

/// If no shard's lock is held, so does the sum of the words.
pub fn unheld_words_have_the_sum()
    ensures { (opening : Opening) (w : World (bank opening)) → opening.balance < 2 ^ 64 →
        Lawful (bank opening) w →
        ((shard : ℕ) → shard < opening.shards → holder_at (bank opening) w.words shard ≡ 0) →
        total (slice_index w.words) (accounts opening) + withdrawn w.order
        ≡ accounts opening * opening.balance + deposited w.order }
{
    laws::jobs_act_at_their_turns::<Banks>();
}

/// So does the sum of words that show the balances after a legal order, like those of a room that
/// was shut.
pub fn shown_words_have_the_sum()
    ensures { (opening : Opening) (words : List ℕ) (order : List (Record Job Reply)) →
        IsLegal (bank opening) 0 (all_have opening.balance) order →
        Shows opening words (after (bank opening) (all_have opening.balance) order) →
        total (slice_index words) (accounts opening) + withdrawn order
        ≡ accounts opening * opening.balance + deposited order }
{}
