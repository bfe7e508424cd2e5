//! What the walks of the bank's jobs are made of.

ghost use Rattle.std.specs.Prelude.{◌≡◌, ◌+◌, nat_eq};
ghost use Rattle.attempts.specs.WalkOnWords.{walk_on_words};
ghost use Rattle.bank.specs.Bank.{fits as fits_spec};
ghost use Rattle.bank.specs.System.{balance_of as balance_script, lock_word as lock_word_spec};
ghost use Rattle.bank.specs.System.{or_refuse as or_refuse_spec};

use attempts::Seen;
use bank::{Decision, Opening, Reply, SHARD_SIZE};
use turns::Wanted;

/// Whether a balance has room for an amount.
pub fn fits(balance: u64, amount: u64) -> bool
    ensures { result ≡ fits_spec (balance + amount) }
{
    amount <= u64::MAX - balance
}

/// A decision, or that the job is refused.
pub fn or_refuse(holds: bool, decision: Decision) -> Decision
    ensures { result ≡ or_refuse_spec holds decision }
{
    if holds {
        decision
    } else {
        Decision::Replies(Reply::Refused)
    }
}

/// The word of a shard's lock.
pub fn lock_word(opening: &Opening, shard: u32) -> usize
    ensures { result ≡ lock_word_spec opening.now shard }
{
    opening.account_count() + shard as usize
}

/// Acquires the lock of an account's shard, and finds the balance.
#[tactic(auto, using(attempts::proofs::WalksOnWords::live_bind, attempts::proofs::WalksOnWords::live_end), unfolding(bank::specs::System::balance_of))]
pub fn balance_of(
    opening: &Opening,
    seen: &mut Seen<u32, 2, 2>,
    words: &mut [u64],
    account: u32,
) -> Result<u64, Wanted<u32, usize>>
    ensures { record { found = result; state = seen.new; words = words.new }
        ≡ walk_on_words nat_eq (lock_word_spec opening.now) 2 2 (λ word value. value)
        (balance_script account) seen.old words.old }
{
    let shard = account / SHARD_SIZE;
    seen.seize(shard, lock_word(opening, shard), words)?;
    seen.test(account as usize, words)
}
