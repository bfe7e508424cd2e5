//! The jobs of the bank, as `attempts` and `desk_attempts` take them. The setting is how the bank
//! opens.

ghost use Rattle.std.specs.Prelude.{◌≡◌, ◌≤◌, ◌<◌, ◌+◌, ◌^◌, IfSome, slice_get};
ghost use Rattle.bank_desks.specs.Shards.{shards_of};

use crate::walks::{balance_of, fits, lock_word, or_refuse};
use attempts::{OnWords, Scripts, Seen};
use bank::{Decision, Effect, Job, Opening, Reply, SHARD_SIZE};
use desk_attempts::{Attempts, Groups, InRoom};
use std::alloc::{AllocError, Global};
use std::ops::Range;
use turns::{Clock, LockSharing, Operation, Wanted};

/// The scripts of the bank's jobs, as walks.
pub struct BankScripts;

/// The jobs of the bank as desks do them: each tests at most two words and seizes at most two
/// locks.
pub type BankJobs = Attempts<BankScripts, BankRoom, 2, 2>;

impl Scripts<2, 2> for BankScripts {
    ghost use Rattle.attempts.specs.SystemWith.{without_decisions};
    ghost use Rattle.bank.specs.System.{bank_over, effects_of, reply_of};

    type Setting = Opening;

    type Lock = u32;

    type Job = Job;

    type Reply = Reply;

    type Effect = Effect;

    type Decision = Decision;

    type ResumePoint = ();

    ghost system = { λ opening. without_decisions opening.sharing (bank_over opening) };

    ghost reply_of = { reply_of };

    ghost effects_of = { effects_of };

    ghost IsSetting = { λ opening. opening.balance < 2 ^ 64 };

    fn sharing(opening: &Opening) -> LockSharing {
        opening.sharing
    }

    fn first(job: &Job) -> u32 {
        match job {
            Job::Deposit(first, _) | Job::Withdraw(first, _) => first / SHARD_SIZE,
            Job::Transfer(first, _, _) | Job::Balance(first) => first / SHARD_SIZE,
        }
    }

    fn start(_job: &Job) {}

    #[tactic(auto, using(attempts::proofs::WalksOnWords::live_bind, attempts::proofs::WalksOnWords::live_end))]
    fn walk(
        opening: &Opening,
        job: &Job,
        _point: &mut (),
        seen: &mut Seen<u32, 2, 2>,
        words: &mut [u64],
    ) -> Result<Decision, Wanted<u32, usize>> {
        match *job {
            Job::Deposit(account, amount) => {
                let has = balance_of(opening, seen, words, account)?;
                let put = Decision::Changes(account, Operation::Add(amount));
                Ok(or_refuse(fits(has, amount), put))
            }
            Job::Withdraw(account, amount) => {
                let has = balance_of(opening, seen, words, account)?;
                let take = Decision::Changes(account, Operation::Sub(amount));
                Ok(or_refuse(amount <= has, take))
            }
            Job::Transfer(from, to, amount) => {
                let left = balance_of(opening, seen, words, from)?;
                let has = balance_of(opening, seen, words, to)?;
                let may_move = amount <= left && fits(has, amount);
                Ok(or_refuse(may_move, Decision::Moves(from, to, amount)))
            }
            Job::Balance(account) => {
                let has = balance_of(opening, seen, words, account)?;
                Ok(Decision::Replies(Reply::Has(has)))
            }
        }
    }

    fn reply(decision: &Decision) -> Reply {
        match decision {
            Decision::Replies(reply) => *reply,
            _ => Reply::Done,
        }
    }

    fn effect(decision: &Decision, place: usize) -> Option<Effect> {
        match (decision, place) {
            (Decision::Changes(account, operation), 0) => Some((*account, *operation)),
            (Decision::Moves(from, _, amount), 0) => Some((*from, Operation::Sub(*amount))),
            (Decision::Moves(_, to, amount), 1) => Some((*to, Operation::Add(*amount))),
            _ => None,
        }
    }
}

/// The shards as groups of words.
fn shards(opening: &Opening) -> Groups
    ensures { result ≡ shards_of opening.now }
{
    Groups {
        count: opening.shards,
        each: SHARD_SIZE,
    }
}

impl OnWords<2, 2> for BankScripts {
    fn size(opening: &Opening) -> usize {
        opening.account_count() + opening.shards as usize + 1
    }

    fn lock_word(opening: &Opening, shard: u32) -> usize {
        lock_word(opening, shard)
    }

    fn turn_word(opening: &Opening) -> usize {
        opening.account_count() + opening.shards as usize
    }

    fn clock(opening: &Opening) -> Clock {
        opening.clock
    }

    fn effect_word(_opening: &Opening, effect: Effect) -> usize {
        effect.0 as usize
    }

    fn effect_operation(_opening: &Opening, effect: Effect) -> Operation {
        effect.1
    }
}

/// The room of a bank: each shard stands apart from the others.
pub struct BankRoom;

impl InRoom<BankRoom, 2, 2> for BankScripts {
    ghost use Rattle.bank.proofs.BankSystem.{bank_bounded, bank_system};
    ghost use Rattle.bank_desks.specs.Shards.{shards_have_places, shards_of};
    ghost use Rattle.desk_attempts.specs.Groups.{places_of};

    type Kept = Opening;

    ghost kept = { λ opening. opening };

    ghost places = { λ opening. places_of (shards_of opening) };

    fn keep(opening: &Opening) -> Opening {
        *opening
    }

    fn place(opening: &Opening, word: usize) -> usize {
        shards(opening).place(word)
    }

    fn place_count(opening: &Opening) -> usize {
        shards(opening).place_count()
    }

    fn initial(alloc: Global, opening: &Opening) -> Result<Vec<u64>, AllocError> {
        let mut words = vec![in alloc; opening.balance; opening.account_count()]?;
        words.resize(Self::size(opening), 0)?;
        Ok(words)
    }

    fn words_under(opening: &Opening, shard: u32) -> Range<usize> {
        if shard >= opening.shards {
            return 0..0;
        }
        let first = SHARD_SIZE as usize * shard as usize;
        first..first + SHARD_SIZE as usize
    }

    ghost are_scripts = { λ opening small. record {
      is_system = bank_system opening small;
      asks = λ job right. (bank_bounded opening).asks job right;
      stays_valid = λ _ _ _ _ _ _. tt;
    } };

    ghost are_places = { λ opening _. shards_have_places opening };
}
