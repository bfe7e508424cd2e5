//! The bank's jobs with work under their locks: a job that has read what it decides by computes for
//! a while, and then decides as in `bank_desks`.

ghost use Rattle.std.specs.Prelude.{◌≡◌, ◌≤◌, ◌<◌, ◌+◌, ◌^◌, IfSome, slice_get};

use attempts::{OnWords, Scripts, Seen};
use bank::{Decision, Effect, Job, Opening, Reply};
use bank_desks::{BankRoom, BankScripts};
use desk_attempts::{Attempts, InRoom};
use std::alloc::{AllocError, Global};
use std::ops::Range;
use turns::{Clock, LockSharing, Operation, Wanted};

/// How a bank opens, and how many rounds of work each of its jobs does.
#[derive(Clone, Copy, Drop)]
pub struct BankWithWork {
    pub opening: Opening,
    pub rounds: u32,
}

/// The scripts of the bank's jobs, with work before each decision.
pub struct ScriptsWithWork;

pub type JobsWithWork = Attempts<ScriptsWithWork, BankRoom, 2, 2>;

/// Does so many rounds of work, each of which needs what the one before it made.
pub fn work(rounds: u32, seed: u64) -> u64 {
    let mut made = seed | 1;
    for _round in 0..rounds {
        made = made.wrapping_mul(0x9e37_79b9_7f4a_7c15).rotate_left(7);
    }
    made
}

impl Scripts<2, 2> for ScriptsWithWork {
    ghost use Rattle.attempts.specs.SystemWith.{without_decisions};
    ghost use Rattle.bank.specs.System.{bank_over, effects_of, reply_of};

    type Setting = BankWithWork;

    type Lock = u32;

    type Job = Job;

    type Reply = Reply;

    type Effect = Effect;

    type Decision = Decision;

    /// What the work made, lest a compiler leave the work out.
    type ResumePoint = u64;

    ghost system = { λ bank. without_decisions bank.opening.sharing (bank_over bank.opening) };

    ghost reply_of = { reply_of };

    ghost effects_of = { effects_of };

    ghost IsSetting = { λ bank. bank.opening.balance < 2 ^ 64 };

    fn sharing(bank: &BankWithWork) -> LockSharing {
        BankScripts::sharing(&bank.opening)
    }

    fn first(job: &Job) -> u32 {
        BankScripts::first(job)
    }

    fn start(_job: &Job) -> u64 {
        0
    }

    fn walk(
        bank: &BankWithWork,
        job: &Job,
        made: &mut u64,
        seen: &mut Seen<u32, 2, 2>,
        words: &mut [u64],
    ) -> Result<Decision, Wanted<u32, usize>> {
        let decision = BankScripts::walk(&bank.opening, job, &mut (), seen, words)?;
        *made = work(bank.rounds, *made);
        Ok(decision)
    }

    fn reply(decision: &Decision) -> Reply {
        BankScripts::reply(decision)
    }

    fn effect(decision: &Decision, place: usize) -> Option<Effect> {
        BankScripts::effect(decision, place)
    }
}

impl OnWords<2, 2> for ScriptsWithWork {
    fn size(bank: &BankWithWork) -> usize {
        BankScripts::size(&bank.opening)
    }

    fn lock_word(bank: &BankWithWork, shard: u32) -> usize {
        BankScripts::lock_word(&bank.opening, shard)
    }

    fn turn_word(bank: &BankWithWork) -> usize {
        BankScripts::turn_word(&bank.opening)
    }

    fn clock(bank: &BankWithWork) -> Clock {
        BankScripts::clock(&bank.opening)
    }

    fn effect_word(bank: &BankWithWork, effect: Effect) -> usize {
        BankScripts::effect_word(&bank.opening, effect)
    }

    fn effect_operation(bank: &BankWithWork, effect: Effect) -> Operation {
        BankScripts::effect_operation(&bank.opening, effect)
    }
}

impl InRoom<BankRoom, 2, 2> for ScriptsWithWork {
    ghost use Rattle.bank.proofs.BankSystem.{bank_bounded, bank_system};
    ghost use Rattle.bank_desks.specs.Shards.{shards_have_places, shards_of};
    ghost use Rattle.desk_attempts.specs.Groups.{places_of};

    type Kept = BankWithWork;

    ghost kept = { λ bank. bank };

    ghost places = { λ bank. places_of (shards_of bank.opening) };

    fn keep(bank: &BankWithWork) -> BankWithWork {
        *bank
    }

    fn place(bank: &BankWithWork, word: usize) -> usize {
        BankScripts::place(&bank.opening, word)
    }

    fn place_count(bank: &BankWithWork) -> usize {
        BankScripts::place_count(&bank.opening)
    }

    fn initial(alloc: Global, bank: &BankWithWork) -> Result<Vec<u64>, AllocError> {
        BankScripts::initial(alloc, &bank.opening)
    }

    fn words_under(bank: &BankWithWork, shard: u32) -> Range<usize> {
        BankScripts::words_under(&bank.opening, shard)
    }

    ghost are_scripts = { λ bank small. record {
      is_system = bank_system bank.opening small;
      asks = λ job right. (bank_bounded bank.opening).asks job right;
      stays_valid = λ _ _ _ _ _ _. tt;
    } };

    ghost are_places = { λ bank _. shards_have_places bank.opening };
}
