//! The jobs of `tickets` as walks, for desks that threads own.
#![tactic(auto)]

ghost use Rattle.std.specs.Prelude.{◌≡◌, ◌<◌, ◌+◌, ◌^◌, IfSome, slice_get};

use attempts::{OnWords, Scripts, Seen};
use desk_attempts::{Attempts, Groups, InGroups, OnGroups};
use tickets::{Decision, Effect, Job};
use turns::{Clock, LockSharing, Operation, Wanted};

/// The jobs' scripts, as walks.
pub struct TicketScripts;

// change: the most words that a script tests, and the most locks that it seizes, here and below
/// The jobs as desks do them.
pub type TicketJobs = Attempts<TicketScripts, InGroups, 1, 1>;

impl Scripts<1, 1> for TicketScripts {
    ghost use Rattle.attempts.specs.SystemWith.{without_decisions};
    ghost use Rattle.turns.specs.declared.lock_sharing.LockSharing.TheVariants.{Preferring};
    ghost use Rattle.tickets.specs.System.{effects_of, reply_of, tickets_over};

    type Setting = ();

    type Lock = u32;

    type Job = Job;

    type Reply = u64;

    type Effect = Effect;

    type Decision = Decision;

    type ResumePoint = ();

    ghost system = { λ _. without_decisions Preferring tickets_over };

    ghost reply_of = { reply_of };

    ghost effects_of = { effects_of };

    ghost IsSetting = { λ _. Unit {0} };

    // change: as in the system (`plain` is `LockSharing::Plain`, here and in `system`)
    fn sharing(_setting: &()) -> LockSharing {
        LockSharing::Preferring
    }

    // change: the lock that a job seizes first
    fn first(_job: &Job) -> u32 {
        0
    }

    fn start(_job: &Job) {}

    // change: each script as code
    #[tactic(auto, using(attempts::proofs::WalksOnWords::live_bind, attempts::proofs::WalksOnWords::live_end))]
    fn walk(
        _setting: &(),
        job: &Job,
        _point: &mut (),
        seen: &mut Seen<u32, 1, 1>,
        words: &mut [u64],
    ) -> Result<Decision, Wanted<u32, usize>> {
        seen.seize(0, 1, words)?;
        let number = seen.test(0, words)?;
        match job {
            Job::Take => Ok(Decision::Takes(number)),
            Job::Look => Ok(Decision::Tells(number)),
        }
    }

    // change: the reply and the effects of a decision
    fn reply(decision: &Decision) -> u64 {
        match decision {
            Decision::Takes(number) | Decision::Tells(number) => *number,
        }
    }

    fn effect(decision: &Decision, place: usize) -> Option<Effect> {
        match (decision, place) {
            (Decision::Takes(_), 0) => Some(Effect::AddOne),
            _ => None,
        }
    }
}

// change: how many groups of words there are, and how many words each has
const GROUPS: Groups = Groups { count: 1, each: 1 };

// change: what an effect does to which word
impl OnWords<1, 1> for TicketScripts {
    fn size(_setting: &()) -> usize {
        GROUPS.size()
    }

    fn lock_word(_setting: &(), lock: u32) -> usize {
        GROUPS.lock_word(lock)
    }

    fn turn_word(_setting: &()) -> usize {
        GROUPS.turn_word()
    }

    // change: as in the system
    fn clock(_setting: &()) -> Clock {
        Clock::Counted
    }

    fn effect_word(_setting: &(), _effect: Effect) -> usize {
        0
    }

    fn effect_operation(_setting: &(), _effect: Effect) -> Operation {
        Operation::Add(1)
    }
}

// change: what is kept of the setting
impl OnGroups<1, 1> for TicketScripts {
    ghost use Rattle.std.specs.Prelude.{refl};
    ghost use Rattle.tickets.proofs.IsSystem.{asks, tickets_system};

    type Kept = ();

    ghost kept = { λ unit. unit };

    fn keep(_setting: &()) {}

    ghost groups_of = { λ _. record { count = 1; each = 1 } };

    fn groups(_setting: &()) -> Groups {
        GROUPS
    }

    // change: which lemmas say that the jobs are a system, and how much a script asks for
    ghost are_scripts = { λ _ _. record {
      is_system = tickets_system;
      asks = λ job right. asks job;
      stays_valid = λ _ _ _ _ _ _. tt;
    } };

    ghost are_laid_out = { λ _. record {
      size = refl;
      initial = refl;
      lock_word = λ lock. refl;
      turn_word = refl;
    } };
}
