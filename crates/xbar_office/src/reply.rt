ghost use Rattle.std.specs.Prelude.{◌≡◌, ◌↔◌, IsTrue, ◌<◌, ℕ, [], ◌∷◌, ◌++◌, length};

use crate::aim::Aim;
use crate::cards::Cards;
use crate::job::Job;
use crate::trial::{CallPaths, Trials};
use xbar_equip::{Link, LinkKind, Path};

/// A trouble card: the number of a trial, and the faulty link that it met.
#[derive(Clone, Copy, Debug, PartialEq, Eq)]
pub struct Card {
    /// The number of the trial, 1 or 2.
    pub trial: u8,
    pub link: Link,
}

/// A placeholder for the unused entries of a list of cards. No trial has its number.
impl Default for Card {
    fn default() -> Self
        ensures { result.trial ≡ 0 }
    {
        Card {
            trial: 0,
            link: Link::new(LinkKind::LineLink, 0, 0, 0),
        }
    }
}

/// How a job ends.
#[derive(Clone, Copy, Debug, PartialEq, Eq)]
pub enum End {
    /// The line is connected to a register by this path, which trial 1 or 2 found.
    DialTone {
        path: Path,
        trial: u8,
    },
    /// The calling line is connected to a trunk, or inside the office to the called line, by paths
    /// that trial 1 or 2 found.
    Connected {
        calling: Path,
        called: Option<Path>,
        trial: u8,
    },
    /// The line's path was removed, and in a call inside the office the other party's.
    Released {
        own: Path,
        other: Option<Path>,
    },
    /// No line of the dialled number is idle, except perhaps the calling line.
    CalledBusy,
    /// The line already has a path.
    LineBusy,
    /// No register is idle.
    RegistersBusy,
    /// No trunk of the code's groups is idle.
    TrunksBusy,
    /// Neither trial found a channel.
    NoPath,
    /// Both trials failed, and at least one of them on a faulty link.
    Trouble,
    /// The plan does not have the dialled code.
    VacantCode,
    /// The plan does not have the dialled number.
    VacantNumber,
    /// The line has no register.
    NoRegister,
    /// The line has no path.
    NoCall,
}

impl End {
    ghost use Rattle.xbar_office.specs.AddedPaths.{added_by};

    /// The paths that a job with this end adds, if any.
    pub fn adds(&self) -> Option<CallPaths>
        ensures { result ≡ added_by self.now }
    {
        match *self {
            End::DialTone { path, .. } => Some(CallPaths {
                calling: path,
                called: None,
            }),
            End::Connected {
                calling,
                called,
                ..
            } => Some(CallPaths { calling, called }),
            _ => None,
        }
    }
}

/// How a job ended, with a card for each trial that met a faulty link, in the order of trials.
#[derive(Debug, Drop, PartialEq, Eq)]
pub struct Reply {
    pub end: End,
    pub cards: Cards,
}

impl Reply {
    ghost use Rattle.xbar_office.specs.Replies.{plain_reply, failed_end as failed_end_of, trials_reply};

    /// A reply without cards.
    pub fn plain(end: End) -> Self
        ensures { result ≡ plain_reply end }
    {
        Reply {
            end,
            cards: Cards::new(),
        }
    }

    /// The reply to a job with this aim, from the outcome of its trials.
    pub fn of_trials(aim: Aim, trials: Trials) -> Self
        ensures { result ≡ trials_reply aim trials }
    {
        let Trials { choice, cards } = trials;
        let end = match &choice {
            Some(choice) => aim.success_end(choice),
            None => Reply::failed_end(&cards),
        };
        Reply { end, cards }
    }

    /// A copy, which allocates nothing.
    pub fn copy(&self) -> Self
        ensures { result ≡ self.now }
    {
        Reply {
            end: self.end,
            cards: self.cards.copy(),
        }
    }

    /// The same as `==`, with a contract.
    pub fn is_same(&self, other: &Self) -> bool
        ensures { IsTrue result ↔ (self.now ≡ other.now) }
    {
        self.end == other.end && self.cards.is_same(&other.cards)
    }

    /// The end if both trials failed: `Trouble` if there is a card, else `NoPath`.
    fn failed_end(cards: &Cards) -> End
        ensures { result ≡ failed_end_of cards.now }
    {
        if cards.is_empty() {
            End::NoPath
        } else {
            End::Trouble
        }
    }
}

/// An entry of the history: a job that has taken its turn, and its reply.
#[derive(Debug, Drop, PartialEq, Eq)]
pub struct Record {
    /// The job's index among all jobs of the office, in the order of their turns.
    pub turn: u64,
    /// The number of the marker that did the job.
    pub marker: u32,
    /// The number under which the marker got the job.
    pub job_no: u32,
    pub job: Job,
    pub reply: Reply,
}
