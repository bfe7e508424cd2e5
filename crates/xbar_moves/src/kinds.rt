ghost use Rattle.std.specs.Prelude.{◌≡◌, ◌↔◌, IfSome, IsSome, length};
ghost use Rattle.xbar_moves.specs.Kinds.{IsMarkerCount, combined_pair};
ghost use Rattle.xbar_moves.specs.declared.kinds.AssignFault.TheVariants.{Memory};

use arrayvec::ArrayVec;
use std::alloc::AllocError;
use std::marker::Model;
use thiserror::Error;
use xbar_office::Job;

/// Which jobs a marker takes. Early offices had one kind of marker, later ones two.
#[derive(Clone, Copy, Debug, Default, PartialEq, Eq)]
pub enum Kind {
    /// Dial tone jobs.
    Dial,
    /// Completing jobs and releases.
    Completing,
    /// All jobs.
    #[default]
    Combined,
}

impl Kind {
    ghost use Rattle.xbar_moves.specs.Kinds.{takes as takes_of};
    ghost use Rattle.xbar_moves.specs.Moves.{fault_by};

    /// Whether a marker of this kind takes the job.
    pub fn takes(&self, job: &Job) -> bool
        ensures { result ≡ takes_of self.now job.now }
    {
        match (self, job) {
            (Kind::Combined, _) => true,
            (Kind::Dial, Job::Dial(_)) => true,
            (Kind::Dial, Job::Complete(_, _) | Job::Release(_)) => false,
            (Kind::Completing, Job::Dial(_)) => false,
            (Kind::Completing, Job::Complete(_, _) | Job::Release(_)) => true,
        }
    }

    /// Why a marker of this kind, idle or not, can't be assigned the job. None if it can.
    pub fn refuses(&self, is_idle: bool, job: &Job) -> Option<AssignFault>
        ensures { result ≡ fault_by is_idle self.now job.now }
    {
        if !is_idle {
            Some(AssignFault::NotIdle)
        } else if self.takes(job) {
            None
        } else {
            Some(AssignFault::WrongKind)
        }
    }
}

/// Why a job can't be assigned to a marker. If several reasons apply, the first of these is
/// returned.
#[derive(Debug, Drop, Clone, Copy, PartialEq, Eq, Error)]
pub enum AssignFault {
    #[error("there is no such marker")]
    NoMarker,
    #[error("the marker has a job")]
    NotIdle,
    #[error("the marker takes no jobs of this kind")]
    WrongKind,
    #[error("memory ran out")]
    Memory,
}

impl From<AllocError> for AssignFault {
    ghost from_gives = { λ _ fault. fault ≡ Memory };

    fn from(_why: AllocError) -> Self {
        AssignFault::Memory
    }
}

/// The most markers that an office has.
pub const MOST_MARKERS: usize = 48;

/// The kinds of an office's markers, marker 0 first: 1 to 48 of them. They are stored in place. By
/// default there are two markers that take all jobs.
#[derive(Debug, Drop)]
pub struct Kinds {
    kinds: ArrayVec<Kind, MOST_MARKERS>,
}

impl Model for Kinds {
    ghost use Rattle.std.specs.Prelude.{List, length};
    ghost use Rattle.xbar_moves.specs.Kinds.{IsMarkerCount};
    ghost use Rattle.xbar_moves.specs.declared.kinds.Kind.{Kind};

    ghost Value = { List Kind };

    ghost view = { λ a. a.kinds.items };

    ghost invariant = { λ a. IsMarkerCount (length a.kinds.items) };
}

impl Default for Kinds {
    ghost is_default = { λ kinds. kinds ≡ combined_pair };

    fn default() -> Self {
        let mut kinds = ArrayVec::new();
        kinds.push(Kind::Combined);
        kinds.push(Kind::Combined);
        Kinds { kinds }
    }
}

impl Kinds {
    /// These kinds, or None unless there are 1 to 48.
    pub fn new(kinds: &[Kind]) -> Option<Self>
        ensures known { IsSome result ↔ IsMarkerCount (length kinds.now) }
        ensures same { IfSome result (λ all. all ≡ kinds.now) }
    {
        if kinds.is_empty() {
            return None;
        }
        let mut all = ArrayVec::new();
        all.try_extend_from_slice(kinds).ok()?;
        Some(Kinds { kinds: all })
    }

    /// The kinds, of which there are 1 to 48.
    pub fn as_slice(&self) -> &[Kind]
        ensures same { result.now ≡ self.now }
        ensures count { IsMarkerCount (length result.now) }
    {
        self.kinds.as_slice()
    }
}
