ghost use Rattle.std.specs.Prelude.{◌≡◌, Some, None, MatchResult, false};
ghost use Rattle.turns.specs.Attempt.{begin_with};
ghost use Rattle.turns.specs.World.{Does};
ghost use Rattle.xbar_jobs.specs.Jobs.{first_conn};
ghost use Rattle.desks.specs.Desks.{gives_back};
ghost use Rattle.xbar_moves.specs.Exchange.{is_idle as is_idle_work};
ghost use Rattle.xbar_moves.specs.Moves.{given_by, refusal_of};
ghost use Rattle.xbar_fabric.specs.Histories.{IsHistory};
ghost use Rattle.xbar_fabric.specs.Views.{marker_of};

use crate::office::Office;
use desk_attempts::turn;
use std::marker::Model;
use xbar_jobs::{HELD, Offices, READINGS};
use xbar_moves::{AssignFault, Given, Kind};
use xbar_office::Job;
use xbar_office::laws::job_is_in_range;

/// A handle by which the thread that owns it acts as one marker. It borrows nothing, and has a
/// fixed size.
#[derive(Drop)]
pub struct Desk {
    pub(crate) desk: desks::Desk<Office>,
    pub(crate) kind: Kind,
}

impl Model for Desk {
    ghost use Rattle.std.specs.Prelude.{map};
    ghost use Rattle.xbar_fabric.specs.Views.{DeskView, HasJobNo, entered};

    ghost Value = { DeskView };

    ghost view = { λ d. record {
      table = d.desk.table;
      plan = d.desk.setting;
      marker = d.desk.number;
      kind = d.kind;
      work = d.desk.actor;
      seen = map entered d.desk.seen;
    } };

    ghost invariant = { λ d. HasJobNo d.desk.actor };
}

impl Desk {
    /// The number of the desk's marker, from 0 on.
    pub fn marker(&self) -> u32
        ensures marker { result ≡ self.now.marker }
        ensures history { IsHistory self.now.plan self.now.seen }
    {
        self.desk.number()
    }

    /// Which jobs the marker takes.
    pub fn kind(&self) -> Kind
        ensures { result ≡ self.now.kind }
    {
        self.kind
    }

    /// Whether the marker may be assigned a job: it has none, or nothing is left of it.
    pub fn is_idle(&self) -> bool
        ensures { result ≡ is_idle_work self.now.work }
    {
        self.desk.is_idle()
    }

    /// Whether the marker was denied a connector, and still has a request to withdraw or
    /// connectors to free.
    pub fn is_giving_back(&self) -> bool
        ensures { result ≡ gives_back self.now.work }
    {
        self.desk.is_giving_back()
    }

    /// The outcome of asking the marker to give back.
    pub(crate) fn given(&self) -> Given
        ensures { result ≡ given_by self.now.work }
    {
        let is_past_turn = match self.desk.doing() {
            Some((_, program)) => turn::<Offices, READINGS, HELD>(program).is_some(),
            None => false,
        };
        Given::of(self.is_idle(), is_past_turn)
    }

    /// Why the marker can't be assigned the job. None if it can.
    fn refuses(&self, job: &Job) -> Option<AssignFault>
        ensures { result ≡ refusal_of (marker_of self.now) job.now }
    {
        self.kind.refuses(self.is_idle(), job)
    }

    /// Assigns the marker a job under a number, or returns the first reason why not: `NotIdle`
    /// before `WrongKind`. Allocates nothing.
    pub fn assign(&mut self, job_no: u32, job: Job) -> Result<(), AssignFault>
        ensures { MatchResult result
            (λ _. (refusal_of (marker_of self.old) job ≡ None) × (self.new
            ≡ record (self.old) { work = Does job_no (begin_with (first_conn job) job) }))
            (λ fault. (refusal_of (marker_of self.old) job ≡ Some fault) × (self.new ≡ self.old)) }
    {
        if let Some(fault) = self.refuses(&job) {
            return Err(fault);
        }
        // Called only for its contract.
        job_is_in_range(&job);
        self.desk.assign(u64::from(job_no), job);
        Ok(())
    }
}
