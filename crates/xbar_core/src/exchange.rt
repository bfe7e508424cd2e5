//! An office of many markers, as plain data.

ghost use Rattle.std.specs.Prelude.{◌≡◌, ◌<◌, ◌≤◌, ◌⊎◌, ◌^◌, IfOk, IfErr, OnOk, OnErr, Ok, Err, Some, None, length, map, slice_get};
ghost use Rattle.turns.specs.World.{Idle};
ghost use Rattle.xbar_equip.specs.Word.{word_count};
ghost use Rattle.xbar_core.specs.Standing.{HoldsFew};
ghost use Rattle.xbar_moves.specs.AtWork.{is_turned, next_step_at};
ghost use Rattle.xbar_moves.specs.Exchange.{IsLawfulExchange, Marker as TheMarker, is_idle as is_idle_work, fresh_exchange};
ghost use Rattle.xbar_moves.specs.Moves.{assigned, restarted_at, event_at_step, frees_left, given_at, given_back, refusal, after_step, steps};

use crate::marker::Marker;
use std::alloc::{AllocError, Global};
use std::marker::Model;
use xbar_equip::WORD_COUNT;
use xbar_jobs::Step;
use xbar_moves::{AssignFault, Event, Given, Kind, Kinds};
use xbar_office::laws::job_is_in_range;
use xbar_office::{Job, Record};
use xbar_plan::Plan;

/// An office of 1 to 48 markers, with its own words.
#[derive(Debug, Drop)]
pub struct Exchange<'p> {
    plan: &'p Plan,
    words: Vec<u64>,
    markers: Vec<Marker>,
    records: Vec<Record>,
}

impl<'p> Model for Exchange<'p> {
    ghost use Rattle.xbar_moves.specs.Exchange.{OfPlan};
    ghost use Rattle.xbar_plan.specs.Lawful.{IsLawful};
    ghost use Rattle.xbar_core.specs.Standing.{HasRoom, IsExchange};

    ghost Value = { OfPlan };

    ghost view = { λ a. record {
      plan = a.plan.now;
      exchange =
          record { words = a.words.items; markers = a.markers.items; records = a.records.items };
    } };

    ghost invariant = { λ a. IsExchange a.plan.now
        (record { words = a.words.items; markers = a.markers.items; records = a.records.items })
        × HasRoom
        (record { words = a.words.items; markers = a.markers.items; records = a.records.items })
        a.records.cap × IsLawful a.plan.now };
}

/// Idle markers of these kinds.
fn markers_of(alloc: Global, kinds: &[Kind]) -> Result<Vec<Marker>, AllocError>
    ensures { IfOk result
        (λ markers. markers.items ≡ map (λ kind. record { kind = kind; work = Idle }) kinds.now) }
{
    kinds.iter().map(|kind| Marker::new(*kind)).collect(alloc)
}

impl<'p> Exchange<'p> {
    /// Opens an office without paths, with an idle marker of each of these kinds.
    pub fn open(alloc: Global, plan: &'p Plan, kinds: &Kinds) -> Result<Self, AllocError>
        ensures { IfOk result
            (λ exchange. exchange
            ≡ record { plan = plan.now; exchange = fresh_exchange kinds.now }) }
    {
        // Called only for its contract.
        xbar_plan::laws::every_plan_is_lawful(plan);
        let markers = markers_of(alloc, kinds.as_slice())?;
        Ok(Exchange {
            plan,
            words: vec![in alloc; 0; WORD_COUNT]?,
            markers,
            records: Vec::new(alloc),
        })
    }

    /// The plan that the office was opened with.
    pub fn plan(&self) -> &'p Plan
        ensures { result.now ≡ self.now.plan }
    {
        self.plan
    }

    /// The records of the jobs that have taken their turn, in turn order.
    pub fn records(&self) -> &[Record]
        ensures records { result.now ≡ self.now.exchange.records }
        ensures few { length result.now < 2 ^ 64 }
        ensures lawful { IsLawfulExchange self.now.plan self.now.exchange }
    {
        self.records.as_slice()
    }

    /// All 453 words, each at the index of its number.
    pub fn words(&self) -> &[u64]
        ensures words { result.now ≡ self.now.exchange.words }
        ensures count { length result.now ≡ word_count }
        ensures lawful { IsLawfulExchange self.now.plan self.now.exchange }
    {
        self.words.as_slice()
    }

    /// The number of markers, which are numbered from 0 on.
    pub fn marker_count(&self) -> u32
        ensures { result ≡ length self.now.exchange.markers }
    {
        self.markers.len() as u32
    }

    /// The markers, each at the index of its number.
    pub fn markers(&self) -> &[Marker]
        ensures { result.now ≡ self.now.exchange.markers }
    {
        self.markers.as_slice()
    }

    fn marker(&self, marker: u32) -> &Marker
        requires { marker < length self.now.exchange.markers }
        ensures marker { slice_get self.now.exchange.markers marker ≡ Some result.now }
        ensures few { HoldsFew result.now.work }
    {
        &self.markers[marker as usize]
    }

    /// Which jobs the marker takes.
    pub fn kind(&self, marker: u32) -> Kind
        requires { marker < length self.now.exchange.markers }
        ensures { (m : TheMarker) → slice_get self.now.exchange.markers marker ≡ Some m →
            result ≡ m.kind }
    {
        self.marker(marker).kind()
    }

    /// Whether the marker can be assigned a job: it has none, or nothing is left of it.
    pub fn is_idle(&self, marker: u32) -> bool
        requires { marker < length self.now.exchange.markers }
        ensures { (m : TheMarker) → slice_get self.now.exchange.markers marker ≡ Some m →
            result ≡ is_idle_work m.work }
    {
        self.marker(marker).is_idle()
    }

    /// The marker's next step: `Finished` if it is idle.
    pub fn next_step(&self, marker: u32) -> Step
        requires { marker < length self.now.exchange.markers }
        ensures { (m : TheMarker) → slice_get self.now.exchange.markers marker ≡ Some m →
            result ≡ next_step_at m.work }
    {
        self.marker(marker).next_step()
    }

    /// Whether the marker's job, or its last one, has taken its turn.
    pub fn is_past_turn(&self, marker: u32) -> bool
        requires { marker < length self.now.exchange.markers }
        ensures { (m : TheMarker) → slice_get self.now.exchange.markers marker ≡ Some m →
            result ≡ is_turned m.work }
    {
        self.marker(marker).is_past_turn()
    }

    /// What `give_back` returns now.
    pub fn given(&self, marker: u32) -> Given
        requires { marker < length self.now.exchange.markers }
        ensures { result ≡ given_at self.now.exchange marker }
    {
        self.marker(marker).given()
    }

    /// How many steps give back all that the marker holds, once its job is restarted: one withdraws
    /// its request, if it has one, and one frees each connector.
    pub fn frees_left(&self, marker: u32) -> u32
        requires { marker < length self.now.exchange.markers }
        ensures { result ≡ frees_left self.now.exchange marker }
    {
        self.marker(marker).frees_left()
    }

    /// Why the job can't be assigned to the marker. None if it can.
    fn refuses(&self, marker: u32, job: &Job) -> Option<AssignFault>
        ensures { result ≡ refusal self.now.exchange marker job.now }
    {
        if marker < self.marker_count() {
            self.marker(marker).refuses(job)
        } else {
            Some(AssignFault::NoMarker)
        }
    }

    /// Assigns a job to a marker under a number, and reserves memory for the records of all turns
    /// to come. On an error nothing changes.
    pub fn assign(&mut self, marker: u32, job_no: u32, job: Job) -> Result<(), AssignFault>
        ensures ok { OnOk result ((refusal self.old.exchange marker job ≡ None)
            × (self.new
            ≡ record self.old { exchange = assigned marker job_no job self.old.exchange })) }
        ensures err { OnErr result (self.new ≡ self.old) }
        ensures why { IfErr result (λ fault. (refusal self.old.exchange marker job ≡ Some fault)
            ⊎ ((fault ≡ AssignFault.Memory) × (refusal self.old.exchange marker job ≡ None))) }
    {
        if let Some(fault) = self.refuses(marker, &job) {
            return Err(fault);
        }
        // Called only for its contract.
        job_is_in_range(&job);
        // Each marker has at most one turn to come.
        self.records.reserve(self.markers.len())?;
        self.markers[marker as usize].begin(job_no, job);
        Ok(())
    }

    /// Makes the marker's next step, if it isn't idle.
    fn advance(&mut self, marker: u32)
        requires { marker < length self.old.exchange.markers }
        ensures { self.new
            ≡ record self.old { exchange = after_step self.old.plan marker self.old.exchange } }
    {
        self.markers[marker as usize].advance(
            self.plan,
            marker,
            self.words.as_mut_slice(),
            &mut self.records,
        );
    }

    /// Makes the marker's next step, and returns its outcome. An idle marker makes none.
    pub fn step(&mut self, marker: u32) -> Event
        requires { marker < length self.old.exchange.markers }
        ensures step { self.new
            ≡ record self.old { exchange = after_step self.old.plan marker self.old.exchange } }
        ensures event { result ≡ event_at_step self.old.plan marker self.old.exchange }
    {
        let own = &mut self.markers[marker as usize];
        let step = own.next_step();
        let words = self.words.as_mut_slice();
        let answer = own.advance(self.plan, marker, words, &mut self.records);
        own.event(marker, step, answer)
    }

    /// Restarts the marker's job, unless it is past its turn: its next steps withdraw its request
    /// and free what it holds, and then it begins anew. `give_back` does this, and makes these
    /// steps too.
    pub fn restart(&mut self, marker: u32)
        requires { marker < length self.old.exchange.markers }
        ensures { self.new
            ≡ record self.old { exchange = restarted_at self.old.plan marker self.old.exchange } }
    {
        self.markers[marker as usize].restart();
    }

    /// Has the marker give back what it holds, unless it is past its turn. It keeps its job.
    pub fn give_back(&mut self, marker: u32) -> Given
        requires { marker < length self.old.exchange.markers }
        ensures back { self.new
            ≡ record self.old { exchange = given_back self.old.plan marker self.old.exchange } }
        ensures given { result ≡ given_at self.old.exchange marker }
    {
        let given = self.given(marker);
        if let Given::Given = given {
            let left = self.frees_left(marker);
            self.restart(marker);
            self.steps(marker, left);
        }
        given
    }

    /// Makes the marker's next steps up to its turn or past it, at most `most`, as far as it goes
    /// on by itself. Returns their number.
    fn run(&mut self, marker: u32, most: u32) -> u32
        requires { marker < length self.old.exchange.markers }
        ensures steps { self.new
            ≡ record self.old { exchange = steps self.old.plan marker result self.old.exchange } }
        ensures most { result ≤ most }
    {
        let words = self.words.as_mut_slice();
        self.markers[marker as usize].run(self.plan, marker, words, most)
    }

    /// Makes at least one and at most `most` of the marker's next steps, and returns their number.
    fn some_steps(&mut self, marker: u32, most: u32) -> u32
        requires marker { marker < length self.old.exchange.markers }
        requires most { 0 < most }
        ensures steps { self.new
            ≡ record self.old { exchange = steps self.old.plan marker result self.old.exchange } }
        ensures some { 0 < result }
        ensures most { result ≤ most }
    {
        let made = self.run(marker, most);
        if made > 0 {
            return made;
        }
        self.advance(marker);
        1
    }

    /// Makes `count` steps of the marker, fewer if it is idle before.
    pub fn steps(&mut self, marker: u32, count: u32)
        requires { marker < length self.old.exchange.markers }
        ensures { self.new
            ≡ record self.old { exchange = steps self.old.plan marker count self.old.exchange } }
    {
        let mut left = count;
        while left > 0 {
            if self.is_idle(marker) {
                return;
            }
            left -= self.some_steps(marker, left);
        }
    }
}
