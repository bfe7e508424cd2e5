//! A worker, which does whole jobs, one after another.

ghost use Rattle.std.specs.Prelude.{◌≡◌, ℕ, [], ◌∷◌, false, true};
ghost use Rattle.xbar_moves.specs.Exchange.{is_idle};
ghost use Rattle.xbar_moves.specs.Kinds.{takes};
ghost use Rattle.xbar_fabric.specs.Histories.{turned_of};
ghost use Rattle.xbar_fabric.specs.Views.{DeskView, IsDeskOf};
ghost use Rattle.xbar_office.specs.declared.reply.Record.{Record as RecordView};
ghost use Rattle.xbar_markers.specs.Work.{HasDone, HasPassed, IsDoing, IsReady, assigned_to};

use crate::counted_gate::CountedGate;
use crate::gate::Gate;
use std::sync::Wait;
use std::thread;
use xbar_fabric::{Answer, Desk, Fabric, Watch};
use xbar_office::{Job, Record};

/// A desk, and the gate that is called before its steps. It is `Send` if the desk and the gate
/// are.
#[derive(Drop)]
pub struct Worker<D: Drop, G: Gate + Drop> {
    pub desk: D,
    pub gate: CountedGate<G>,
}

/// Whether a step was denied its connector.
fn is_refusal(answer: Option<Answer>) -> bool {
    matches!(answer, Some(Answer::Held(_) | Answer::Preferred(_)))
}

/// Yields to other threads once a desk that was denied a connector has given back all that it
/// held, so that nobody waits for it meanwhile. Returns whether the desk has yet to do so.
pub fn yield_once_given_back(desk: &Desk, was_giving_back: bool) -> bool {
    if !was_giving_back {
        return false;
    }
    if desk.is_giving_back() {
        return true;
    }
    thread::yield_now();
    false
}

impl<G: Gate + Drop> Worker<Desk, G> {
    /// Makes the desk's next step, and then further ones that ask for no connector. Returns the
    /// answer to the first.
    fn go_on(&mut self, fabric: &Fabric) -> Option<Answer>
        requires of { IsDeskOf self.old.desk fabric.now }
        requires busy { is_idle self.old.desk.work ≡ false }
        ensures doing { (start : DeskView) (number : ℕ) (job : Job) →
            IsDoing number job start self.old.desk → IsDoing number job start self.new.desk }
        ensures passed { HasPassed self.old.desk self.new.desk self.old.gate self.new.gate }
        ensures ended { is_idle self.new.desk.work ≡ true →
            (r : RecordView) × (turned_of self.new.desk ≡ r ∷ []) }
    {
        // Called only for their contracts.
        xbar_fabric::laws::desks_report_their_records();
        xbar_fabric::laws::reports_are_of_assigned_jobs();
        self.gate.before_step();
        let answer = self.desk.step(fabric);
        // After a request that wasn't denied, the next step is the seizing.
        if !matches!(answer, Some(Answer::Asked(_))) {
            let _made = self.desk.run(fabric, &mut self.gate);
        }
        answer
    }

    /// Does a job, from its assignment to its end.
    pub fn do_job<R: Wait>(&mut self, rt: &R, fabric: &Fabric, job_no: u32, job: Job) -> Record
        requires ready { IsReady self.old.desk fabric.now }
        requires takes { takes self.old.desk.kind job ≡ true }
        ensures done { HasDone self.old.desk self.new.desk job_no job result }
        ensures passed { HasPassed (assigned_to self.old.desk job_no job) self.new.desk
            self.old.gate self.new.gate }
    {
        // Called only for its contract.
        xbar_fabric::laws::next_records_have_later_turns();
        let Ok(()) = self.desk.assign(job_no, job) else {
            unreachable!()
        };
        let mut is_giving_back = false;
        for _ in rt.forever() {
            let answer = self.go_on(fabric);
            // Asked for only now, since otherwise each step would carry room for a record.
            if self.desk.is_idle() {
                let Some(record) = self.desk.record() else {
                    unreachable!()
                };
                // Called only for its contract, that what the desk has seen is a history.
                let _marker = self.desk.marker();
                self.gate.finish(job_no);
                return record;
            }
            is_giving_back = is_refusal(answer)
                || yield_once_given_back(&self.desk, is_giving_back);
        }
        unreachable!()
    }
}
