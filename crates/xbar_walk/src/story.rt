ghost use Rattle.std.specs.Prelude.{◌≡◌, ◌++◌, IfOk, OnOk, [], string_bytes, true};
ghost use Rattle.xbar_walk.specs.Rows.{are_joined, shares_line, tests_text};

use crate::detail::Detail;
use crate::rows::{Tested, add_tests};
use std::alloc::{AllocError, Global};
use xbar_jobs::Step;
use xbar_office::{Job, Record};
use xbar_step_text::{
    AssignmentLine, AssignmentObject, Observation, Place, add_object, add_step, settling_line,
    settling_object,
};

/// A description of what the markers of an office have done so far.
#[derive(Drop)]
pub struct Story {
    detail: Detail,
    /// The number of steps described so far, modulo 2^64.
    number: u64,
    text: String,
    /// The pending tests: the next test may share their line, so it is not yet written.
    tests: Vec<Tested>,
    ghost joined: { are_joined detail tests.items ≡ true },
}

impl Story {
    ghost use Rattle.std.specs.Prelude.{ℕ, List};
    ghost use Rattle.xbar_walk.specs.Items.{Item, Tests, assignment_item, is_json, settling_item, step_item, walk_text_of};
    ghost use Rattle.xbar_walk.specs.Observers.{Adds};
    ghost use Rattle.xbar_walk.specs.Stories.{AddsStep, IsStory};
    ghost use Rattle.xbar_walk.specs.declared.detail.Detail.{Detail as TheTelling};

    /// An empty story, to be written in this detail.
    pub fn new(alloc: Global, detail: Detail) -> Self
        ensures { IsStory result detail 0 [] }
    {
        Story {
            detail,
            number: 0,
            text: String::new(alloc),
            tests: Vec::new(alloc),
        }
    }

    /// Whether a test shares the line of the pending tests.
    fn shares_pending_line(&self, tested: &Tested) -> bool
        ensures { result ≡ shares_line self.now.detail self.now.tests.items tested.now }
    {
        match self.tests.as_slice() {
            [] => false,
            [.., last] => self.detail.is_short() && last.goes_on(tested),
        }
    }

    /// Writes the line of the pending tests, which no later test is to share.
    fn end_tests(&mut self) -> Result<(), AllocError>
        ensures observed { OnOk result (string_bytes self.new.text
            ≡ string_bytes self.old.text ++ tests_text self.old.tests.items) }
        ensures none { OnOk result (self.new.tests.items ≡ []) }
        ensures detail { self.new.detail ≡ self.old.detail }
        ensures number { self.new.number ≡ self.old.number }
    {
        add_tests(&mut self.text, self.tests.as_slice())?;
        self.tests.clear();
        Ok(())
    }

    /// Adds a test to the pending ones, or begins new ones if it doesn't share their line.
    fn add_test(&mut self, tested: Tested) -> Result<(), AllocError>
        ensures { OnOk result (Adds IsStory (λ detail. Tests tested) self.old self.new) }
    {
        if self.shares_pending_line(&tested) {
            self.tests.push(tested)?;
            return Ok(());
        }
        self.end_tests()?;
        self.tests.push(tested)?;
        Ok(())
    }

    /// Adds that a marker is assigned a job. If memory runs out, a part of the text may have been
    /// added; so too in the methods below.
    pub(crate) fn add_assignment(
        &mut self,
        marker: u32,
        job_no: u32,
        job: &Job,
    ) -> Result<(), AllocError>
        ensures { OnOk result (Adds IsStory (λ detail. assignment_item detail marker job_no job.now)
            self.old self.new) }
    {
        let detail = self.detail;
        self.end_tests()?;
        if detail.is_json() {
            let (before, after) = (detail.before_object(), detail.after_object());
            let object = AssignmentObject {
                marker,
                job_no,
                job,
            };
            write!(self.text, "{before}{object}{after}")?;
            return Ok(());
        }
        let line = AssignmentLine {
            marker,
            job_no,
            job,
        };
        write!(self.text, "{line}")?;
        Ok(())
    }

    /// Adds that no row is left and the office settles.
    pub(crate) fn add_settling(&mut self) -> Result<(), AllocError>
        ensures { OnOk result (Adds IsStory settling_item self.old self.new) }
    {
        let detail = self.detail;
        self.end_tests()?;
        if detail.is_json() {
            let (before, after) = (detail.before_object(), detail.after_object());
            let settled = settling_object();
            write!(self.text, "{before}{settled}{after}")?;
            return Ok(());
        }
        self.text.push_str(settling_line())?;
        Ok(())
    }

    /// Adds the object of the step with this number.
    fn add_step_object(
        &mut self,
        number: u64,
        marker: u32,
        observed: &Observation,
        records: &[Record],
    ) -> Result<(), AllocError>
        requires { is_json self.old.detail ≡ true }
        ensures { OnOk result
            (Adds IsStory (λ detail. step_item detail number marker observed.now records.now)
            self.old self.new) }
    {
        let detail = self.detail;
        self.end_tests()?;
        self.text.push_str(detail.before_object())?;
        add_object(&mut self.text, number, marker, observed, records)?;
        self.text.push_str(detail.after_object())?;
        Ok(())
    }

    /// Adds the item of the step with this number.
    fn add_item(
        &mut self,
        number: u64,
        marker: u32,
        observed: &Observation,
        records: &[Record],
    ) -> Result<(), AllocError>
        ensures { OnOk result
            (Adds IsStory (λ detail. step_item detail number marker observed.now records.now)
            self.old self.new) }
    {
        if self.detail.is_json() {
            self.add_step_object(number, marker, observed, records)?;
            return Ok(());
        }
        if let Step::Test(word) = observed.step {
            let (place, word) = (Place::of(word), observed.found);
            self.add_test(Tested {
                number,
                marker,
                place,
                word,
            })?;
            return Ok(());
        }
        self.end_tests()?;
        add_step(&mut self.text, number, marker, observed, records)?;
        Ok(())
    }

    /// Adds a marker's step with the next number and, if it is a turn, its trouble cards.
    /// `records` are those that the step added: one if it is a turn, else none.
    pub fn add_step(
        &mut self,
        marker: u32,
        observed: &Observation,
        records: &[Record],
    ) -> Result<(), AllocError>
        ensures { OnOk result
            (AddsStep (λ detail number. step_item detail number marker observed.now records.now)
            self.old self.new) }
    {
        let number = self.number.wrapping_add(1);
        self.number = number;
        self.add_item(number, marker, observed, records)?;
        Ok(())
    }

    /// Returns the whole text.
    pub fn finish(mut self) -> Result<String, AllocError>
        ensures { IfOk result (λ text. (detail : TheTelling) (number : ℕ) (items : List Item)
            → IsStory self detail number items → string_bytes text ≡ walk_text_of detail items) }
    {
        self.end_tests()?;
        Ok(self.text)
    }
}
