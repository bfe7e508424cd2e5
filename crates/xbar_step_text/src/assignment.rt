//! The assignment of a job to a marker: a line, or a JSON object.

ghost use Rattle.std.specs.Prelude.{Some};
ghost use Rattle.xbar_step_text.specs.Lines.{assignment_line};
ghost use Rattle.xbar_step_text.specs.Objects.{assignment_object};

use crate::turn_words::JobWords;
use std::fmt;
use xbar_json::JobObject;
use xbar_office::Job;

/// The line of a job's assignment to a marker.
#[derive(Clone, Copy)]
pub struct AssignmentLine<'j> {
    pub marker: u32,
    pub job_no: u32,
    pub job: &'j Job,
}

impl fmt::Display for AssignmentLine<'_> {
    ghost output = { λ line. Some (assignment_line line.marker line.job_no line.job.now) };

    #[tactic(auto, unfolding(crate::specs::Lines::assignment_line))]
    fn fmt<W: fmt::Write>(&self, f: &mut fmt::Formatter<W>) -> fmt::Result {
        let (marker, job_no) = (self.marker, self.job_no);
        let job = JobWords(self.job);
        writeln!(f, "      marker {marker}  is given job {job_no}: {job}")
    }
}

/// The same as a JSON object.
#[derive(Clone, Copy)]
pub struct AssignmentObject<'j> {
    pub marker: u32,
    pub job_no: u32,
    pub job: &'j Job,
}

impl fmt::Display for AssignmentObject<'_> {
    ghost output = { λ object. Some (assignment_object object.marker object.job_no object.job.now) };

    #[tactic(auto, unfolding(crate::specs::Objects::assignment_object))]
    fn fmt<W: fmt::Write>(&self, f: &mut fmt::Formatter<W>) -> fmt::Result {
        let (marker, job_no) = (self.marker, self.job_no);
        let job = JobObject {
            number: job_no,
            job: self.job,
        };
        let words = JobWords(self.job);
        write!(
            f,
            r#"{{"event":"assignment","marker":{marker},"job":{job},"says":"is given job {job_no}: {words}"}}"#
        )
    }
}
