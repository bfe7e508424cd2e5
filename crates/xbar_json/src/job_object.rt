ghost use Rattle.std.specs.Prelude.{Some};
ghost use Rattle.xbar_json.specs.Office.{job_members, job_object};

use crate::json::Json;
use std::alloc::AllocError;
use std::fmt;
use xbar_office::Job;

/// What a job asks for: its kind, its line, and what was dialled.
#[derive(Clone, Copy)]
struct JobMembers<'j>(&'j Job);

impl fmt::Display for JobMembers<'_> {
    ghost output = { λ members. Some (job_members members.0.now) };

    #[tactic(auto, unfolding(crate::specs::Office::job_members))]
    fn fmt<W: fmt::Write>(&self, f: &mut fmt::Formatter<W>) -> fmt::Result {
        match self.0 {
            Job::Dial(line) => write!(f, r#""kind":"D","line":"{line}","dialled":null"#),
            Job::Complete(line, dialled) => {
                write!(f, r#""kind":"C","line":"{line}","dialled":"{dialled}""#)
            }
            Job::Release(line) => write!(f, r#""kind":"R","line":"{line}","dialled":null"#),
        }
    }
}

/// A job under its number.
#[derive(Clone, Copy)]
pub struct JobObject<'j> {
    /// The number under which a marker got the job.
    pub number: u32,
    pub job: &'j Job,
}

impl fmt::Display for JobObject<'_> {
    ghost output = { λ object. Some (job_object object.number object.job.now) };

    #[tactic(auto, unfolding(crate::specs::Office::job_object))]
    fn fmt<W: fmt::Write>(&self, f: &mut fmt::Formatter<W>) -> fmt::Result {
        let number = self.number;
        let members = JobMembers(self.job);
        write!(f, r#"{{"number":{number},{members}}}"#)
    }
}

impl Json for JobObject<'_> {
    ghost json = { λ object. job_object object.number object.job.now };

    fn add_json(&self, text: &mut String) -> Result<(), AllocError> {
        write!(text, "{self}")
    }
}
