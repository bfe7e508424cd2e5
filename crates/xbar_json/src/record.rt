use crate::array::add_array;
use crate::end_members::EndMembers;
use crate::job_object::JobObject;
use crate::json::Json;
use std::alloc::AllocError;
use xbar_office::Record;

impl Json for Record {
    ghost use Rattle.xbar_json.specs.Office.{record_object};

    ghost json = { record_object };

    #[tactic(auto, unfolding(crate::specs::Office::record_object))]
    fn add_json(&self, text: &mut String) -> Result<(), AllocError> {
        let Record {
            turn,
            marker,
            job_no,
            job,
            reply,
        } = self;
        let job = JobObject {
            number: *job_no,
            job,
        };
        let end = EndMembers(&reply.end);
        write!(
            text,
            r#"{{"turn":{turn},"marker":{marker},"job":{job},{end},"cards":"#
        )?;
        add_array(text, reply.cards.as_slice())?;
        text.push_str("}")?;
        Ok(())
    }
}
