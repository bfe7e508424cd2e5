use crate::json::Json;
use std::alloc::AllocError;
use xbar_plan::Member;

impl Json for Member {
    ghost use Rattle.xbar_json.specs.Plan.{member_array};

    ghost json = { member_array };

    #[tactic(auto, unfolding(crate::specs::Plan::member_array))]
    fn add_json(&self, text: &mut String) -> Result<(), AllocError> {
        let first = self.first;
        match self.second {
            None => write!(text, "[\"{first}\"]"),
            Some(second) => write!(text, "[\"{first}\",\"{second}\"]"),
        }
    }
}
