use crate::array::add_array;
use crate::json::Json;
use std::alloc::AllocError;
use xbar_plan::Station;

impl Json for Station {
    ghost use Rattle.xbar_json.specs.Plan.{station_object};

    ghost json = { station_object };

    #[tactic(auto, unfolding(crate::specs::Plan::station_object))]
    fn add_json(&self, text: &mut String) -> Result<(), AllocError> {
        let number = self.number();
        write!(text, r#"{{"number":"{number}","lines":"#)?;
        add_array(text, self.lines())?;
        text.push_str("}")?;
        Ok(())
    }
}
