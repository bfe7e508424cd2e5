ghost use Rattle.std.specs.Prelude.{◌≡◌};
ghost use Rattle.xbar_json.specs.Plan.{group_kind_name};

use crate::array::add_array;
use crate::json::Json;
use std::alloc::AllocError;
use xbar_plan::{Group, GroupKind};

fn kind_name(kind: GroupKind) -> &'static str
    ensures { result.now ≡ group_kind_name kind }
{
    match kind {
        GroupKind::Register => "register",
        GroupKind::Intra => "intra",
        GroupKind::Outgoing => "outgoing",
    }
}

/// The name isn't escaped. In a lawful plan it has no character that JSON escapes.
impl Json for Group {
    ghost use Rattle.xbar_json.specs.Plan.{group_object};

    ghost json = { group_object };

    #[tactic(auto, unfolding(crate::specs::Plan::group_object))]
    fn add_json(&self, text: &mut String) -> Result<(), AllocError> {
        let name = self.name();
        let kind = kind_name(self.kind());
        write!(text, r#"{{"name":"{name}","kind":"{kind}","members":"#)?;
        add_array(text, self.members())?;
        text.push_str("}")?;
        Ok(())
    }
}
