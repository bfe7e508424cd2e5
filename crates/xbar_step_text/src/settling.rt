ghost use Rattle.std.specs.Prelude.{◌≡◌};
ghost use Rattle.xbar_step_text.specs.Lines.{settling_line as line_of};
ghost use Rattle.xbar_step_text.specs.Objects.{settling_object as object_of};

/// The line that is written once, when no row is left.
#[tactic(auto, unfolding(crate::specs::Lines::settling_line))]
pub fn settling_line() -> &'static str
    ensures { result.now ≡ line_of }
{
    "      the rows are done, and the office settles\n"
}

/// The same as a JSON object.
#[tactic(auto, unfolding(crate::specs::Objects::settling_object))]
pub fn settling_object() -> &'static str
    ensures { result.now ≡ object_of }
{
    r#"{"event":"settling","says":"the rows are done, and the office settles"}"#
}
