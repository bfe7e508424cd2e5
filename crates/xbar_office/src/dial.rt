//! The dial tone job: finds an idle register for a line, and a path to it.

ghost use Rattle.std.specs.Prelude.{◌≡◌};
ghost use Rattle.xbar_office.specs.Dial.{dial as dial_of};

use crate::aim::Aim;
use crate::members::first_idle;
use crate::reply::{End, Reply};
use crate::route::members;
use crate::sets::is_line_idle;
use crate::trial::{Parties, two_trials};
use xbar_equip::{Len, Path};
use xbar_plan::Plan;
use xbar_plan::laws::{every_plan_is_lawful, one_group_has_registers};

/// The reply to a dial tone job on a set of paths.
pub fn dial(plan: &Plan, paths: &[Path], line: Len) -> Reply
    ensures { result ≡ (dial_of plan.now paths.now line).reply }
{
    every_plan_is_lawful(plan);
    one_group_has_registers();
    let registers = members(plan, plan.register_group());
    if !is_line_idle(paths, line) {
        return Reply::plain(End::LineBusy);
    }
    let Some(first) = first_idle(paths, registers) else {
        return Reply::plain(End::RegistersBusy);
    };
    let parties = Parties {
        calling: line,
        called: None,
    };
    let trials = two_trials(plan, paths, &parties, registers, first);
    Reply::of_trials(Aim::DialTone, trials)
}
