//! The completing job, on the set without the register's path: connects a line to what it dialled.

ghost use Rattle.std.specs.Prelude.{◌≡◌};
ghost use Rattle.xbar_equip.specs.Dialled.{code_of};
ghost use Rattle.xbar_plan.specs.Tables.{lines_of, route_of};
ghost use Rattle.xbar_office.specs.Complete.{call as call_of, call_number as call_number_of, connect as connect_of};
ghost use Rattle.xbar_plan.specs.Tables.{AreGroups};

use crate::aim::Aim;
use crate::reply::{End, Reply};
use crate::route::{called_line, idle_trunk, leads_inside, members};
use crate::trial::{Parties, two_trials};
use xbar_equip::{Dialled, DirNo, Len, Path};
use xbar_plan::Plan;
use xbar_plan::laws::{codes_lead_to_trunks, every_plan_is_lawful};

/// The reply to connecting the parties by the first of these groups that has an idle trunk.
fn connect(plan: &Plan, paths: &[Path], parties: &Parties, groups: &[u8]) -> Reply
    requires { AreGroups plan.now groups.now }
    ensures { result ≡ (connect_of plan.now paths.now parties.now groups.now).reply }
{
    let Some(trunk) = idle_trunk(plan, paths, groups) else {
        return Reply::plain(End::TrunksBusy);
    };
    let members = members(plan, trunk.group);
    let trials = two_trials(plan, paths, parties, members, trunk.first);
    Reply::of_trials(Aim::Connected, trials)
}

/// The reply to a call to a directory number of this office.
fn call_number(plan: &Plan, paths: &[Path], calling: Len, groups: &[u8], number: DirNo) -> Reply
    requires { AreGroups plan.now groups.now }
    ensures { result ≡ (call_number_of plan.now paths.now calling groups.now
        (lines_of plan.now number)).reply }
{
    let Some(lines) = plan.stations(number) else {
        return Reply::plain(End::VacantNumber);
    };
    let called = called_line(paths, calling, lines);
    if called.is_none() {
        return Reply::plain(End::CalledBusy);
    }
    connect(plan, paths, &Parties { calling, called }, groups)
}

/// The reply to a call, on the set without the path of the line's register.
pub fn call(plan: &Plan, paths: &[Path], calling: Len, dialled: Dialled) -> Reply
    ensures { result ≡ (call_of plan.now paths.now calling dialled
        (route_of plan.now (code_of dialled))).reply }
{
    every_plan_is_lawful(plan);
    codes_lead_to_trunks();
    let Some(groups) = plan.route(dialled.code()) else {
        return Reply::plain(End::VacantCode);
    };
    if leads_inside(plan, groups) {
        return call_number(plan, paths, calling, groups, dialled.number());
    }
    let parties = Parties {
        calling,
        called: None,
    };
    connect(plan, paths, &parties, groups)
}
