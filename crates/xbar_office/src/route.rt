//! Where a call goes: to which called line, and by which trunk.

ghost use Rattle.std.specs.Prelude.{◌≡◌, ◌<◌, ◌≤◌, ℕ, Some, IfSome, List, length, slice_get};
ghost use Rattle.xbar_plan.specs.Tables.{Tables};
ghost use Rattle.xbar_office.specs.Members.{members_of};
ghost use Rattle.xbar_plan.specs.Tables.{AreGroups};
ghost use Rattle.xbar_office.specs.Trunks.{leads_inside as leads_inside_of, called_line as called_line_of, idle_trunk as idle_trunk_of};

use crate::members::first_idle;
use crate::sets::is_line_idle;
use xbar_equip::{Len, Path};
use xbar_plan::{Member, Plan};

/// An idle trunk: its group, and its index in the group, both counted from 0.
#[derive(Clone, Copy, Debug, PartialEq, Eq)]
pub struct IdleTrunk {
    pub group: u8,
    pub first: usize,
}

/// The members of a group.
pub fn members(plan: &Plan, group: u8) -> &[Member]
    requires { group < length plan.now.groups }
    ensures members { result.now ≡ members_of plan.now group }
    ensures size { length result.now ≤ 40 }
{
    plan.group(group).members()
}

/// Whether all these groups of a code are intra groups.
pub fn leads_inside(plan: &Plan, groups: &[u8]) -> bool
    requires { AreGroups plan.now groups.now }
    ensures { result ≡ leads_inside_of plan.now groups.now }
{
    for group in groups {
        if !plan.group(*group).is_intra() {
            return false;
        }
    }
    true
}

/// The first line of a number that is idle and is not the calling line.
pub fn called_line(paths: &[Path], calling: Len, lines: &[Len]) -> Option<Len>
    ensures { result ≡ called_line_of paths.now calling lines.now }
{
    for line in lines {
        if *line != calling && is_line_idle(paths, *line) {
            return Some(*line);
        }
    }
    None
}

/// The first group that has an idle member, and its first one.
pub fn idle_trunk(plan: &Plan, paths: &[Path], groups: &[u8]) -> Option<IdleTrunk>
    requires { AreGroups plan.now groups.now }
    ensures trunk { result ≡ idle_trunk_of plan.now paths.now groups.now }
    ensures group { IfSome result (λ trunk. trunk.group < length plan.now.groups) }
    ensures first { IfSome result (λ trunk. trunk.first < length
        (members_of plan.now trunk.group)) }
{
    for group in groups {
        if let Some(first) = first_idle(paths, members(plan, *group)) {
            return Some(IdleTrunk {
                group: *group,
                first,
            });
        }
    }
    None
}
