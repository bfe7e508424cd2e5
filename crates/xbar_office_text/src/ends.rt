//! What a path leads to: the member of a group at its trunk place.

ghost use Rattle.std.specs.Prelude.{◌≡◌, IfOk, Some, string_bytes};
ghost use Rattle.xbar_office.specs.Standing.{ends_at_register as ends_at_register_of};
ghost use Rattle.xbar_office_text.specs.Ends.{end_text, group_name as group_name_of, member_text, other_text, use_text};

use std::alloc::{AllocError, Global};
use std::fmt;
use xbar_equip::Path;
use xbar_plan::Plan;

/// Whether a path ends at a register.
pub fn ends_at_register(plan: &Plan, path: &Path) -> bool
    ensures { result ≡ ends_at_register_of plan.now path.now }
{
    match plan.member_of(path.place) {
        None => false,
        Some(member) => member.group == plan.register_group(),
    }
}

/// The name of a group; empty if the plan has no group with this number.
fn group_name(plan: &Plan, group: u8) -> &str
    ensures { result.now ≡ group_name_of plan.now group }
{
    if group < plan.group_count() {
        plan.group(group).name()
    } else {
        ""
    }
}

/// The member at the place where a path ends.
#[derive(Clone, Copy)]
pub struct PathMember<'a>(pub &'a Plan, pub &'a Path);

impl fmt::Display for PathMember<'_> {
    ghost output = { λ name. Some (member_text name.0.now name.1.now) };

    #[tactic(auto, unfolding(crate::specs::Ends::member_text))]
    fn fmt<W: fmt::Write>(&self, f: &mut fmt::Formatter<W>) -> fmt::Result {
        let PathMember(plan, path) = self;
        match plan.member_of(path.place) {
            Some(member) => write!(f, "{} {}", group_name(plan, member.group), member.index),
            None => f.write_str("no member"),
        }
    }
}

/// The other place of that member, if it has two.
#[derive(Clone, Copy)]
struct OtherPlace<'a>(&'a Plan, &'a Path);

impl fmt::Display for OtherPlace<'_> {
    ghost output = { λ other. Some (other_text other.0.now other.1.now) };

    #[tactic(auto, unfolding(crate::specs::Ends::other_text))]
    fn fmt<W: fmt::Write>(&self, f: &mut fmt::Formatter<W>) -> fmt::Result {
        let OtherPlace(plan, path) = self;
        let Some(member) = plan.member_of(path.place) else {
            return Ok(());
        };
        match member.other {
            Some(place) => write!(f, ", with {place}"),
            None => Ok(()),
        }
    }
}

/// Whose a path is, a register's or a call's, and the member where it ends.
#[derive(Clone, Copy)]
pub struct PathUse<'a>(pub &'a Plan, pub &'a Path);

impl fmt::Display for PathUse<'_> {
    ghost output = { λ it. Some (use_text it.0.now it.1.now) };

    #[tactic(auto, unfolding(crate::specs::Ends::use_text))]
    fn fmt<W: fmt::Write>(&self, f: &mut fmt::Formatter<W>) -> fmt::Result {
        let PathUse(plan, path) = self;
        let member = PathMember(plan, path);
        let other = OtherPlace(plan, path);
        if ends_at_register(plan, path) {
            write!(f, "register's path: {member}{other}")
        } else {
            write!(f, "call: {member}{other}")
        }
    }
}

/// What a path leads to, with its member, as in `register REG 0` or `trunk OUTA 0`.
#[tactic(auto, unfolding(crate::specs::Ends::end_text))]
pub fn path_end(alloc: Global, plan: &Plan, path: &Path) -> Result<String, AllocError>
    ensures { IfOk result (λ text. string_bytes text ≡ end_text plan.now path.now) }
{
    let member = PathMember(plan, path);
    if ends_at_register(plan, path) {
        format!(in alloc; "register {member}")
    } else {
        format!(in alloc; "trunk {member}")
    }
}
