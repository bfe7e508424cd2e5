//! Which members of a trunk group are idle, and which of them a job takes.

ghost use Rattle.std.specs.Prelude.{◌≡◌, ◌<◌, length, IfSome};
ghost use Rattle.xbar_office.specs.Members.{is_member_idle as is_idle_member, is_idle_at as is_member_idle_at, first_idle as first_idle_of, next_idle as next_idle_of};

use crate::sets::is_place_idle;
use xbar_equip::Path;
use xbar_plan::Member;

/// Whether each place of the member is idle.
pub fn is_member_idle(paths: &[Path], member: &Member) -> bool
    ensures { result ≡ is_idle_member paths.now member.now }
{
    match member.second {
        None => is_place_idle(paths, member.first),
        Some(second) => is_place_idle(paths, member.first) && is_place_idle(paths, second),
    }
}

/// Whether the member at the index is idle.
fn is_idle_at(paths: &[Path], members: &[Member], index: usize) -> bool
    requires { index < length members.now }
    ensures { result ≡ is_member_idle_at paths.now members.now index }
{
    is_member_idle(paths, &members[index])
}

/// The index of the first idle member.
pub fn first_idle(paths: &[Path], members: &[Member]) -> Option<usize>
    ensures first { result ≡ first_idle_of paths.now members.now }
    ensures bound { IfSome result (λ index. index < length members.now) }
{
    for index in 0..members.len() {
        if is_idle_at(paths, members, index) {
            return Some(index);
        }
    }
    None
}

/// The index of the first idle member after `index`, or `index` itself if there is none.
pub fn next_idle(paths: &[Path], members: &[Member], index: usize) -> usize
    requires { index < length members.now }
    ensures next { result ≡ next_idle_of paths.now members.now index }
    ensures bound { result < length members.now }
{
    for next in index + 1..members.len() {
        if is_idle_at(paths, members, next) {
            return next;
        }
    }
    index
}
