//! Jobs done whole: each changes a set of paths and returns its reply.

ghost use Rattle.std.specs.Prelude.{◌≡◌, ◌<◌, length, IfOk, OnOk, OnErr};
ghost use Rattle.xbar_equip.specs.Dialled.{IsDialled};
ghost use Rattle.xbar_office.specs.Complete.{complete as complete_of};
ghost use Rattle.xbar_office.specs.Dial.{dial as dial_of};
ghost use Rattle.xbar_office.specs.LawfulSet.{IsLawfulSet};
ghost use Rattle.xbar_office.specs.Release.{release as release_of};

use crate::complete::call;
use crate::dial;
use crate::reply::{End, Reply};
use crate::sets::{add, insert, remove};
use crate::standing::{other_path, path_of, register_path};
use std::alloc::AllocError;
use xbar_equip::laws::line_is_in_range;
use xbar_equip::{Dialled, Len, Path};
use xbar_plan::Plan;
use xbar_plan::laws::every_plan_is_lawful;

/// Does a dial tone job: connects a line to a register.
pub fn dial(plan: &Plan, paths: &mut Vec<Path>, line: Len) -> Result<Reply, AllocError>
    ensures reply { IfOk result (λ reply. reply ≡ (dial_of plan.now paths.old.items line).reply) }
    ensures ok { OnOk result (paths.new.items ≡ (dial_of plan.now paths.old.items line).paths) }
    ensures err { OnErr result (paths.new.items ≡ paths.old.items) }
    ensures memory { OnErr result (length paths.old.items < length
        (dial_of plan.now paths.old.items line).paths) }
{
    line_is_in_range(line);
    every_plan_is_lawful(plan);
    let reply = dial::dial(plan, paths, line);
    add(paths, &reply.end.adds())?;
    Ok(reply)
}

/// Does a completing job: frees a line's register, and connects the line to what it dialled.
pub fn complete(
    plan: &Plan,
    paths: &mut Vec<Path>,
    line: Len,
    dialled: Dialled,
) -> Result<Reply, AllocError>
    requires { IsLawfulSet plan.now paths.old.items }
    ensures reply { IfOk result (λ reply. reply ≡
        (complete_of plan.now paths.old.items line dialled).reply) }
    ensures ok { OnOk result (paths.new.items ≡
        (complete_of plan.now paths.old.items line dialled).paths) }
    ensures err { OnErr result (paths.new.items ≡ paths.old.items) }
    ensures memory { OnErr result (length paths.old.items < length
        (complete_of plan.now paths.old.items line dialled).paths) }
{
    line_is_in_range(line);
    every_plan_is_lawful(plan);
    let Some(own) = register_path(plan, paths, line) else {
        return Ok(Reply::plain(End::NoRegister));
    };
    remove(paths, &own);
    let reply = call(plan, paths, line, dialled);
    if let Err(error) = add(paths, &reply.end.adds()) {
        insert(paths, &own);
        return Err(error);
    }
    Ok(reply)
}

/// Does a release job: removes the paths of a line's call.
pub fn release(plan: &Plan, paths: &mut Vec<Path>, line: Len) -> Reply
    ensures reply { result ≡ (release_of plan.now paths.old.items line).reply }
    ensures paths { paths.new.items ≡ (release_of plan.now paths.old.items line).paths }
{
    let Some(own) = path_of(paths, line) else {
        return Reply::plain(End::NoCall);
    };
    let other = other_path(plan, paths, &own);
    remove(paths, &own);
    if let Some(other) = &other {
        remove(paths, other);
    }
    Reply::plain(End::Released { own, other })
}
