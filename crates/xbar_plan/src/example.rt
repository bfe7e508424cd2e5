//! The tables of the example plan.

ghost use Rattle.std.specs.Prelude.{◌≡◌, ◌<◌, ◌++◌, [], ◌∷◌, IfOk, OnOk};
ghost use Rattle.xbar_plan.specs.Example.{place, single as single_at, pair as pair_at, station as station_with, example_groups, example_stations, example_routes};

use crate::group::{Group, GroupKind, Member};
use crate::route::Route;
use crate::station::Station;
use std::alloc::{AllocError, Global};
use xbar_equip::{DirNo, Len, Ten};

/// A member with one place.
fn single(first: Ten) -> Member
    ensures { result ≡ single_at first }
{
    Member {
        first,
        second: None,
    }
}

/// An intra member, by its calling side's place and its called side's.
fn pair(first: Ten, second: Ten) -> Member
    ensures { result ≡ pair_at first second }
{
    Member {
        first,
        second: Some(second),
    }
}

fn add_group(
    alloc: Global,
    groups: &mut Vec<Group>,
    name: &str,
    kind: GroupKind,
    members: &[Member],
) -> Result<(), AllocError>
    ensures { OnOk result (groups.new.items ≡ groups.old.items ++ record {
      name = name.now;
      kind = kind;
      members = members.now;
    } ∷ []) }
{
    let name = String::from_str(alloc, name)?;
    Ok(groups.push(Group::new(name, kind, members.to_vec(alloc)?))?)
}

pub fn groups(alloc: Global) -> Result<Vec<Group>, AllocError>
    ensures { IfOk result (λ groups. groups.items ≡ example_groups) }
{
    let mut groups = Vec::new(alloc);
    add_group(
        alloc,
        &mut groups,
        "REG",
        GroupKind::Register,
        &[
            single(Ten::new(4, 1, 7)),
            single(Ten::new(4, 1, 8)),
            single(Ten::new(5, 0, 9)),
        ],
    )?;
    add_group(
        alloc,
        &mut groups,
        "INTRA",
        GroupKind::Intra,
        &[
            pair(Ten::new(6, 0, 0), Ten::new(6, 0, 1)),
            pair(Ten::new(7, 0, 0), Ten::new(7, 1, 1)),
        ],
    )?;
    let out_first = [single(Ten::new(8, 0, 0))];
    add_group(alloc, &mut groups, "OUTA", GroupKind::Outgoing, &out_first)?;
    let out_second = [single(Ten::new(8, 0, 1)), single(Ten::new(9, 0, 2))];
    add_group(alloc, &mut groups, "OUTB", GroupKind::Outgoing, &out_second)?;
    Ok(groups)
}

fn add_station(
    alloc: Global,
    stations: &mut Vec<Station>,
    number: DirNo,
    line: Len,
) -> Result<(), AllocError>
    ensures { OnOk result (stations.new.items ≡ stations.old.items ++
        station_with number line ∷ []) }
{
    Ok(stations.push(Station::new(number, vec![in alloc; line]?))?)
}

pub fn stations(alloc: Global) -> Result<Vec<Station>, AllocError>
    ensures { IfOk result (λ stations. stations.items ≡ example_stations) }
{
    let mut stations = Vec::new(alloc);
    add_station(alloc, &mut stations, DirNo::new(1), Len::new(3, 0, 21))?;
    add_station(alloc, &mut stations, DirNo::new(2), Len::new(3, 0, 27))?;
    add_station(alloc, &mut stations, DirNo::new(3), Len::new(1, 0, 0))?;
    add_station(alloc, &mut stations, DirNo::new(4), Len::new(3, 1, 0))?;
    Ok(stations)
}

fn add_route(
    alloc: Global,
    routes: &mut Vec<Route>,
    code: u16,
    groups: &[u8],
) -> Result<(), AllocError>
    ensures { OnOk result (routes.new.items ≡ routes.old.items ++ record {
      code = code;
      groups = groups.now;
    } ∷ []) }
{
    Ok(routes.push(Route::new(code, groups.to_vec(alloc)?))?)
}

pub fn routes(alloc: Global) -> Result<Vec<Route>, AllocError>
    ensures { IfOk result (λ routes. routes.items ≡ example_routes) }
{
    let mut routes = Vec::new(alloc);
    add_route(alloc, &mut routes, 234, &[1])?;
    add_route(alloc, &mut routes, 555, &[2, 3])?;
    Ok(routes)
}
