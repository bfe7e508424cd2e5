//! The numbers by which a plan is looked up, and the first index of each number in a list.

ghost use Rattle.std.specs.Prelude.{◌≡◌, ◌≤◌, ◌<◌, ◌==◌, ℕ, false, None, IfOk, length, map, position, slice_index_or};
ghost use Rattle.xbar_equip.specs.Ten.{IsTrunkPlace};
ghost use Rattle.xbar_equip.specs.Link.{IsLink};
ghost use Rattle.xbar_plan.specs.Numbered.{place_number as number_of_place, link_number as number_of_link};

use crate::route::Route;
use crate::station::Station;
use std::alloc::{AllocError, Global};
use xbar_equip::{Link, LinkKind, Ten};

/// The number of a trunk place, below 1000. Distinct places have distinct numbers.
pub fn place_number(place: Ten) -> u16
    ensures number { result ≡ number_of_place place }
    ensures range { result < 1000 }
    ensures place { IsTrunkPlace place }
{
    // Called only for its contract.
    xbar_equip::laws::place_is_in_range(place);
    100 * u16::from(place.frame()) + 10 * u16::from(place.switch()) + u16::from(place.appearance())
}

/// The number of a link, below 3000. Distinct links have distinct numbers.
pub fn link_number(link: Link) -> u16
    ensures number { result ≡ number_of_link link }
    ensures range { result < 3000 }
    ensures link { IsLink link }
{
    // Called only for its contract.
    xbar_equip::laws::link_is_in_range(link);
    let before = match link.kind() {
        LinkKind::LineLink => 0,
        LinkKind::Junctor => 1000,
        LinkKind::TrunkLink => 2000,
    };
    before + (100 * u16::from(link.frame()) + 10 * u16::from(link.at()) + u16::from(link.channel()))
}

/// The directory number of each station.
pub fn station_numbers(alloc: Global, stations: &[Station]) -> Result<Vec<u16>, AllocError>
    ensures { IfOk result (λ numbers. numbers.items ≡
        map (λ station. station.number) stations.now) }
{
    stations
        .iter()
        .map(|station| station.number().number())
        .collect(alloc)
}

/// The code of each route.
pub fn route_codes(alloc: Global, routes: &[Route]) -> Result<Vec<u16>, AllocError>
    ensures { IfOk result (λ codes. codes.items ≡ map (λ route. route.code) routes.now) }
{
    routes.iter().map(|route| route.code()).collect(alloc)
}

/// A table of `count` entries, none of which is marked.
pub fn unmarked(alloc: Global, count: usize) -> Result<Vec<bool>, AllocError>
    ensures size { IfOk result (λ seen. length seen.items ≡ count) }
    ensures none { IfOk result (λ seen. (k : ℕ) → slice_index_or seen.items k false ≡ false) }
{
    Ok(vec![in alloc; false; count]?)
}

/// For each number below `count`, its first index in `numbers`, if any.
pub fn first_places(
    alloc: Global,
    count: usize,
    numbers: &[u16],
) -> Result<Vec<Option<u16>>, AllocError>
    requires { length numbers.now ≤ 65536 }
    ensures size { IfOk result (λ places. length places.items ≡ count) }
    ensures first { IfOk result (λ places. (k : ℕ) → k < count →
        slice_index_or places.items k None ≡ position (λ n. n == k) numbers.now) }
{
    let mut places = vec![in alloc; None; count]?;
    for place in 0..numbers.len() {
        let number = usize::from(numbers[place]);
        if number < count && places[number].is_none() {
            places[number] = Some(place as u16);
        }
    }
    Ok(places)
}
