//! The tables for looking up a plan, so that no look-up searches a list.

mod faults;
mod members;

ghost use Rattle.std.specs.Prelude.{IfOk};
ghost use Rattle.xbar_plan.specs.Lawful.{IsLawful};
ghost use Rattle.xbar_plan.specs.Directory.{IsDirectoryOf};
ghost use Rattle.xbar_plan.specs.TableSlices.{tables_of};

use crate::group::MemberPlace;
use crate::numbers::{first_places, link_number, place_number, route_codes, station_numbers};
use crate::table_slices::TableSlices;
use std::alloc::{AllocError, Global};
use std::marker::Model;
use xbar_equip::{DirNo, Link, Ten};

/// Look-up tables, each indexed by number: the index of the station of each directory number and
/// of the route of each code, the member at each trunk place, and whether each link is out of
/// order.
#[derive(Debug, Drop)]
pub struct Directory {
    stations: Vec<Option<u16>>,
    routes: Vec<Option<u16>>,
    members: Vec<Option<MemberPlace>>,
    faults: Vec<bool>,
}

impl Model for Directory {
    ghost use Rattle.xbar_plan.specs.Directory.{Directory as TheDirectory};

    ghost Value = { TheDirectory };

    ghost view = { λ a. record {
      stations = a.stations.items;
      routes = a.routes.items;
      members = a.members.items;
      faults = a.faults.items;
    } };
}

impl Directory {
    ghost use Rattle.std.specs.Prelude.{◌≡◌, ◌<◌, Some, length, slice_get};
    ghost use Rattle.xbar_plan.specs.Numbered.{place_number as number_of_place, link_number as number_of_link};

    /// The directory of lawful tables.
    pub fn new(alloc: Global, tables: &TableSlices) -> Result<Self, AllocError>
        requires { IsLawful (tables_of tables.now) }
        ensures { IfOk result (IsDirectoryOf (tables_of tables.now)) }
    {
        let numbers = station_numbers(alloc, tables.stations)?;
        let codes = route_codes(alloc, tables.routes)?;
        let stations = first_places(alloc, 10000, &numbers)?;
        let routes = first_places(alloc, 1000, &codes)?;
        let members = members::placed_members(alloc, tables.groups)?;
        let faults = faults::marked_links(alloc, tables.faults)?;
        Ok(Directory {
            stations,
            routes,
            members,
            faults,
        })
    }

    /// The index of the first station with this number.
    pub fn station_of(&self, number: DirNo) -> Option<u16>
        requires { number < length self.now.stations }
        ensures { slice_get self.now.stations number ≡ Some result }
    {
        self.stations[usize::from(number.number())]
    }

    /// The index of the first route with this code.
    pub fn route_of(&self, code: u16) -> Option<u16>
        requires { code < length self.now.routes }
        ensures { slice_get self.now.routes code ≡ Some result }
    {
        self.routes[usize::from(code)]
    }

    /// The first member at the place.
    pub fn member_at(&self, place: Ten) -> Option<MemberPlace>
        requires { number_of_place place < length self.now.members }
        ensures { slice_get self.now.members (number_of_place place) ≡ Some result }
    {
        self.members[usize::from(place_number(place))]
    }

    /// Whether the link is out of order.
    pub fn is_faulty(&self, link: Link) -> bool
        requires { number_of_link link < length self.now.faults }
        ensures { slice_get self.now.faults (number_of_link link) ≡ Some result }
    {
        self.faults[usize::from(link_number(link))]
    }
}
