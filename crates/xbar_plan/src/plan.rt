ghost use Rattle.std.specs.Prelude.{◌≡◌, ◌<◌, ◌≤◌, IfOk, IfSome, option_copied, length, position};
ghost use Rattle.xbar_plan.specs.Group.{is_register};

use crate::directory::Directory;
use crate::fault::PlanFault;
use crate::group::{Group, MemberPlace};
use crate::route::Route;
use crate::station::Station;
use crate::table_fault::TableFault;
use crate::table_slices::TableSlices;
use crate::{example, lawful};
use std::alloc::{AllocError, Global};
use std::marker::Model;
use xbar_equip::{DirNo, Len, Link, Ten};

/// The plan of an office. Its tables are always lawful.
#[derive(Debug, Drop)]
pub struct Plan {
    groups: Vec<Group>,
    stations: Vec<Station>,
    routes: Vec<Route>,
    faults: Vec<Link>,
    directory: Directory,
}

impl Model for Plan {
    ghost use Rattle.xbar_plan.specs.Tables.{Tables};
    ghost use Rattle.xbar_plan.specs.Directory.{IsDirectoryInvariant};

    ghost Value = { Tables };

    ghost view = { λ a. record {
      groups = a.groups.items;
      stations = a.stations.items;
      routes = a.routes.items;
      faults = a.faults.items;
    } };

    ghost invariant = { λ a. IsDirectoryInvariant
        (record {
          groups = a.groups.items;
          stations = a.stations.items;
          routes = a.routes.items;
          faults = a.faults.items;
        }) a.directory };
}

impl Plan {
    ghost use Rattle.std.specs.Prelude.{slice_get, Some};
    ghost use Rattle.xbar_plan.specs.Tables.{AreGroups, Tables, lines_of, route_of, register_group as register_group_of, is_faulty, member_place};
    ghost use Rattle.xbar_plan.specs.TableSlices.{tables_of};
    ghost use Rattle.xbar_plan.specs.Lawful.{IsLawful, IsPlanOf};
    ghost use Rattle.xbar_plan.specs.TableFault.{IsCheckedPlan};
    ghost use Rattle.xbar_plan.specs.Example.{example as the_example};

    /// Makes a plan from tables that are known to be lawful.
    pub fn new(
        alloc: Global,
        groups: Vec<Group>,
        stations: Vec<Station>,
        routes: Vec<Route>,
        faults: Vec<Link>,
    ) -> Result<Self, AllocError>
        requires { IsLawful (record {
          groups = groups.items;
          stations = stations.items;
          routes = routes.items;
          faults = faults.items;
        }) }
        ensures { IfOk result (λ plan. plan ≡ record {
          groups = groups.items;
          stations = stations.items;
          routes = routes.items;
          faults = faults.items;
        }) }
    {
        let tables = TableSlices::new(&groups, &stations, &routes, &faults);
        let directory = Directory::new(alloc, &tables)?;
        Ok(Plan {
            groups,
            stations,
            routes,
            faults,
            directory,
        })
    }

    /// Makes a plan from tables, or returns their first fault. `Memory` may be returned instead of
    /// either.
    pub fn try_new(
        alloc: Global,
        groups: Vec<Group>,
        stations: Vec<Station>,
        routes: Vec<Route>,
        faults: Vec<Link>,
    ) -> Result<Self, PlanFault>
        ensures { IsPlanOf (record {
          groups = groups.items;
          stations = stations.items;
          routes = routes.items;
          faults = faults.items;
        }) result }
    {
        match Plan::checked(alloc, groups, stations, routes, faults) {
            Ok(plan) => Ok(plan),
            Err(wrong) => Err(wrong.fault()),
        }
    }

    /// Makes a plan from tables, or returns their first fault with its place. `Memory` may be
    /// returned instead of either.
    pub fn checked(
        alloc: Global,
        groups: Vec<Group>,
        stations: Vec<Station>,
        routes: Vec<Route>,
        faults: Vec<Link>,
    ) -> Result<Self, TableFault>
        ensures { IsCheckedPlan (record {
          groups = groups.items;
          stations = stations.items;
          routes = routes.items;
          faults = faults.items;
        }) result }
    {
        lawful::check(
            alloc,
            &TableSlices::new(&groups, &stations, &routes, &faults),
        )?;
        Ok(Plan::new(alloc, groups, stations, routes, faults)?)
    }

    /// A small plan with groups of each kind: registers 417, 418 and 509, two intra trunks, and
    /// two outgoing groups.
    #[tactic(auto, unfolding(crate::specs::Lawful::fault_in))]
    pub fn example(alloc: Global) -> Result<Self, AllocError>
        ensures { IfOk result (λ plan. plan ≡ the_example) }
    {
        let groups = example::groups(alloc)?;
        let stations = example::stations(alloc)?;
        let routes = example::routes(alloc)?;
        Ok(Plan::new(alloc, groups, stations, routes, Vec::new(alloc))?)
    }

    /// The plan's tables, which are lawful.
    pub fn tables(&self) -> TableSlices<'_>
        ensures tables { tables_of result ≡ self.now }
        ensures lawful { IsLawful (tables_of result) }
    {
        TableSlices::new(&self.groups, &self.stations, &self.routes, &self.faults)
    }

    /// The number of groups, 1 to 16.
    pub fn group_count(&self) -> u8
        ensures count { result ≡ length self.now.groups }
        ensures lawful { IsLawful self.now }
    {
        self.groups.len() as u8
    }

    /// The group with this number, counted from 0.
    pub fn group(&self, number: u8) -> &Group
        requires { number < length self.now.groups }
        ensures group { slice_get self.now.groups number ≡ Some result.now }
        ensures members { (0 < length result.now.members) × (length result.now.members ≤ 40) }
        ensures lawful { IsLawful self.now }
    {
        &self.groups[number as usize]
    }

    /// The number of the only register group.
    pub fn register_group(&self) -> u8
        ensures group { result ≡ register_group_of self.now }
        ensures range { result < 16 }
        ensures there { result < length self.now.groups }
        ensures lawful { IsLawful self.now }
    {
        register_position(&self.groups).unwrap_or(0) as u8
    }

    /// The member at a trunk place, with its other place, or `None` if there is no member.
    pub fn member_of(&self, place: Ten) -> Option<MemberPlace>
        ensures member { result ≡ member_place self.now place }
        ensures range { IfSome result (λ found. (found.group < 16) × (found.index < 40)) }
        ensures lawful { IsLawful self.now }
    {
        // Called only for its contract.
        xbar_equip::laws::place_is_in_range(place);
        self.directory.member_at(place)
    }

    /// The numbers of the groups that a code leads to, in the order in which they are tried.
    /// `None` if the code is not in use.
    pub fn route(&self, code: u16) -> Option<&[u8]>
        ensures route { option_copied result ≡ route_of self.now code }
        ensures groups { IfSome result (λ groups. AreGroups self.now groups.now) }
        ensures lawful { IsLawful self.now }
    {
        let directory = &self.directory;
        if code >= 1000 {
            return None;
        }
        let place = directory.route_of(code)?;
        Some(self.routes[usize::from(place)].groups())
    }

    /// The lines of a directory number, 1 to 10, in the order in which they are hunted. `None` if
    /// the number is not in use.
    pub fn stations(&self, number: DirNo) -> Option<&[Len]>
        ensures lines { option_copied result ≡ lines_of self.now number }
        ensures lawful { IsLawful self.now }
    {
        // Called only for the range that its contract states.
        let _number = number.number();
        let place = self.directory.station_of(number)?;
        Some(self.stations[usize::from(place)].lines())
    }

    /// Whether the link is out of order.
    pub fn faulty(&self, link: Link) -> bool
        ensures faulty { result ≡ is_faulty self.now link }
        ensures lawful { IsLawful self.now }
    {
        // Called only for its contract.
        xbar_equip::laws::link_is_in_range(link);
        self.directory.is_faulty(link)
    }
}

/// The index of the first register group.
fn register_position(groups: &[Group]) -> Option<usize>
    ensures { result ≡ position is_register groups.now }
{
    groups.iter().position(|group| group.is_register())
}
