ghost use Rattle.std.specs.Prelude.{◌≡◌};

use crate::group::Group;
use crate::route::Route;
use crate::station::Station;
use xbar_equip::Link;

/// The tables of a plan, or tables that are still to be checked.
#[derive(Drop)]
pub struct TableSlices<'a> {
    pub groups: &'a [Group],
    pub stations: &'a [Station],
    pub routes: &'a [Route],
    pub faults: &'a [Link],
}

impl<'a> TableSlices<'a> {
    pub fn new(
        groups: &'a [Group],
        stations: &'a [Station],
        routes: &'a [Route],
        faults: &'a [Link],
    ) -> Self
        ensures { result ≡ record {
          groups = groups.entry;
          stations = stations.entry;
          routes = routes.entry;
          faults = faults.entry;
        } }
    {
        TableSlices {
            groups,
            stations,
            routes,
            faults,
        }
    }
}
