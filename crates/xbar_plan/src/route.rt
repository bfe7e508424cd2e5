ghost use Rattle.std.specs.Prelude.{◌≡◌};

use std::marker::Model;

/// An office code, the first three digits that are dialled, and the groups that it leads to.
#[derive(Debug, Drop)]
pub struct Route {
    code: u16,
    groups: Vec<u8>,
}

impl Model for Route {
    ghost use Rattle.xbar_plan.specs.Tables.{Route as TheRoute};

    ghost Value = { TheRoute };

    ghost view = { λ a. record { code = a.code; groups = a.groups.items } };
}

impl Route {
    /// A route from a code to groups, by their numbers, in the order in which they are tried.
    pub fn new(code: u16, groups: Vec<u8>) -> Self
        ensures { result ≡ record { code = code; groups = groups.items } }
    {
        Route { code, groups }
    }

    /// The code as a number, 0 to 999 in a lawful plan.
    pub fn code(&self) -> u16
        ensures { result ≡ self.now.code }
    {
        self.code
    }

    /// The numbers of the groups, counted from 0, in the order in which they are tried. A lawful
    /// plan has 1 to 4 for each code.
    pub fn groups(&self) -> &[u8]
        ensures { result.now ≡ self.now.groups }
    {
        self.groups.as_slice()
    }
}
