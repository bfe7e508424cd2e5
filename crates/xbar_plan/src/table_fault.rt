//! Why tables are no plan, and in which of them.

ghost use Rattle.std.specs.Prelude.{◌≡◌};
ghost use Rattle.xbar_plan.specs.declared.table_fault.TableFault.TheVariants.{Memory};

use crate::fault::PlanFault;
use std::alloc::AllocError;
use xbar_equip::Ten;

/// An item of a list that repeats an earlier one. Both are counted from 0.
#[derive(Clone, Copy, Debug, PartialEq, Eq)]
pub struct Repeat {
    pub item: usize,
    pub earlier: usize,
}

/// A fault of tables, and where it was found. Items of lists are counted from 0, and so are the
/// groups of a code.
#[derive(Clone, Copy, Debug, PartialEq, Eq)]
pub enum TableFault {
    /// The item contains what no text of a plan could express.
    Malformed {
        list: PlanList,
        item: usize,
    },
    /// The list has this many items, which is more than it may have.
    TooManyItems {
        list: PlanList,
        count: usize,
    },
    /// The group, number or code has this many members, lines or groups: none or too many.
    PartCount {
        list: PlanList,
        item: usize,
        count: usize,
    },
    /// Two groups have the same name.
    GroupTwice(Repeat),
    NoRegisterGroup,
    /// The first two register groups.
    RegisterGroupTwice(Repeat),
    /// The place occurs twice, in one group or in two.
    PlaceTwice(Repeat, Ten),
    /// The group has a pair with these places, which are on different trunk link frames.
    PairApart {
        item: usize,
        first: Ten,
        second: Ten,
    },
    NumberTwice(Repeat),
    CodeTwice(Repeat),
    /// This group of the code doesn't exist.
    UnknownGroup {
        item: usize,
        group: usize,
    },
    /// This group of the code has registers.
    RouteToRegisters {
        item: usize,
        group: usize,
    },
    /// One of these groups of the code is intra and the other is outgoing.
    MixedRoute {
        item: usize,
        intra: usize,
        outgoing: usize,
    },
    /// Memory ran out, and the rest of the tables was not checked.
    Memory,
}

impl TableFault {
    ghost use Rattle.xbar_plan.specs.TableFault.{fault_of};

    /// The fault without its place.
    pub fn fault(&self) -> PlanFault
        ensures { result ≡ fault_of self.now }
    {
        match self {
            TableFault::Malformed { .. } => PlanFault::Malformed,
            TableFault::TooManyItems { .. } | TableFault::PartCount { .. } => PlanFault::Limit,
            TableFault::GroupTwice(_) => PlanFault::GroupTwice,
            TableFault::NoRegisterGroup | TableFault::RegisterGroupTwice(_) => {
                PlanFault::RegisterGroups
            }
            TableFault::PlaceTwice(..) => PlanFault::PlaceTwice,
            TableFault::PairApart { .. } => PlanFault::PairApart,
            TableFault::NumberTwice(_) => PlanFault::NumberTwice,
            TableFault::CodeTwice(_) => PlanFault::CodeTwice,
            TableFault::UnknownGroup { .. } => PlanFault::UnknownGroup,
            TableFault::RouteToRegisters { .. } | TableFault::MixedRoute { .. } => {
                PlanFault::MixedRoute
            }
            TableFault::Memory => PlanFault::Memory,
        }
    }

    /// The list with the fault, and its item, if the list is not at fault as a whole.
    pub fn place(&self) -> (PlanList, Option<usize>) {
        match self {
            TableFault::TooManyItems { list, .. } => (*list, None),
            TableFault::Malformed { list, item } | TableFault::PartCount { list, item, .. } => {
                (*list, Some(*item))
            }
            TableFault::NoRegisterGroup | TableFault::Memory => (PlanList::Groups, None),
            TableFault::GroupTwice(Repeat { item, .. })
            | TableFault::RegisterGroupTwice(Repeat { item, .. })
            | TableFault::PlaceTwice(Repeat { item, .. }, _)
            | TableFault::PairApart { item, .. } => (PlanList::Groups, Some(*item)),
            TableFault::NumberTwice(Repeat { item, .. }) => (PlanList::Numbers, Some(*item)),
            TableFault::CodeTwice(Repeat { item, .. })
            | TableFault::UnknownGroup { item, .. }
            | TableFault::RouteToRegisters { item, .. }
            | TableFault::MixedRoute { item, .. } => (PlanList::Codes, Some(*item)),
        }
    }
}

impl From<AllocError> for TableFault {
    ghost from_gives = { λ _ fault. fault ≡ Memory };

    fn from(_error: AllocError) -> Self {
        TableFault::Memory
    }
}

/// The four lists of a plan, in the order in which they are checked.
#[derive(Clone, Copy, Debug, PartialEq, Eq)]
pub enum PlanList {
    Groups,
    Numbers,
    Codes,
    Faults,
}

impl PlanList {
    ghost use Rattle.xbar_plan.specs.TableFault.{key_of};

    /// The key of the list in a plan's document.
    pub fn key(self) -> &'static str
        ensures { result.now ≡ key_of self }
    {
        match self {
            PlanList::Groups => "groups",
            PlanList::Numbers => "numbers",
            PlanList::Codes => "codes",
            PlanList::Faults => "faults",
        }
    }
}
