ghost use Rattle.std.specs.Prelude.{◌≡◌, position};

use std::marker::Model;
use xbar_equip::Ten;

/// What the members of a trunk group are.
#[derive(Clone, Copy, Debug, PartialEq, Eq)]
pub enum GroupKind {
    /// Originating registers, which receive the dialled digits.
    Register,
    /// Trunks between two lines of this office, with a place for either side.
    Intra,
    /// Trunks to another office.
    Outgoing,
}

/// A member of a trunk group, by its trunk places.
#[derive(Clone, Copy, Debug, PartialEq, Eq)]
pub struct Member {
    /// The only place, or the calling side's.
    pub first: Ten,
    /// The called side's place, which only an intra trunk has.
    pub second: Option<Ten>,
}

impl Member {
    ghost use Rattle.xbar_plan.specs.Group.{stands_at as stands_at_place, other_place as other_place_of};

    /// Whether `place` is one of the member's places.
    pub fn stands_at(self, place: Ten) -> bool
        ensures { result ≡ stands_at_place self place }
    {
        self.first == place || self.second == Some(place)
    }

    /// Given one of the member's places, the other one, if there are two.
    pub fn other_place(self, place: Ten) -> Option<Ten>
        ensures { result ≡ other_place_of self place }
    {
        if self.first == place {
            self.second
        } else {
            Some(self.first)
        }
    }
}

/// The member of a plan that a trunk place belongs to.
#[derive(Clone, Copy, Debug, PartialEq, Eq)]
pub struct MemberPlace {
    /// The number of the member's group, counted from 0.
    pub group: u8,
    /// The member's index in the group, counted from 0.
    pub index: u8,
    /// The member's other place, if it has two.
    pub other: Option<Ten>,
}

/// A trunk group: its name, its kind, and its members in the order in which they are tried.
#[derive(Debug, Drop)]
pub struct Group {
    name: String,
    kind: GroupKind,
    members: Vec<Member>,
}

impl Model for Group {
    ghost use Rattle.std.specs.Prelude.{string_bytes};
    ghost use Rattle.xbar_plan.specs.Group.{TrunkGroup};

    ghost Value = { TrunkGroup };

    ghost view = { λ a. record {
      name = string_bytes a.name;
      kind = a.kind;
      members = a.members.items;
    } };
}

impl Group {
    ghost use Rattle.std.specs.Prelude.{string_bytes};
    ghost use Rattle.xbar_plan.specs.Group.{is_register as is_register_group, is_intra as is_intra_group, is_outgoing as is_outgoing_group, stands_at as stands_at_place};
    ghost use Rattle.xbar_plan.specs.Tables.{has_member_at as group_has_member_at};

    /// A group with this name and kind, and its members in the order in which they are tried.
    pub fn new(name: String, kind: GroupKind, members: Vec<Member>) -> Self
        ensures { result ≡ record {
          name = string_bytes name;
          kind = kind;
          members = members.items;
        } }
    {
        Group {
            name,
            kind,
            members,
        }
    }

    /// The name: 1 to 8 characters of `A` to `Z` and `0` to `9`, in a lawful plan.
    pub fn name(&self) -> &str
        ensures { result.now ≡ self.now.name }
    {
        self.name.as_str()
    }

    /// What the members are.
    pub fn kind(&self) -> GroupKind
        ensures { result ≡ self.now.kind }
    {
        self.kind
    }

    /// The members in order: member `i` is item `i` here, and bit `i` of the group's word.
    pub fn members(&self) -> &[Member]
        ensures { result.now ≡ self.now.members }
    {
        self.members.as_slice()
    }

    /// Whether the members are registers.
    pub fn is_register(&self) -> bool
        ensures { result ≡ is_register_group self.now }
    {
        matches!(self.kind, GroupKind::Register)
    }

    /// Whether the members are trunks between two lines of the office.
    pub fn is_intra(&self) -> bool
        ensures { result ≡ is_intra_group self.now }
    {
        matches!(self.kind, GroupKind::Intra)
    }

    /// Whether the members are trunks to another office.
    pub fn is_outgoing(&self) -> bool
        ensures { result ≡ is_outgoing_group self.now }
    {
        matches!(self.kind, GroupKind::Outgoing)
    }

    /// Whether a member of the group is at the place.
    pub fn has_member_at(&self, place: Ten) -> bool
        ensures { result ≡ group_has_member_at place self.now }
    {
        self.members.iter().any(|member| member.stands_at(place))
    }

    /// The index of the first member at the place, counted from 0.
    pub fn position_of(&self, place: Ten) -> Option<usize>
        ensures { result ≡ position (λ member. stands_at_place member place) self.now.members }
    {
        self.members
            .iter()
            .position(|member| member.stands_at(place))
    }
}
