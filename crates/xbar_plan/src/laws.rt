//! Laws of lawful plans, for use by other crates. Each function does nothing; its contract is the
//! law.

ghost use Rattle.std.specs.Prelude.{◌↔◌, None, ◌≡◌, ◌≢◌, ◌<◌, ◌≤◌, ◌⊎◌, ℕ, List, true, Option, Some, is_some, slice_get, length};
ghost use Rattle.xbar_equip.specs.Len.{Line, IsLine};
ghost use Rattle.xbar_equip.specs.Ten.{TrunkPlace, IsTrunkPlace};
ghost use Rattle.xbar_equip.specs.Link.{Link, IsLink};
ghost use Rattle.xbar_plan.specs.Group.{TrunkGroup, stands_at, other_place, is_register, is_intra, is_outgoing};
ghost use Rattle.xbar_plan.specs.Tables.{Tables, member_at, register_group, lines_of, route_of, is_faulty, member_place, IsMemberPlace};
ghost use Rattle.xbar_plan.specs.Lawful.{IsLawful, LeadsOnlyTo, fault_in};
ghost use Rattle.xbar_plan.specs.declared.group.Member.{Member};
ghost use Rattle.xbar_plan.specs.declared.group.MemberPlace.{MemberPlace};

use crate::plan::Plan;

/// The tables of every plan are lawful, so the laws of lawful tables hold of them.
pub fn every_plan_is_lawful(plan: &Plan)
    ensures { IsLawful plan.now }
{
    let _count = plan.group_count();
}

/// There are 1 to 16 groups of 1 to 40 members.
pub fn groups_have_members()
    ensures groups { (plan : Tables) → IsLawful plan →
        (0 < length plan.groups) × (length plan.groups ≤ 16) }
    ensures members { (plan : Tables) → IsLawful plan → (number : ℕ) (group : TrunkGroup) →
        slice_get plan.groups number ≡ Some group →
        (0 < length group.members) × (length group.members ≤ 40) }
    ensures numbers { (plan : Tables) → IsLawful plan → (number index : ℕ) (member : Member) →
        member_at plan number index ≡ Some member → (number < 16) × (index < 40) }
{}

/// The places of members are in range.
pub fn places_are_in_range()
    ensures { (plan : Tables) → IsLawful plan → (number index : ℕ) (member : Member) →
        member_at plan number index ≡ Some member → (place : TrunkPlace) →
        stands_at member place ≡ true → IsTrunkPlace place }
{}

/// Two members at the same place are the same member.
pub fn one_member_stands_at_a_place()
    ensures { (plan : Tables) → IsLawful plan →
        (number index number' index' : ℕ) (member member' : Member) (place : TrunkPlace) →
        member_at plan number index ≡ Some member → member_at plan number' index' ≡ Some member' →
        stands_at member place ≡ true → stands_at member' place ≡ true →
        (number ≡ number') × (index ≡ index') }
{}

/// Intra members, and no others, have two places, which are distinct and on the same trunk link
/// frame.
pub fn intra_members_are_pairs()
    ensures intra { (plan : Tables) → IsLawful plan →
        (number index : ℕ) (group : TrunkGroup) (member : Member) →
        slice_get plan.groups number ≡ Some group → member_at plan number index ≡ Some member →
        is_some member.second ≡ is_intra group }
    ensures frame { (plan : Tables) → IsLawful plan →
        (number index : ℕ) (member : Member) (second : TrunkPlace) →
        member_at plan number index ≡ Some member → member.second ≡ Some second →
        second.frame ≡ member.first.frame }
    ensures apart { (plan : Tables) → IsLawful plan →
        (number index : ℕ) (member : Member) (second : TrunkPlace) →
        member_at plan number index ≡ Some member → member.second ≡ Some second →
        second ≢ member.first }
{}

/// Each place of a pair has the other as its other place. The place of a single member has none.
pub fn places_of_a_pair_see_each_other()
    ensures paired { (plan : Tables) → IsLawful plan →
        (number index : ℕ) (member : Member) (place : TrunkPlace) →
        member_at plan number index ≡ Some member → stands_at member place ≡ true →
        is_some (other_place member place) ≡ is_some member.second }
    ensures stands { (plan : Tables) → IsLawful plan →
        (number index : ℕ) (member : Member) (place other : TrunkPlace) →
        member_at plan number index ≡ Some member → stands_at member place ≡ true →
        other_place member place ≡ Some other → stands_at member other ≡ true }
    ensures apart { (plan : Tables) → IsLawful plan →
        (number index : ℕ) (member : Member) (place other : TrunkPlace) →
        member_at plan number index ≡ Some member → stands_at member place ≡ true →
        other_place member place ≡ Some other → other ≢ place }
    ensures frame { (plan : Tables) → IsLawful plan →
        (number index : ℕ) (member : Member) (place other : TrunkPlace) →
        member_at plan number index ≡ Some member → stands_at member place ≡ true →
        other_place member place ≡ Some other → other.frame ≡ place.frame }
    ensures back { (plan : Tables) → IsLawful plan →
        (number index : ℕ) (member : Member) (place other : TrunkPlace) →
        member_at plan number index ≡ Some member → stands_at member place ≡ true →
        other_place member place ≡ Some other → other_place member other ≡ Some place }
{}

/// `member_of` returns a member at the place, and `None` only if no member is there.
pub fn member_places_are_of_members()
    ensures { (plan : Tables) (place : TrunkPlace) →
        IsMemberPlace plan place (member_place plan place) }
{}

/// In a lawful plan, what `member_of` returns is in range: the group, the member and its places.
pub fn member_places_are_in_range()
    ensures numbers { (plan : Tables) → IsLawful plan → (place : TrunkPlace) (found : MemberPlace) →
        member_place plan place ≡ Some found → (found.group < 16) × (found.index < 40) }
    ensures place { (plan : Tables) → IsLawful plan → (place : TrunkPlace) (found : MemberPlace) →
        member_place plan place ≡ Some found → IsTrunkPlace place }
    ensures other { (plan : Tables) → IsLawful plan →
        (place other : TrunkPlace) (found : MemberPlace) → member_place plan place ≡ Some found →
        found.other ≡ Some other → IsTrunkPlace other }
{}

/// In a lawful plan there is only one right answer to which member is at a place.
pub fn one_answer_fits_a_place()
    ensures { (plan : Tables) → IsLawful plan →
        (place : TrunkPlace) (found found' : Option MemberPlace) → IsMemberPlace plan place found →
        IsMemberPlace plan place found' → found ≡ found' }
{}

/// The register group exists, and it is the only group of registers.
pub fn one_group_has_registers()
    ensures there { (plan : Tables) → IsLawful plan →
        (group : TrunkGroup) × (slice_get plan.groups (register_group plan) ≡ Some group) ×
        (is_register group ≡ true) }
    ensures only { (plan : Tables) → IsLawful plan → (number : ℕ) (group : TrunkGroup) →
        slice_get plan.groups number ≡ Some group → is_register group ≡ true →
        number ≡ register_group plan }
{}

/// A directory number that is in use has 1 to 10 lines, which are in range.
pub fn numbers_have_lines()
    ensures count { (plan : Tables) → IsLawful plan → (number : ℕ) (lines : List Line) →
        lines_of plan number ≡ Some lines → (0 < length lines) × (length lines ≤ 10) }
    ensures range { (plan : Tables) → IsLawful plan → (number : ℕ) (lines : List Line) →
        lines_of plan number ≡ Some lines → (k : ℕ) (line : Line) → slice_get lines k ≡ Some line →
        IsLine line }
{}

/// A code that is in use leads to 1 to 4 groups that exist, all intra or all outgoing.
pub fn codes_lead_to_trunks()
    ensures count { (plan : Tables) → IsLawful plan → (code : ℕ) (groups : List ℕ) →
        route_of plan code ≡ Some groups → (0 < length groups) × (length groups ≤ 4) }
    ensures range { (plan : Tables) → IsLawful plan → (code : ℕ) (groups : List ℕ) →
        route_of plan code ≡ Some groups → (k number : ℕ) → slice_get groups k ≡ Some number →
        number < length plan.groups }
    ensures kind { (plan : Tables) → IsLawful plan → (code : ℕ) (groups : List ℕ) →
        route_of plan code ≡ Some groups → LeadsOnlyTo is_intra plan groups ⊎
        LeadsOnlyTo is_outgoing plan groups }
{}

/// The links that are listed as out of order are in range.
pub fn faults_are_links()
    ensures { (plan : Tables) → IsLawful plan → (link : Link) → is_faulty plan link ≡ true →
        IsLink link }
{}

/// Tables are lawful exactly if no check finds a fault.
pub fn lawful_tables_have_no_fault()
    ensures { (plan : Tables) → IsLawful plan ↔ (fault_in plan ≡ None) }
{}
