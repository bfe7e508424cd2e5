ghost use Rattle.std.specs.Prelude.{◌≡◌};
ghost use Rattle.xbar_fabric.specs.Meetings.{MarkersHaveMet};
ghost use Rattle.xbar_fabric.specs.Views.{IsDeskOf};

use crate::desk::Desk;
use crate::fabric::Fabric;

/// Has two desks meet, by one load of the turn word: both have then seen what either had seen, and
/// all turns so far.
pub fn meet(fabric: &Fabric, one: &mut Desk, other: &mut Desk)
    requires one { IsDeskOf one.old fabric.now }
    requires other { IsDeskOf other.old fabric.now }
    ensures one { one.new ≡ record (one.old) { seen = one.new.seen } }
    ensures other { other.new ≡ record (other.old) { seen = other.new.seen } }
    ensures met { MarkersHaveMet one.old other.old one.new other.new }
{
    desks::meet(&fabric.room, fabric.plan, &mut one.desk, &mut other.desk);
}
