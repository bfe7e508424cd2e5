//! Settles an office.

ghost use Rattle.std.specs.Prelude.{◌≡◌, ◌<◌, ℕ, OnErr, OnOk, Some, length, slice_get, true};
ghost use Rattle.xbar_core.specs.Ends.{Settles};
ghost use Rattle.xbar_moves.specs.Exchange.{Marker, is_idle};
ghost use Rattle.xbar_moves.specs.Moves.{given_back};
ghost use Rattle.xbar_moves.specs.Settling.{ended_past_turn, for_each, settled};
ghost use Rattle.xbar_walk.specs.Observers.{ChangesAs};
ghost use Rattle.xbar_walk.specs.Parts.{after_part, walk_of_part};
ghost use Rattle.xbar_walk.specs.Walks.{walk_for_each, walk_of_end_past_turn, walk_of_give_back, walk_of_settling};

use crate::observer::Observer;
use std::alloc::AllocError;
use xbar_core::{Exchange, Given};

/// A part of settling, which one marker after another does.
#[derive(Clone, Copy)]
enum Part {
    /// The marker finishes its job if it is past its turn.
    EndPastTurn,
    /// The marker gives back all that it holds if it isn't past its turn.
    GiveBack,
    /// The marker finishes its job.
    End,
}

/// The most steps to the end of its job of a marker with no other in its way: two to withdraw and
/// to try again, 18 frees, and the 114 of the job anew.
const MOST_STEPS_ALONE: u32 = 134;

fn end_past_turn<O: Observer>(
    office: &mut Exchange<'_>,
    marker: u32,
    observer: &mut O,
) -> Result<(), AllocError>
    requires { marker < length office.old.exchange.markers }
    ensures office { OnOk result (office.new ≡ record office.old {
      exchange = ended_past_turn office.old.plan marker office.old.exchange;
    }) }
    ensures observed { OnOk result (ChangesAs O.Describes (walk_of_end_past_turn marker)
        office.old observer.old office.new observer.new) }
    ensures fails { OnErr result O.MayFail }
{
    if office.is_past_turn(marker) {
        observer.steps(office, marker, MOST_STEPS_ALONE)?;
        return Ok(());
    }
    Ok(())
}

/// Has the marker give back all that it holds, unless it is idle or past its turn.
fn give_back<O: Observer>(
    office: &mut Exchange<'_>,
    marker: u32,
    observer: &mut O,
) -> Result<(), AllocError>
    requires { marker < length office.old.exchange.markers }
    ensures office { OnOk result (office.new ≡ record office.old {
      exchange = given_back office.old.plan marker office.old.exchange;
    }) }
    ensures observed { OnOk result (ChangesAs O.Describes (walk_of_give_back marker)
        office.old observer.old office.new observer.new) }
    ensures fails { OnErr result O.MayFail }
{
    let Given::Given = office.given(marker) else {
        return Ok(());
    };
    let left = office.frees_left(marker);
    office.restart(marker);
    observer.steps(office, marker, left)?;
    Ok(())
}

fn do_part<O: Observer>(
    office: &mut Exchange<'_>,
    part: Part,
    marker: u32,
    observer: &mut O,
) -> Result<(), AllocError>
    requires { marker < length office.old.exchange.markers }
    ensures office { OnOk result (office.new ≡ record office.old {
      exchange = after_part part office.old.plan marker office.old.exchange;
    }) }
    ensures observed { OnOk result (ChangesAs O.Describes (walk_of_part part marker)
        office.old observer.old office.new observer.new) }
    ensures fails { OnErr result O.MayFail }
{
    match part {
        Part::EndPastTurn => end_past_turn(office, marker, observer),
        Part::GiveBack => give_back(office, marker, observer),
        Part::End => observer.steps(office, marker, MOST_STEPS_ALONE),
    }
}

/// Has every marker do this part, in the order of their numbers.
fn each<O: Observer>(
    office: &mut Exchange<'_>,
    part: Part,
    observer: &mut O,
) -> Result<(), AllocError>
    ensures office { OnOk result (office.new ≡ record office.old {
      exchange =
          for_each (after_part part office.old.plan) (length office.old.exchange.markers)
          office.old.exchange;
    }) }
    ensures observed { OnOk result (ChangesAs O.Describes
        (walk_for_each (walk_of_part part) (length office.old.exchange.markers))
        office.old observer.old office.new observer.new) }
    ensures fails { OnErr result O.MayFail }
{
    for marker in 0..office.marker_count() {
        do_part(office, part, marker, observer)?;
    }
    Ok(())
}

/// Brings every job to its end, in the order of the markers' numbers: first the markers past their
/// turn end their jobs, then all others give back, and then each of them does its job alone. If the
/// observer fails, the office may have settled in part.
pub fn settle<O: Observer>(office: &mut Exchange<'_>, observer: &mut O) -> Result<(), AllocError>
    ensures settled { OnOk result (office.new
        ≡ record office.old { exchange = settled office.old.plan office.old.exchange }) }
    ensures settles { OnOk result
        (Settles office.old.plan office.old.exchange office.new.exchange) }
    ensures idle { OnOk result ((k : ℕ) (m : Marker)
        → slice_get office.new.exchange.markers k ≡ Some m → is_idle m.work ≡ true) }
    ensures observed { OnOk result (ChangesAs O.Describes walk_of_settling
        office.old observer.old office.new observer.new) }
    ensures fails { OnErr result O.MayFail }
{
    // Called only for their contracts.
    xbar_plan::laws::every_plan_is_lawful(office.plan());
    office.words();
    xbar_core::laws::settling_ends_all_jobs();
    observer.settles()?;
    each(office, Part::EndPastTurn, observer)?;
    each(office, Part::GiveBack, observer)?;
    each(office, Part::End, observer)?;
    Ok(())
}
