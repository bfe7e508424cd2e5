//! Laws of looks and replays. Each function does nothing: its contract is the law.

ghost use Rattle.std.specs.Prelude.{◌≡◌, List, None};
ghost use Rattle.xbar_plan.specs.Tables.{Tables};
ghost use Rattle.xbar_moves.specs.Exchange.{Exchange};
ghost use Rattle.xbar_moves.specs.Settling.{settled};
ghost use Rattle.xbar_moves.specs.declared.kinds.Kind.{Kind};
ghost use Rattle.xbar_traffic.specs.declared.row.Row.{Row};
ghost use Rattle.crossbar5.specs.Look.{AreIdle};
ghost use Rattle.crossbar5.specs.Run.{Leaves, outcome, reached};

/// Rows after which every marker is idle leave nothing to settle: their replay leaves the very
/// office that a look at them shows, with its records and its words.
pub fn a_look_at_idle_markers_shows_the_replay()
    ensures settled { (plan : Tables) (e : Exchange) → AreIdle e → settled plan e ≡ e }
    ensures replayed { (plan : Tables) (kinds : List Kind) (rows : List Row) (e : Exchange)
        → reached plan kinds rows None ≡ Leaves e → AreIdle e
        → outcome plan kinds rows None ≡ Leaves e }
{}
