ghost use Rattle.std.specs.Prelude.{◌≡◌};

use crate::gate::Gate;
use std::marker::Model;
use xbar_fabric::Watch;

/// The gate of a marker, with the number of steps that the marker has made, saturating at
/// `u64::MAX`. Contracts see how many steps the gate was notified of, if it counts them.
#[derive(Drop)]
pub struct CountedGate<G: Gate + Drop> {
    gate: G,
    marker: u32,
    steps: u64,
}

impl<G: Gate + Drop> Model for CountedGate<G> {
    ghost use Rattle.std.specs.Prelude.{ℕ, Option};

    ghost Value = { Option ℕ };

    ghost view = { λ c. G.passed c.gate };

    ghost invariant = { λ c. G.IsAt c.gate c.marker };
}

impl<G: Gate + Drop> CountedGate<G> {
    /// The gate of a marker that has made no step.
    pub fn new(gate: G, marker: u32) -> Self
        requires { G.IsAt gate marker }
    {
        CountedGate {
            gate,
            marker,
            steps: 0,
        }
    }

    /// Notifies the gate that a job is done.
    pub fn finish(&mut self, job_no: u32)
        ensures { self.new ≡ self.old }
    {
        self.gate.finished(self.marker, job_no);
    }
}

impl<G: Gate + Drop> Watch for CountedGate<G> {
    ghost steps_watched = { λ passed. passed };

    fn before_step(&mut self) {
        self.gate.pass(self.marker, self.steps);
        self.steps = self.steps.saturating_add(1);
    }
}
