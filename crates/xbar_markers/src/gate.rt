/// Notified of a marker's steps and jobs, by the thread that makes them. It may wait.
pub trait Gate {
    ghost use Rattle.std.specs.Prelude.{◌≡◌, ℕ, Option, None, ⊤};
    ghost use Rattle.desks.specs.Watching.{watched_more};

    // Whether the gate is for the marker of this number.
    ghost IsAt: { Self → ℕ → Type 0 } = { λ _ _. ⊤ };

    // The number of steps that the gate was notified of, if it counts them.
    ghost passed: { Self → Option ℕ } = { λ _. None };

    /// Called before each step. `step` is the number of steps that the marker has made before,
    /// saturating at `u64::MAX`.
    fn pass(&mut self, marker: u32, step: u64)
        requires marker { IsAt self.old marker }
        ensures marker { IsAt self.new marker }
        ensures counted { passed self.new ≡ watched_more 1 (passed self.old) };

    /// Called after each job.
    fn finished(&mut self, marker: u32, job_no: u32)
        requires marker { IsAt self.old marker }
        ensures marker { IsAt self.new marker }
        ensures counted { passed self.new ≡ passed self.old };
}

/// A gate that does nothing.
#[derive(Clone, Copy)]
pub struct OpenGate;

impl Gate for OpenGate {
    fn pass(&mut self, _marker: u32, _step: u64) {}

    fn finished(&mut self, _marker: u32, _job_no: u32) {}
}
