//! The statuses of answers to calls for which no task is done. Those of tasks are the engine's.

/// No task has the number.
pub const NO_SUCH_TASK: u32 = 1;

/// The task has markers, and the letters of their kinds are refused.
pub const MARKERS_REFUSED: u32 = 2;

/// Memory ran out.
pub const OUT_OF_MEMORY: u32 = 5;
