//! Tools of tests: assertions, and readers and writers that take the place of a device.
#![tactic(auto)]

pub use checks::{Failed, check_equal, check_holds};
pub use endless::Endless;
pub use fail_at::FailAt;
pub use recorder::{DeviceCall, Recorder};

mod checks;
mod endless;
mod fail_at;
mod recorder;
