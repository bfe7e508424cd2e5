//! Diagnostics: a sentence that says what is wrong with a refused plan, traffic, text of records
//! or text of markers' kinds, and where, as far as the readers that refused tell it.
#![tactic(auto)]

pub use kinds::{KindsDiagnostic, KindsWrong, kinds_diagnostic};
pub use plan::PlanDiagnostic;
pub use report::{ReportDiagnostic, report_diagnostic};
pub use traffic::{TrafficDiagnostic, TrafficReason, traffic_diagnostic};

mod kinds;
mod plan;
mod quoted;
mod report;
mod traffic;
