//! Writes the records of a run as text, and reads them back.
#![tactic(auto)]

pub use line::{Counts, TroubleLine, name_of};
pub use reading::{Report, read};
pub use report_fault::ReportFault;
pub use report_text::{record_text, report};

mod deal;
mod fields;
mod line;
mod ranges;
mod reading;
mod report_fault;
mod report_text;
