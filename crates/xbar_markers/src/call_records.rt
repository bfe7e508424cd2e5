use crate::call::Call;
use xbar_office::Record;

/// The records of a call's jobs, as far as the call came.
#[derive(Drop)]
pub struct CallRecords {
    pub call: Call,
    pub dial: Record,
    pub complete: Option<Record>,
    pub release: Option<Record>,
}
