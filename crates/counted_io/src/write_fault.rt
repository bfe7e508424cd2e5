use thiserror::Error;

/// Why the bytes weren't all written and flushed.
#[derive(Clone, Copy, Debug, PartialEq, Eq, Error)]
pub enum WriteFault {
    /// A write or a flush failed, and the failure was counted.
    #[error("a write failed")]
    Device,
}
