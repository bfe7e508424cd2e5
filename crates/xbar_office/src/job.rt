use xbar_equip::{Dialled, Len};

/// A job for a marker.
#[derive(Clone, Copy, Debug, PartialEq, Eq)]
pub enum Job {
    /// A line went off hook: find an idle register for it, and a path to the register.
    Dial(Len),
    /// A line with a register dialled these digits: free the register, and connect the line to
    /// what it dialled.
    Complete(Len, Dialled),
    /// A party of a call hung up, or a line gave up its register: remove the paths of the call.
    Release(Len),
}
