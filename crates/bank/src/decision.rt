use crate::job::Reply;
use turns::Operation;

/// What a job comes to.
#[derive(Clone, Copy, Debug, PartialEq, Eq, Drop)]
pub enum Decision {
    /// It changes nothing, and has this reply.
    Replies(Reply),
    /// It changes an account's balance by an operation.
    Changes(u32, Operation),
    /// It takes an amount out of the first account and puts it into the second one.
    Moves(u32, u32, u64),
}
