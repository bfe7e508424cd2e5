use turns::Operation;

/// A change of an account's balance: an operation on the account's word.
pub type Effect = (u32, Operation);
