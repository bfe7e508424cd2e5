/// A job of the bank, on accounts by their numbers.
#[derive(Clone, Copy, Debug, PartialEq, Eq)]
pub enum Job {
    /// Puts an amount into an account, unless the balance would overflow.
    Deposit(u32, u64),
    /// Takes an amount out of an account, unless the balance is too small.
    Withdraw(u32, u64),
    /// Takes an amount out of the first account and puts it into the second one. It does neither
    /// if the first has too little, or the second would overflow.
    Transfer(u32, u32, u64),
    /// Tells an account's balance.
    Balance(u32),
}

/// What a job replies.
#[derive(Clone, Copy, Debug, PartialEq, Eq, Drop)]
pub enum Reply {
    /// It was done.
    Done,
    /// It was refused, and nothing changed.
    Refused,
    /// The account has this balance.
    Has(u64),
}
