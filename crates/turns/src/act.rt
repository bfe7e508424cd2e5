/// An atomic step of an attempt: what it is, and thereby the one word that it is made on. `L`
/// names locks, `E` effects.
#[derive(Clone, Copy, Debug, PartialEq, Eq)]
pub enum Act<L, E> {
    /// No step: the job is done, and nothing is held.
    Finished,
    /// Request the lock.
    Request(L),
    /// Seize the lock, if its word is this one.
    Seize(L, u64),
    /// Withdraw the request for the lock.
    Withdraw(L),
    /// Free the lock.
    Free(L),
    /// Test (read) the word of this number.
    Test(usize),
    /// Take the turn.
    Turn,
    /// Make the effect.
    Make(E),
}
