/// The phase of an attempt: what its next step is for. `L` names locks, `W` words.
#[derive(Clone, Copy, Debug, PartialEq, Eq)]
pub enum Phase<L, W> {
    /// It requests this lock next.
    Requests(L),
    /// It has requested this lock and seizes it next, with this number expected in the lock's
    /// word.
    Seizes(L, u64),
    /// It tests this word next.
    Tests(W),
    /// It has decided, and takes its turn next.
    Turns,
    /// It was denied a lock or given up, and withdraws its request for this lock next.
    Withdraws(L),
    /// It was denied a lock or given up, and frees the locks that it holds.
    GivesBack,
    /// It took its turn, which had this number: it makes its effects, and then frees its locks.
    Operates(u64),
}
