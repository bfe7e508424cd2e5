// change: what actors may do
/// A job.
#[derive(Clone, Copy, Debug, PartialEq, Eq)]
pub enum Job {
    /// Takes the next number.
    Take,
    /// Tells the next number, and leaves it.
    Look,
}

// change: what a job comes to, and what its reply and its effects follow from
/// What a job comes to.
#[derive(Drop)]
pub enum Decision {
    Takes(u64),
    Tells(u64),
}

// change: what is done to words, an effect for each word that a job writes
/// A change of a word.
#[derive(Clone, Copy, Debug, PartialEq, Eq)]
pub enum Effect {
    AddOne,
}
