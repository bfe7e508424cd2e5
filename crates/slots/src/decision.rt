use crate::taken::Taken;

/// The decision that a job's script ends in.
#[derive(Drop)]
pub enum Decision {
    /// The job takes these slots.
    Takes(Taken),
    /// The job frees this slot.
    Gives(u32),
}
