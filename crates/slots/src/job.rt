/// A job of the slots' allocator.
#[derive(Clone, Copy, Debug, PartialEq, Eq)]
pub enum Job {
    /// Takes the lowest free slot, if there is one.
    Take,
    /// Takes the lowest free slot of each bank, or none if one of the banks has none.
    TakeBoth,
    /// Frees this slot, one of 0 to 63.
    Give(u32),
}
