/// An item of a queue.
pub trait Item {
    /// The invariant of items: required when an item is put, and ensured when it is taken.
    ghost sound: { Self → Type 0 };
}
