/// At most two items, in order.
#[derive(Clone, Copy, Debug, PartialEq, Eq)]
pub enum UpToTwo<T> {
    Empty,
    One(T),
    Two(T, T),
}
