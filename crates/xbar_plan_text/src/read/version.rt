/// The version of a plan's text. In version 1 each directory number has exactly one line.
#[derive(Clone, Copy, Debug, PartialEq, Eq)]
pub enum Version {
    One,
    Two,
}
