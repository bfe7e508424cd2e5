use crate::word::WordNo;

/// A crosspoint, as a switch's word shows it while it is closed: the field holds one plus the
/// place that the field is joined to.
#[derive(Clone, Copy, Debug, PartialEq, Eq)]
pub struct Crosspoint {
    /// The switch's word, number 0 to 399.
    pub word: WordNo,
    /// The field, 0 to 9: a hold magnet of the switch.
    pub field: u8,
    /// The value of the field: 1 to 30 in a line switch, 1 to 10 in any other switch.
    pub value: u8,
}
