/// A tested word, and the number that it had then. `W` names words.
#[derive(Clone, Copy, Debug, PartialEq, Eq, Default)]
pub struct Reading<W> {
    pub word: W,
    pub value: u64,
}
