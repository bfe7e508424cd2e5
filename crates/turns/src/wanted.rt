/// What a walk needs next: a lock `L` to seize, or a word `W` to test.
#[derive(Clone, Copy, Debug, PartialEq, Eq)]
pub enum Wanted<L, W> {
    Seize(L),
    Test(W),
}
