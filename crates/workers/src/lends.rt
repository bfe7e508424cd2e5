ghost use Rattle.std.specs.Prelude.{◌≡◌};

/// Lends a value. A closure that captures a `&Room<F>` gets no proof for all `F` yet; one that
/// captures what lends a room does.
pub trait Lends<T> {
    ghost lent: { Self → T };

    fn lend(&self) -> &T
        ensures { result.now ≡ lent self.now };
}

impl<T> Lends<T> for T {
    ghost lent = { λ own. own };

    fn lend(&self) -> &T {
        self
    }
}
