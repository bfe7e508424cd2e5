ghost use Rattle.std.specs.Prelude.{◌≡◌};

/// A connector: the lock of a frame's switches or of a trunk group's busy bits.
///
/// One marker at a time seizes a connector, reads and changes the words that it protects, and
/// frees it.
#[derive(Clone, Copy, Debug)]
pub enum Conn {
    /// The connector of a line link frame, 0 to 9.
    Llf(u8),
    /// The connector of a trunk link frame, 0 to 9.
    Tlf(u8),
    /// The connector of a trunk group, 0 to 15.
    Group(u8),
}

// Not derived, so that proofs can compare connectors by the definition `conn_eq`.
impl PartialEq for Conn {
    ghost use Rattle.xbar_equip.specs.Conn.{conn_eq};
    ghost use Rattle.xbar_equip.specs.Equivalences.{conn-partial_equivalence};

    ghost eq = { conn_eq };

    ghost laws = { conn-partial_equivalence };

    fn eq(&self, other: &Self) -> bool {
        match (self, other) {
            (Conn::Llf(frame), Conn::Llf(others)) => frame == others,
            (Conn::Tlf(frame), Conn::Tlf(others)) => frame == others,
            (Conn::Group(group), Conn::Group(others)) => group == others,
            (Conn::Llf(_), Conn::Tlf(_) | Conn::Group(_))
            | (Conn::Tlf(_), Conn::Llf(_) | Conn::Group(_))
            | (Conn::Group(_), Conn::Llf(_) | Conn::Tlf(_)) => false,
        }
    }
}

impl Eq for Conn {
    ghost use Rattle.xbar_equip.specs.Equivalences.{conn-equivalence};

    ghost laws = { conn-equivalence };
}

/// A placeholder for the unused entries of a list of connectors.
impl Default for Conn {
    fn default() -> Self
        ensures { result ≡ Conn.Llf 0 }
    {
        Conn::Llf(0)
    }
}
