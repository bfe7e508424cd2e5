ghost use Rattle.std.specs.Prelude.{◌≡◌};

/// The shape of a switch, which determines at how many places a field can be closed.
///
/// A switch's word has ten adjacent fields, field 0 in the lowest bits. A field is 0 if open, else
/// one plus the place that it is closed at.
#[derive(Clone, Copy, Debug, PartialEq, Eq, Hash)]
pub enum Shape {
    /// 30 places: field `v` is bits `6v` to `6v + 5`.
    Line,
    /// 10 places: field `v` is bits `4v` to `4v + 3`.
    Other,
}

impl Shape {
    ghost use Rattle.xbar_switch.specs.Shape.{width, places};

    /// The width of a field in bits.
    pub fn width(self) -> u32
        ensures { result ≡ width self }
    {
        match self {
            Shape::Line => 6,
            Shape::Other => 4,
        }
    }

    /// The number of places that a field can be closed at.
    pub fn places(self) -> u8
        ensures { result ≡ places self }
    {
        match self {
            Shape::Line => 30,
            Shape::Other => 10,
        }
    }
}
