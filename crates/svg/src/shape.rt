/// A point of a drawing, by its units from the left and from the upper edge.
#[derive(Clone, Copy, Debug, PartialEq, Eq)]
pub struct Point(pub u16, pub u16);

/// How a trail goes on from the point where it is.
#[derive(Clone, Copy, Debug, PartialEq, Eq)]
pub enum Bend {
    /// Straight to a point.
    To(Point),
    /// In a curve with two handles, to the last point.
    Curve(Point, Point, Point),
}

/// A shape of a drawing.
pub type Shape<'a> = ShapeOf<&'a str, &'a [Bend]>;

/// A shape of a drawing. `T` is the type of its texts, and `B` that of its bends. The drawing's
/// style sheet says how a class looks.
#[derive(Clone, Copy, Debug)]
pub enum ShapeOf<T, B> {
    /// A rectangle: its upper left corner, its width, its height and its class.
    Rectangle(Point, u16, u16, T),
    /// A line: its two ends and its class.
    Line(Point, Point, T),
    /// A circle: its center, its radius and its class.
    Circle(Point, u16, T),
    /// A stroke: the point where it begins, its bends and its class.
    Trail(Point, B, T),
    /// One line of text: its place, its class and its content. It begins at the place, or has its
    /// middle or its end there if its class says so.
    Text(Point, T, T),
    /// A copy of a group: its place, and the name of the group.
    Copy(Point, T),
}
