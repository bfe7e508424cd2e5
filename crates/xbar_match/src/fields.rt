//! The fields of one switch by their places, and the places by their fields.

ghost use Rattle.std.specs.Prelude.{◌≡◌, ◌+◌, ◌<◌, IfSome};
ghost use Rattle.xbar_switch.specs.Shape.{places};
ghost use Rattle.xbar_match.specs.Traces.{field_at_place, place_at_field};

use xbar_switch::{Shape, field};

/// The lowest field that is closed at a place.
fn find_place(shape: Shape, word: u64, place: u8) -> Option<u8>
    requires { place < places shape }
    ensures least { result ≡ field_at_place shape word place }
    ensures range { IfSome result (λ v. v < 10) }
{
    for v in 0..10 {
        if field(shape, word, v) == 1 + place {
            return Some(v);
        }
    }
    None
}

/// The place that field `v` is closed at, if the shape has that place.
fn place_in(shape: Shape, word: u64, v: u8) -> Option<u8>
    requires { v < 10 }
    ensures told { result ≡ place_at_field shape word v }
    ensures range { IfSome result (λ place. place < places shape) }
{
    let place = field(shape, word, v).checked_sub(1)?;
    if place < shape.places() {
        Some(place)
    } else {
        None
    }
}

/// The lowest field of a line switch that is closed at place `x`: the channel of the line's line
/// link.
pub fn find_line(word: u64, x: u8) -> Option<u8>
    requires { x < 30 }
    ensures least { result ≡ field_at_place Shape.Line word x }
    ensures range { IfSome result (λ v. v < 10) }
{
    find_place(Shape::Line, word, x)
}

/// The lowest field that is closed at place `h`, of a switch that is not a line switch.
pub fn find_number(word: u64, h: u8) -> Option<u8>
    requires { h < 10 }
    ensures least { result ≡ field_at_place Shape.Other word h }
    ensures range { IfSome result (λ v. v < 10) }
{
    find_place(Shape::Other, word, h)
}

/// The line's place that field `v` of a line switch is closed at. `None` if the field is open or
/// its value is above 30.
pub fn line_place_of(word: u64, v: u8) -> Option<u8>
    requires { v < 10 }
    ensures told { result ≡ place_at_field Shape.Line word v }
    ensures range { IfSome result (λ x. x < 30) }
{
    place_in(Shape::Line, word, v)
}

/// The place that field `v` of any other switch is closed at. `None` if the field is open or its
/// value is above 10.
pub fn place_of(word: u64, v: u8) -> Option<u8>
    requires { v < 10 }
    ensures told { result ≡ place_at_field Shape.Other word v }
    ensures range { IfSome result (λ place. place < 10) }
{
    place_in(Shape::Other, word, v)
}
