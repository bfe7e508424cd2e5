ghost use Rattle.std.specs.Prelude.{◌≡◌, ◌-◌, ◌*◌, ◌^◌, ◌<◌};
ghost use Rattle.xbar_switch.specs.Shape.{width, places};
ghost use Rattle.xbar_switch.specs.Field.{field_of, close_bits_of, open_mask_of};

use crate::shape::Shape;

/// The position of the lowest bit of field `v`.
fn field_shift(shape: Shape, v: u8) -> u32
    requires { v < 10 }
    ensures value { result ≡ width shape * v }
    ensures in_word { result < 64 }
{
    shape.width() * u32::from(v)
}

/// The mask of field 0.
fn lowest_field(shape: Shape) -> u64
    ensures { result ≡ 2 ^ width shape - 1 }
{
    match shape {
        Shape::Line => 0b11_1111,
        Shape::Other => 0b1111,
    }
}

/// The value of field `v`: 0 if open, else one plus the place.
pub fn field(shape: Shape, word: u64, v: u8) -> u8
    requires { v < 10 }
    ensures value { result ≡ field_of shape word v }
    ensures range { result < 2 ^ width shape }
{
    let lowered = word >> field_shift(shape, v);
    (lowered & lowest_field(shape)) as u8
}

/// The bits that close field `v` at place `h`, to be or-ed into a word in which the field is open.
pub fn close_bits(shape: Shape, v: u8, h: u8) -> u64
    requires field { v < 10 }
    requires place { h < places shape }
    ensures { result ≡ close_bits_of shape v h }
{
    u64::from(1 + h) << field_shift(shape, v)
}

/// All bits except those of field `v`. And-ing a word with this mask opens the field.
pub fn open_mask(shape: Shape, v: u8) -> u64
    requires { v < 10 }
    ensures { result ≡ open_mask_of shape v }
{
    !(lowest_field(shape) << field_shift(shape, v))
}
