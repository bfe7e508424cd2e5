//! What is drawn once and copied: the two kinds of frames, the mesh of a switch, and a blank card.

ghost use Rattle.std.specs.Prelude.{◌≡◌, ◌++◌, ◌≤◌, OnOk, codes, flat_map, map, string_bytes};
ghost use Rattle.std.specs.List.{range_with_len};
ghost use Rattle.xbar_office_drawing.specs.Figures.{figures_text};
ghost use Rattle.xbar_office_drawing.specs.Shapes.{blank_card, digit_place, digit_point as digit_point_of, frame_figures, frame_row, inner_link, level as level_of, named_text, shapes_text};

use std::alloc::AllocError;
use svg::{Bend, Point, Shape, add_group_end, add_named_group, add_shape};

/// The width of a switch of a frame.
pub const SWITCH_WIDTH: u16 = 36;

/// A kind of frames, with the left edges of its switches on either side.
#[derive(Clone, Copy)]
struct Frame {
    width: u16,
    left: u16,
    right: u16,
    /// Where the strokes for its lines or trunks begin and end.
    from: u16,
    to: u16,
}

const LINE_FRAME: Frame = Frame {
    width: 332,
    left: 130,
    right: 290,
    from: 4,
    to: 124,
};

const TRUNK_FRAME: Frame = Frame {
    width: 294,
    left: 6,
    right: 166,
    from: 208,
    to: 288,
};

/// The part of a mesh that repeats: a bar of a field, and an upright of a place.
const MESH: [Shape<'static>; 2] = [
    Shape::Trail(Point(0, 2), &[Bend::To(Point(5, 2))], "bar"),
    Shape::Trail(Point(2, 0), &[Bend::To(Point(2, 5))], "bar"),
];

/// A card without the places of digits: its edge, whose upper left corner is cut; a place for each
/// kind of link, before its name; and the digits above the places.
const CARD: [Shape<'static>; 17] = [
    Shape::Trail(
        Point(24, 0),
        &[
            Bend::To(Point(480, 0)),
            Bend::To(Point(480, 226)),
            Bend::To(Point(0, 226)),
            Bend::To(Point(0, 24)),
            Bend::To(Point(24, 0)),
        ],
        "card",
    ),
    Shape::Rectangle(Point(140, 98), 9, 15, "place"),
    Shape::Text(Point(155, 111), "plain", "line link"),
    Shape::Rectangle(Point(250, 98), 9, 15, "place"),
    Shape::Text(Point(265, 111), "plain", "junctor"),
    Shape::Rectangle(Point(360, 98), 9, 15, "place"),
    Shape::Text(Point(375, 111), "plain", "trunk link"),
    Shape::Text(Point(194, 136), "middle", "0"),
    Shape::Text(Point(222, 136), "middle", "1"),
    Shape::Text(Point(250, 136), "middle", "2"),
    Shape::Text(Point(278, 136), "middle", "3"),
    Shape::Text(Point(306, 136), "middle", "4"),
    Shape::Text(Point(334, 136), "middle", "5"),
    Shape::Text(Point(362, 136), "middle", "6"),
    Shape::Text(Point(390, 136), "middle", "7"),
    Shape::Text(Point(418, 136), "middle", "8"),
    Shape::Text(Point(446, 136), "middle", "9"),
];

/// Adds the shapes, which are not drawn where they stand.
#[tactic(auto, unfolding(crate::specs::Shapes::shapes_text))]
pub fn add_shapes(text: &mut String) -> Result<(), AllocError>
    ensures { OnOk result (string_bytes text.new ≡ string_bytes text.old ++ shapes_text) }
{
    text.push_str("<defs>\n")?;
    add_named_frame(text, "line-frame", &LINE_FRAME, "lines")?;
    add_named_frame(text, "trunk-frame", &TRUNK_FRAME, "trunks")?;
    add_blank_card(text)?;
    text.push_str(
        "<pattern id=\"mesh\" width=\"5\" height=\"5\" patternUnits=\"userSpaceOnUse\">\n",
    )?;
    svg::add_shapes(text, &MESH)?;
    text.push_str("</pattern>\n</defs>\n")?;
    Ok(())
}

// ---- frames

/// The middle of the row of a switch in its frame.
pub fn level(switch: u8) -> u16
    ensures value { result ≡ level_of switch }
    ensures range { result ≤ 2044 }
{
    4 + 8 * u16::from(switch)
}

#[tactic(auto, unfolding(crate::specs::Shapes::named_text, crate::specs::Shapes::frame_figures))]
fn add_named_frame(
    text: &mut String,
    name: &str,
    frame: &Frame,
    class: &str,
) -> Result<(), AllocError>
    requires { frame.now.left ≤ 1000 }
    ensures { OnOk result (string_bytes text.new ≡ string_bytes text.old ++
        named_text name.now (frame_figures frame.now class.now)) }
{
    add_named_group(text, name)?;
    let edge = Shape::Rectangle(Point(0, 0), frame.width, 80, "frame");
    add_shape(text, &edge)?;
    add_inner_links(text, frame.left + SWITCH_WIDTH, frame.right)?;
    add_rows(text, frame, class)?;
    add_group_end(text)?;
    Ok(())
}

/// Adds the links of a frame, one between each two of its switches on either side.
fn add_inner_links(text: &mut String, left: u16, right: u16) -> Result<(), AllocError>
    ensures { OnOk result (string_bytes text.new ≡ string_bytes text.old ++
        figures_text (map (inner_link left right) (range_with_len 0 100))) }
{
    for link in 0..100 {
        let from = Point(left, level(link / 10));
        let to = Point(right, level(link % 10));
        add_shape(text, &Shape::Line(from, to, "idle"))?;
    }
    Ok(())
}

/// Adds the rows of a frame: lines or trunks of this class, and a switch on either side.
fn add_rows(text: &mut String, frame: &Frame, class: &str) -> Result<(), AllocError>
    ensures { OnOk result (string_bytes text.new ≡ string_bytes text.old ++
        figures_text (flat_map (frame_row frame.now class.now) (range_with_len 0 10))) }
{
    for switch in 0..10 {
        let height = level(switch);
        let from = Point(frame.from, height);
        let row = [
            Shape::Line(from, Point(frame.to, height), class),
            Shape::Rectangle(Point(frame.left, height - 3), SWITCH_WIDTH, 6, "switch"),
            Shape::Rectangle(Point(frame.right, height - 3), SWITCH_WIDTH, 6, "switch"),
        ];
        svg::add_shapes(text, &row)?;
    }
    Ok(())
}

// ---- a blank card

#[tactic(auto, unfolding(crate::specs::Shapes::named_text, crate::specs::Shapes::blank_card))]
fn add_blank_card(text: &mut String) -> Result<(), AllocError>
    ensures { OnOk result (string_bytes text.new ≡ string_bytes text.old ++
        named_text (codes "blank-card") blank_card) }
{
    add_named_group(text, "blank-card")?;
    svg::add_shapes(text, &CARD)?;
    add_digit_places(text)?;
    add_group_end(text)?;
    Ok(())
}

/// Adds three rows of ten places.
fn add_digit_places(text: &mut String) -> Result<(), AllocError>
    ensures { OnOk result (string_bytes text.new ≡ string_bytes text.old ++
        figures_text (map digit_place (range_with_len 0 30))) }
{
    for place in 0..30 {
        let corner = digit_point(place / 10, place % 10);
        add_shape(text, &Shape::Rectangle(corner, 9, 15, "place"))?;
    }
    Ok(())
}

/// The upper left corner of the place of a digit in a row.
pub fn digit_point(row: u8, digit: u8) -> Point
    ensures { result ≡ digit_point_of row digit }
{
    Point(190 + 28 * u16::from(digit), 142 + 26 * u16::from(row))
}
