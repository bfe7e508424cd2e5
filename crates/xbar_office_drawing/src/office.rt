//! An office without its paths: its frames, the junctors between them, and the links that are out
//! of order.

ghost use Rattle.std.specs.Prelude.{◌≡◌, ◌++◌, ◌≤◌, ◌∷◌, [], OnOk, codes, map, flat_map, string_bytes};
ghost use Rattle.std.specs.List.{range_with_len};
ghost use Rattle.svg.specs.declared.shape.ShapeOf.TheVariants.{Trail};
ghost use Rattle.xbar_office_drawing.specs.Figures.{figures_text};
ghost use Rattle.xbar_office_drawing.specs.Office.{bundle, fault, frame_top as frame_top_of, junctor_curve as junctor_curve_of, office, row as row_of, two_frames};

use crate::shapes::{SWITCH_WIDTH, level};
use std::alloc::{AllocError, Global};
use svg::{Bend, Point, Shape, add_shape, add_shapes};
use xbar_equip::{Link, LinkKind};
use xbar_plan::Plan;

/// The left edge of the column of line switches.
pub const LINE_SWITCHES: u16 = 340;

/// The left edge of the column of line link frames' junctor switches.
pub const LINE_JUNCTORS: u16 = 500;

/// The left edge of the column of trunk link frames' junctor switches.
pub const TRUNK_JUNCTORS: u16 = 964;

/// The left edge of the column of trunk switches.
pub const TRUNK_SWITCHES: u16 = 1124;

/// The key to the two classes of paths and to faulty links.
const KEY: [Shape<'static>; 8] = [
    Shape::Line(Point(1130, 24), Point(1180, 24), "register edge"),
    Shape::Line(Point(1130, 24), Point(1180, 24), "register"),
    Shape::Text(Point(1188, 29), "plain", "to a register"),
    Shape::Line(Point(1310, 24), Point(1360, 24), "call edge"),
    Shape::Line(Point(1310, 24), Point(1360, 24), "call"),
    Shape::Text(Point(1368, 29), "plain", "of a call"),
    Shape::Line(Point(1450, 24), Point(1500, 24), "fault"),
    Shape::Text(Point(1508, 29), "plain", "faulty link"),
];

/// The names above the frames, and of the junctors between them.
const HEADS: [Shape<'static>; 11] = [
    Shape::Text(Point(16, 52), "head", "line link frames"),
    Shape::Text(Point(274, 52), "head middle", "lines"),
    Shape::Text(Point(358, 52), "head middle", "switches"),
    Shape::Text(Point(438, 52), "head middle", "line links"),
    Shape::Text(Point(518, 52), "head middle", "switches"),
    Shape::Text(Point(750, 52), "head middle", "junctors"),
    Shape::Text(Point(982, 52), "head middle", "switches"),
    Shape::Text(Point(1062, 52), "head middle", "trunk links"),
    Shape::Text(Point(1142, 52), "head middle", "switches"),
    Shape::Text(Point(1206, 52), "head middle", "trunks"),
    Shape::Text(Point(1584, 52), "head end", "trunk link frames"),
];

/// Adds an office: the key, the names above the frames, the junctors, the frames, and the links
/// that are out of order.
#[tactic(auto, unfolding(crate::specs::Office::office))]
pub fn add_office(alloc: Global, text: &mut String, plan: &Plan) -> Result<(), AllocError>
    ensures { OnOk result (string_bytes text.new ≡ string_bytes text.old ++
        figures_text (office plan.now)) }
{
    add_shapes(text, &KEY)?;
    add_shapes(text, &HEADS)?;
    add_bundles(text)?;
    add_frames(alloc, text)?;
    add_faults(text, plan)?;
    Ok(())
}

/// The upper edge of a frame.
pub fn frame_top(frame: u8) -> u16
    ensures value { result ≡ frame_top_of frame }
    ensures range { result ≤ 21227 }
{
    62 + 83 * u16::from(frame)
}

/// The middle of the row of a switch of a frame.
pub fn row(frame: u8, switch: u8) -> u16
    ensures { result ≡ row_of frame switch }
{
    frame_top(frame) + level(switch)
}

/// The curve of a junctor that comes from one height and ends at another.
pub fn junctor_curve(from: u16, end: u16, height: u16) -> Bend
    ensures { result ≡ junctor_curve_of from end height }
{
    Bend::Curve(Point(750, from), Point(750, height), Point(end, height))
}

/// Adds the junctors between each two frames, as one faint curve.
fn add_bundles(text: &mut String) -> Result<(), AllocError>
    ensures { OnOk result (string_bytes text.new ≡ string_bytes text.old ++
        figures_text (map bundle (range_with_len 0 100))) }
{
    for frames in 0..100 {
        let from = frame_top(frames / 10) + 40;
        let bends = [junctor_curve(from, 958, frame_top(frames % 10) + 40)];
        add_shape(text, &Shape::Trail(Point(542, from), &bends, "bundle"))?;
    }
    Ok(())
}

/// Adds the line link frame and the trunk link frame with each number, beside it.
fn add_frames(alloc: Global, text: &mut String) -> Result<(), AllocError>
    ensures { OnOk result (string_bytes text.new ≡ string_bytes text.old ++
        figures_text (flat_map two_frames (range_with_len 0 10))) }
{
    for frame in 0..10 {
        let top = frame_top(frame);
        let number = format!(in alloc; "{frame}")?;
        let two_frames = [
            Shape::Copy(Point(210, top), "line-frame"),
            Shape::Text(Point(24, top + 48), "number", number.as_str()),
            Shape::Copy(Point(958, top), "trunk-frame"),
            Shape::Text(Point(1576, top + 48), "number", number.as_str()),
        ];
        add_shapes(text, &two_frames)?;
    }
    Ok(())
}

// ---- faulty links

fn add_faults(text: &mut String, plan: &Plan) -> Result<(), AllocError>
    ensures { OnOk result (string_bytes text.new ≡ string_bytes text.old ++
        figures_text (map fault plan.now.faults)) }
{
    let faults = plan.tables().faults;
    for link in faults {
        let (from, bend) = fault_trail(*link);
        add_shape(text, &Shape::Trail(from, &[bend], "fault"))?;
    }
    Ok(())
}

/// The trail of a link that is out of order, dashed, in its place.
fn fault_trail(link: Link) -> (Point, Bend)
    ensures { fault link ≡ Trail result.0 (result.1 ∷ []) (codes "fault") }
{
    let at = row(link.frame(), link.at());
    let channel = row(link.frame(), link.channel());
    match link.kind() {
        LinkKind::LineLink => (
            Point(LINE_SWITCHES + SWITCH_WIDTH, at),
            Bend::To(Point(LINE_JUNCTORS, channel)),
        ),
        LinkKind::Junctor => (
            Point(LINE_JUNCTORS + SWITCH_WIDTH, channel),
            junctor_curve(channel, TRUNK_JUNCTORS, row(link.at(), link.channel())),
        ),
        LinkKind::TrunkLink => (
            Point(TRUNK_JUNCTORS + SWITCH_WIDTH, channel),
            Bend::To(Point(TRUNK_SWITCHES, at)),
        ),
    }
}
