//! A path in the picture of its office, from the line's place to the trunk's.

ghost use Rattle.std.specs.Prelude.{◌≡◌, ◌++◌, ◌≤◌, ◌∷◌, [], OnOk, codes, map, string_bytes};
ghost use Rattle.svg.specs.Figure.{figure_of};
ghost use Rattle.xbar_office_drawing.specs.Figures.{figures_text};
ghost use Rattle.xbar_office_drawing.specs.PathInOffice.{crosspoint_dot as crosspoint_dot_of, line_junctor_row, line_row, path_dots as path_dots_of, path_trails, trunk_junctor_row, trunk_row, use_class};

use crate::office::{
    LINE_JUNCTORS, LINE_SWITCHES, TRUNK_JUNCTORS, TRUNK_SWITCHES, junctor_curve, row,
};
use crate::shapes::SWITCH_WIDTH;
use std::alloc::AllocError;
use svg::{Bend, Point, Shape, add_shapes};
use xbar_equip::{Crosspoint, Path};
use xbar_office_text::ends_at_register;
use xbar_plan::Plan;

/// The classes of a path's edge and of its core: a register's or a call's.
pub fn use_classes(plan: &Plan, path: &Path) -> (&'static str, &'static str)
    ensures edge { result.0.now ≡ use_class plan.now path.now ++ codes " edge" }
    ensures core { result.1.now ≡ use_class plan.now path.now }
{
    if ends_at_register(plan, path) {
        ("register edge", "register")
    } else {
        ("call edge", "call")
    }
}

/// The rows of a path's four switches.
fn path_rows(path: &Path) -> [u16; 4]
    ensures { result ≡ line_row path.now ∷ line_junctor_row path.now
        ∷ trunk_junctor_row path.now ∷ trunk_row path.now ∷ [] }
{
    let channel = path.channel.number();
    let line_frame = path.line.frame();
    let trunk_frame = path.place.frame();
    [
        row(line_frame, path.line.switch()),
        row(line_frame, channel),
        row(trunk_frame, channel),
        row(trunk_frame, path.place.switch()),
    ]
}

/// Adds a path as a trail from the place of its line, through its switches, to its trunk place:
/// its edge, and its core.
#[tactic(auto, unfolding(crate::specs::PathInOffice::path_trails))]
pub fn add_trails(text: &mut String, plan: &Plan, path: &Path) -> Result<(), AllocError>
    ensures { OnOk result (string_bytes text.new ≡ string_bytes text.old ++
        figures_text (path_trails plan.now path.now)) }
{
    let (edge, core) = use_classes(plan, path);
    let [line, line_junctor, trunk_junctor, trunk] = path_rows(path);
    let from = Point(216 + 4 * u16::from(path.line.x()), line);
    let end = 1170 + 8 * u16::from(path.place.appearance());
    let way = [
        Bend::To(Point(LINE_SWITCHES + SWITCH_WIDTH, line)),
        Bend::To(Point(LINE_JUNCTORS, line_junctor)),
        Bend::To(Point(LINE_JUNCTORS + SWITCH_WIDTH, line_junctor)),
        junctor_curve(line_junctor, TRUNK_JUNCTORS, trunk_junctor),
        Bend::To(Point(TRUNK_JUNCTORS + SWITCH_WIDTH, trunk_junctor)),
        Bend::To(Point(TRUNK_SWITCHES, trunk)),
        Bend::To(Point(end, trunk)),
    ];
    let trails = [
        Shape::Trail(from, &way, edge),
        Shape::Trail(from, &way, core),
    ];
    add_shapes(text, &trails)
}

/// The dot of a crosspoint in a switch with this left edge, in this row: at its field.
fn crosspoint_dot(
    class: &'static str,
    left: u16,
    height: u16,
    crosspoint: &Crosspoint,
) -> Shape<'static>
    requires { left ≤ 1600 }
    ensures { figure_of result ≡ crosspoint_dot_of class.now left height crosspoint.now }
{
    let Crosspoint { field, .. } = *crosspoint;
    let across = left + 3 + 3 * u16::from(field);
    Shape::Circle(Point(across, height), 3, class)
}

/// The dots of the four crosspoints of a path, each in its switch.
pub fn path_dots(plan: &Plan, path: &Path) -> [Shape<'static>; 4]
    ensures { map figure_of result ≡ path_dots_of plan.now path.now }
{
    let [first, second, third, fourth] = path.crosspoints();
    let (_, class) = use_classes(plan, path);
    let [line, line_junctor, trunk_junctor, trunk] = path_rows(path);
    [
        crosspoint_dot(class, LINE_SWITCHES, line, &first),
        crosspoint_dot(class, LINE_JUNCTORS, line_junctor, &second),
        crosspoint_dot(class, TRUNK_JUNCTORS, trunk_junctor, &third),
        crosspoint_dot(class, TRUNK_SWITCHES, trunk, &fourth),
    ]
}
