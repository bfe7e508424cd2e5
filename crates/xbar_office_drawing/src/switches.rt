//! The card of a path: the path in words, and its four switches.

ghost use Rattle.std.specs.Prelude.{◌≡◌, ◌++◌, ◌≤◌, IfOk, OnOk, string_bytes};
ghost use Rattle.xbar_equip.specs.Crosspoint.{crosspoints};
ghost use Rattle.xbar_office_drawing.specs.Figures.{figures_text};
ghost use Rattle.xbar_office_drawing.specs.Switches.{path_card, path_heading as path_heading_of, path_title, switch_face, switch_name as switch_name_of, switches_of};

use std::alloc::{AllocError, Global};
use svg::{Bend, Point, Shape, add_shape, add_shapes};
use xbar_equip::{Crosspoint, Path};
use xbar_office_text::path_end;
use xbar_plan::Plan;

/// Where a switch is on a path's card: its left edge, and how many places it has.
#[derive(Clone, Copy)]
struct Face {
    left: u16,
    places: u16,
}

const LINE_SWITCH: Face = Face {
    left: 5,
    places: 30,
};

const LINE_JUNCTOR: Face = Face {
    left: 190,
    places: 10,
};

const TRUNK_JUNCTOR: Face = Face {
    left: 290,
    places: 10,
};

const TRUNK_SWITCH: Face = Face {
    left: 390,
    places: 10,
};

/// Adds the card of a path.
#[tactic(auto, unfolding(crate::specs::Switches::path_card))]
pub fn add_path_card(
    alloc: Global,
    text: &mut String,
    plan: &Plan,
    path: &Path,
) -> Result<(), AllocError>
    ensures { OnOk result (string_bytes text.new ≡ string_bytes text.old ++
        figures_text (path_card plan.now path.now)) }
{
    add_title(alloc, text, plan, path)?;
    add_switches(alloc, text, path)
}

/// The line of a path, its channel, what it leads to, and its trunk place, in words.
#[tactic(auto, unfolding(crate::specs::Switches::path_heading))]
fn path_heading(alloc: Global, plan: &Plan, path: &Path) -> Result<String, AllocError>
    ensures { IfOk result (λ text. string_bytes text ≡ path_heading_of plan.now path.now) }
{
    let Path {
        line,
        channel,
        place,
    } = path;
    let end = path_end(alloc, plan, path)?;
    format!(in alloc; "line {line}, channel {channel}, {end} at place {place}")
}

#[tactic(auto, unfolding(crate::specs::Switches::path_title))]
fn add_title(alloc: Global, text: &mut String, plan: &Plan, path: &Path) -> Result<(), AllocError>
    ensures { OnOk result (string_bytes text.new ≡ string_bytes text.old ++
        figures_text (path_title plan.now path.now)) }
{
    let title = format!(in alloc; "{path}")?;
    let line_link = path.line_link();
    let junctor = path.junctor();
    let trunk_link = path.trunk_link();
    let links = format!(in alloc; "{line_link}, {junctor}, {trunk_link}")?;
    let told = path_heading(alloc, plan, path)?;
    let words = [
        Shape::Text(Point(0, 16), "big", title.as_str()),
        Shape::Text(Point(480, 16), "end", links.as_str()),
        Shape::Text(Point(0, 36), "plain", told.as_str()),
    ];
    add_shapes(text, &words)?;
    Ok(())
}

/// Adds the four switches of a path.
#[tactic(auto, unfolding(crate::specs::Switches::switches_of))]
fn add_switches(alloc: Global, text: &mut String, path: &Path) -> Result<(), AllocError>
    ensures { OnOk result (string_bytes text.new ≡ string_bytes text.old ++
        figures_text (switches_of path.now (crosspoints path.now))) }
{
    let [first, second, third, fourth] = path.crosspoints();
    let channel = path.channel.number();
    let line_frame = path.line.frame();
    let trunk_frame = path.place.frame();
    let line = (line_frame, path.line.switch());
    let near = (line_frame, channel);
    let far = (trunk_frame, channel);
    let trunk = (trunk_frame, path.place.switch());
    add_switch(alloc, text, &LINE_SWITCH, "line switch", line, &first)?;
    add_switch(alloc, text, &LINE_JUNCTOR, "junctor", near, &second)?;
    add_switch(alloc, text, &TRUNK_JUNCTOR, "junctor", far, &third)?;
    add_switch(alloc, text, &TRUNK_SWITCH, "trunk", trunk, &fourth)?;
    Ok(())
}

/// The name of a switch: its kind, its frame and its number on the frame.
#[tactic(auto, unfolding(crate::specs::Switches::switch_name))]
fn switch_name(alloc: Global, kind: &str, frame: u8, number: u8) -> Result<String, AllocError>
    ensures { IfOk result (λ name. string_bytes name ≡ switch_name_of kind.now frame number) }
{
    format!(in alloc; "{kind} {frame},{number}")
}

/// Adds a switch, by its frame and its number on the frame, with its closed crosspoint: the stroke
/// along the bar and down the upright, the dot where they cross, the word, and the field.
#[tactic(auto, unfolding(crate::specs::Switches::switch_face))]
fn add_switch(
    alloc: Global,
    text: &mut String,
    face: &Face,
    kind: &str,
    switch: (u8, u8),
    crosspoint: &Crosspoint,
) -> Result<(), AllocError>
    requires left { 5 ≤ face.now.left }
    requires room { face.now.left ≤ 1000 }
    requires few { face.now.places ≤ 30 }
    ensures { OnOk result (string_bytes text.new ≡ string_bytes text.old ++
        figures_text (switch_face face.now kind.now switch.0 switch.1 crosspoint.now)) }
{
    let Face { left, places } = *face;
    let Crosspoint { word, field, value } = *crosspoint;
    let across = left + 5 * u16::from(value) - 3;
    let height = 72 + 5 * u16::from(field);
    let stroke = [
        Bend::To(Point(across, height)),
        Bend::To(Point(across, 124)),
    ];
    let name = switch_name(alloc, kind, switch.0, switch.1)?;
    let told_word = format!(in alloc; "word {}", word.number())?;
    let told_field = format!(in alloc; "field {field} = {value}")?;
    let mesh = Shape::Rectangle(Point(left, 70), 5 * places, 50, "mesh");
    let closed = Shape::Trail(Point(left - 5, height), &stroke, "closed");
    let crossing = Shape::Circle(Point(across, height), 3, "point");
    let below = [
        Shape::Text(Point(left, 140), "field", told_word.as_str()),
        Shape::Text(Point(left, 158), "field", told_field.as_str()),
    ];
    add_shape(text, &Shape::Text(Point(left, 60), "plain", name.as_str()))?;
    add_shape(text, &mesh)?;
    add_shape(text, &closed)?;
    add_shape(text, &crossing)?;
    add_shapes(text, &below)?;
    Ok(())
}
