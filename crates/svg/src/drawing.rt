ghost use Rattle.std.specs.Prelude.{◌≡◌, ◌++◌, OnOk, codes, flat_map, map, string_bytes};
ghost use Rattle.svg.specs.Drawing.{drawing_text, foot_text, group_end_text, group_text, head_text, named_group_text, open_text};
ghost use Rattle.svg.specs.Figure.{figure_of, figure_text};

use crate::escape::add_escaped;
use crate::shape::Shape;
use crate::write::add_shapes;
use std::alloc::AllocError;

/// Adds a whole drawing. If memory runs out, a part of it may have been added.
pub fn add_drawing(
    text: &mut String,
    width: u16,
    height: u128,
    style: &str,
    shapes: &[Shape<'_>],
) -> Result<(), AllocError>
    ensures { OnOk result (string_bytes text.new ≡ string_bytes text.old ++
        drawing_text width height style.now (map figure_of shapes.now)) }
{
    add_head(text, width, height, style)?;
    add_shapes(text, shapes)?;
    add_foot(text)
}

/// Adds the beginning of a drawing whose style sheet is elsewhere, as in the page that contains
/// the drawing.
#[tactic(auto, unfolding(crate::specs::Drawing::open_text))]
pub fn add_open(text: &mut String, width: u16, height: u128) -> Result<(), AllocError>
    ensures { OnOk result (string_bytes text.new ≡ string_bytes text.old ++
        open_text width height) }
{
    text.push_str("<svg xmlns=\"http://www.w3.org/2000/svg\" viewBox=\"0 0 ")?;
    writeln!(
        text,
        "{width} {height}\" width=\"{width}\" height=\"{height}\">"
    )?;
    Ok(())
}

/// Adds the beginning of a drawing, with its style sheet, up to its first shape. If memory runs
/// out, a part of it may have been added.
#[tactic(auto, unfolding(crate::specs::Drawing::head_text))]
pub fn add_head(text: &mut String, width: u16, height: u128, style: &str) -> Result<(), AllocError>
    ensures { OnOk result (string_bytes text.new ≡ string_bytes text.old ++
        head_text width height style.now) }
{
    add_open(text, width, height)?;
    text.push_str("<style>")?;
    add_escaped(text, style)?;
    text.push_str("</style>\n")?;
    Ok(())
}

/// Adds the end of a drawing, after its last shape.
pub fn add_foot(text: &mut String) -> Result<(), AllocError>
    ensures { OnOk result (string_bytes text.new ≡ string_bytes text.old ++ foot_text) }
{
    text.push_str("</svg>\n")?;
    Ok(())
}

/// Adds the beginning of a group. All shapes of the group are moved across and down by this much.
#[tactic(auto, unfolding(crate::specs::Drawing::group_text))]
pub fn add_group(text: &mut String, across: u16, down: u128) -> Result<(), AllocError>
    ensures { OnOk result (string_bytes text.new ≡ string_bytes text.old ++
        group_text across down) }
{
    writeln!(text, "<g transform=\"translate({across} {down})\">")?;
    Ok(())
}

/// Adds the beginning of a group with a name, of which there can be copies.
#[tactic(auto, unfolding(crate::specs::Drawing::named_group_text))]
pub fn add_named_group(text: &mut String, name: &str) -> Result<(), AllocError>
    ensures { OnOk result (string_bytes text.new ≡ string_bytes text.old ++
        named_group_text name.now) }
{
    text.push_str("<g id=\"")?;
    add_escaped(text, name)?;
    text.push_str("\">\n")?;
    Ok(())
}

/// Adds the end of a group, after its last shape.
pub fn add_group_end(text: &mut String) -> Result<(), AllocError>
    ensures { OnOk result (string_bytes text.new ≡ string_bytes text.old ++ group_end_text) }
{
    text.push_str("</g>\n")?;
    Ok(())
}
