ghost use Rattle.std.specs.Prelude.{◌≡◌, ◌++◌, OnOk, codes, flat_map, map, string_bytes};
ghost use Rattle.svg.specs.Figure.{bend_text, figure_of, figure_text, in_class, point_text};
ghost use Rattle.svg.specs.declared.shape.ShapeOf.TheVariants.{Copy, Text, Trail};

use crate::escape::add_escaped;
use crate::shape::{Bend, Point, Shape};
use std::alloc::AllocError;

/// Adds the elements of shapes, each on a line of its own. If memory runs out, a part of them may
/// have been added.
pub fn add_shapes(text: &mut String, shapes: &[Shape<'_>]) -> Result<(), AllocError>
    ensures { OnOk result (string_bytes text.new ≡ string_bytes text.old ++
        flat_map figure_text (map figure_of shapes.now)) }
{
    for shape in shapes {
        add_shape(text, shape)?;
    }
    Ok(())
}

/// Adds the element of a shape, as `add_shapes` does.
#[tactic(auto, unfolding(crate::specs::Figure::figure_text))]
pub fn add_shape(text: &mut String, shape: &Shape<'_>) -> Result<(), AllocError>
    ensures { OnOk result (string_bytes text.new ≡ string_bytes text.old ++
        figure_text (figure_of shape.now)) }
{
    match *shape {
        Shape::Rectangle(Point(x, y), width, height, class) => {
            write!(
                text,
                "<rect x=\"{x}\" y=\"{y}\" width=\"{width}\" height=\"{height}\""
            )?;
            add_tail(text, class)
        }
        Shape::Line(Point(x, y), to, class) => {
            write!(
                text,
                "<line x1=\"{x}\" y1=\"{y}\" x2=\"{}\" y2=\"{}\"",
                to.0, to.1
            )?;
            add_tail(text, class)
        }
        Shape::Circle(Point(x, y), radius, class) => {
            write!(text, "<circle cx=\"{x}\" cy=\"{y}\" r=\"{radius}\"")?;
            add_tail(text, class)
        }
        Shape::Trail(from, bends, class) => add_trail(text, from, bends, class),
        Shape::Text(at, class, content) => add_words(text, at, class, content),
        Shape::Copy(at, name) => add_copy(text, at, name),
    }
}

#[tactic(auto, unfolding(crate::specs::Figure::figure_text))]
fn add_trail(text: &mut String, from: Point, bends: &[Bend], class: &str) -> Result<(), AllocError>
    ensures { OnOk result (string_bytes text.new ≡ string_bytes text.old ++
        figure_text (Trail from bends.now class.now)) }
{
    text.push_str("<path d=\"M")?;
    add_point(text, from)?;
    add_bends(text, bends)?;
    text.push_str("\"")?;
    add_tail(text, class)
}

/// Adds the two numbers of a point.
#[tactic(auto, unfolding(crate::specs::Figure::point_text))]
fn add_point(text: &mut String, at: Point) -> Result<(), AllocError>
    ensures { OnOk result (string_bytes text.new ≡ string_bytes text.old ++ point_text at) }
{
    write!(text, "{} {}", at.0, at.1)?;
    Ok(())
}

fn add_bends(text: &mut String, bends: &[Bend]) -> Result<(), AllocError>
    ensures { OnOk result (string_bytes text.new ≡ string_bytes text.old ++
        flat_map bend_text bends.now) }
{
    for bend in bends {
        add_bend(text, *bend)?;
    }
    Ok(())
}

/// Adds a bend as a command of a path.
#[tactic(auto, unfolding(crate::specs::Figure::bend_text))]
fn add_bend(text: &mut String, bend: Bend) -> Result<(), AllocError>
    ensures { OnOk result (string_bytes text.new ≡ string_bytes text.old ++ bend_text bend) }
{
    match bend {
        Bend::To(to) => {
            text.push_str("L")?;
            add_point(text, to)
        }
        Bend::Curve(first, second, to) => {
            text.push_str("C")?;
            add_point(text, first)?;
            text.push_str(" ")?;
            add_point(text, second)?;
            text.push_str(" ")?;
            add_point(text, to)
        }
    }
}

#[tactic(auto, unfolding(crate::specs::Figure::figure_text))]
fn add_copy(text: &mut String, at: Point, name: &str) -> Result<(), AllocError>
    ensures { OnOk result (string_bytes text.new ≡ string_bytes text.old ++
        figure_text (Copy at name.now)) }
{
    text.push_str("<use href=\"#")?;
    add_escaped(text, name)?;
    writeln!(text, "\" x=\"{}\" y=\"{}\"/>", at.0, at.1)?;
    Ok(())
}

#[tactic(auto, unfolding(crate::specs::Figure::figure_text))]
fn add_words(text: &mut String, at: Point, class: &str, content: &str) -> Result<(), AllocError>
    ensures { OnOk result (string_bytes text.new ≡ string_bytes text.old ++
        figure_text (Text at class.now content.now)) }
{
    write!(text, "<text x=\"{}\" y=\"{}\"", at.0, at.1)?;
    add_class(text, class)?;
    text.push_str(">")?;
    add_escaped(text, content)?;
    text.push_str("</text>\n")?;
    Ok(())
}

/// Adds the class of an element, and its end.
fn add_tail(text: &mut String, class: &str) -> Result<(), AllocError>
    ensures { OnOk result (string_bytes text.new ≡ string_bytes text.old ++
        (in_class class.now ++ codes "/>\n")) }
{
    add_class(text, class)?;
    text.push_str("/>\n")?;
    Ok(())
}

fn add_class(text: &mut String, class: &str) -> Result<(), AllocError>
    ensures { OnOk result (string_bytes text.new ≡ string_bytes text.old ++ in_class class.now) }
{
    text.push_str(" class=\"")?;
    add_escaped(text, class)?;
    text.push_str("\"")?;
    Ok(())
}
