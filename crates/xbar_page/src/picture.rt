//! The picture of the office, with each path that any turn sets up.

ghost use Rattle.std.specs.Prelude.{◌≡◌, ◌++◌, OnOk, filter, flat_map, length, string_bytes};
ghost use Rattle.xbar_page.specs.Picture.{last_count as last_count_of, picture_text, stay_text, until_text};
ghost use Rattle.xbar_page.specs.Stays.{stands_to_the_end as stands_to_the_end_of};

use crate::stays::Stay;
use std::alloc::{AllocError, Global};
use svg::add_escaped;
use xbar_office_drawing::{add_count, add_office, add_path_alone, add_shapes};
use xbar_office_text::path_end;
use xbar_plan::Plan;

/// What comes before the shapes.
const HEAD: &str = "\
<div id=\"frames\" tabindex=\"0\" role=\"region\" aria-label=\"The office\">\n\
<svg xmlns=\"http://www.w3.org/2000/svg\" viewBox=\"0 0 1600 900\" role=\"img\" \
aria-labelledby=\"name said\">\n\
<title id=\"name\">The frames of the office, and its paths</title>\n\
<desc id=\"said\">Ten line link frames at the left, ten trunk link frames at the \
right, and the junctors between them. A path is a line from a line to a trunk, with a \
dot at each of its four crosspoints.</desc>\n";

/// Adds the picture: the office, and each stay of a path.
#[tactic(auto, unfolding(crate::specs::Picture::picture_text))]
pub fn add_picture(
    alloc: Global,
    text: &mut String,
    plan: &Plan,
    stays: &[Stay],
) -> Result<(), AllocError>
    ensures { OnOk result (string_bytes text.new ≡ string_bytes text.old ++
        picture_text plan.now stays.now) }
{
    text.push_str(HEAD)?;
    add_shapes(text)?;
    text.push_str("<text x=\"16\" y=\"30\" class=\"big\" id=\"count\">")?;
    add_count(text, last_count(stays))?;
    text.push_str("</text>\n")?;
    add_office(alloc, text, plan)?;
    add_stays(alloc, text, plan, stays)?;
    text.push_str("</svg>\n</div>\n")?;
    Ok(())
}

/// Whether a path stands after the last turn.
fn stands_to_the_end(stay: &Stay) -> bool
    ensures { result ≡ stands_to_the_end_of stay.now }
{
    stay.until.is_none()
}

/// How many paths stand after the last turn.
fn last_count(stays: &[Stay]) -> usize
    ensures { result ≡ last_count_of stays.now }
{
    stays.iter().filter(|stay| stands_to_the_end(stay)).count()
}

fn add_stays(
    alloc: Global,
    text: &mut String,
    plan: &Plan,
    stays: &[Stay],
) -> Result<(), AllocError>
    ensures { OnOk result (string_bytes text.new ≡ string_bytes text.old ++
        flat_map (stay_text plan.now) stays.now) }
{
    for stay in stays {
        add_stay(alloc, text, plan, stay)?;
    }
    Ok(())
}

/// Adds the attribute with the turn that takes a path out, if one does.
fn add_until(text: &mut String, until: Option<usize>) -> Result<(), AllocError>
    ensures { OnOk result (string_bytes text.new ≡ string_bytes text.old ++ until_text until) }
{
    if let Some(turn) = until {
        write!(text, "\" data-until=\"{turn}")?;
    }
    Ok(())
}

/// Adds a path with the turn that sets it up and the turn that takes it out.
#[tactic(auto, unfolding(crate::specs::Picture::stay_text))]
fn add_stay(alloc: Global, text: &mut String, plan: &Plan, stay: &Stay) -> Result<(), AllocError>
    ensures { OnOk result (string_bytes text.new ≡ string_bytes text.old ++
        stay_text plan.now stay.now) }
{
    let Stay { path, from, until } = stay;
    let end = path_end(alloc, plan, path)?;
    write!(text, "<g data-from=\"{from}")?;
    add_until(text, *until)?;
    write!(text, "\">\n<title>{path}: ")?;
    add_escaped(text, end.as_str())?;
    text.push_str("</title>\n")?;
    add_path_alone(alloc, text, plan, path)?;
    text.push_str("</g>\n")?;
    Ok(())
}
