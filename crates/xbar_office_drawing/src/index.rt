//! The index of the paths.

ghost use Rattle.std.specs.Prelude.{◌≡◌, ◌++◌, IfOk, OnOk, Some, string_bytes};
ghost use Rattle.xbar_office_drawing.specs.Figures.{figures_text};
ghost use Rattle.xbar_office_drawing.specs.Index.{entry, joined_text as joined_text_of, number_before};

use crate::names::first_number;
use crate::path_in_office::use_classes;
use std::alloc::{AllocError, Global};
use std::fmt;
use svg::{Point, Shape, add_shapes};
use xbar_equip::{DirNo, Path};
use xbar_office_text::PathMember;
use xbar_plan::Plan;

/// The number of a line, if it has one, before what its path leads to.
#[derive(Clone, Copy)]
struct NumberBefore(Option<DirNo>);

impl fmt::Display for NumberBefore {
    ghost output = { λ number. Some (number_before number.0) };

    fn fmt<W: fmt::Write>(&self, f: &mut fmt::Formatter<W>) -> fmt::Result {
        match self.0 {
            None => Ok(()),
            Some(number) => write!(f, "{number} "),
        }
    }
}

/// What a path joins: the number of its line, if it has one, and the member where it ends.
#[tactic(auto, unfolding(crate::specs::Index::joined_text))]
fn joined_text(alloc: Global, plan: &Plan, path: &Path) -> Result<String, AllocError>
    ensures { IfOk result (λ text. string_bytes text ≡ joined_text_of plan.now path.now) }
{
    let number = NumberBefore(first_number(plan, path.line));
    let member = PathMember(plan, path);
    let joined = format!(in alloc; "{number}to {member}")?;
    Ok(joined)
}

/// Adds an entry of the index: how the path is drawn, its text, and what it joins.
#[tactic(auto, unfolding(crate::specs::Index::entry))]
pub fn add_entry(
    alloc: Global,
    text: &mut String,
    plan: &Plan,
    path: &Path,
) -> Result<(), AllocError>
    ensures { OnOk result (string_bytes text.new ≡ string_bytes text.old ++
        figures_text (entry plan.now path.now)) }
{
    let name = format!(in alloc; "{path}")?;
    let joined = joined_text(alloc, plan, path)?;
    let (edge, core) = use_classes(plan, path);
    let sample = [
        Shape::Line(Point(0, 15), Point(30, 15), edge),
        Shape::Line(Point(0, 15), Point(30, 15), core),
    ];
    let words = [
        Shape::Text(Point(40, 20), "plain", name.as_str()),
        Shape::Text(Point(134, 20), "plain", joined.as_str()),
    ];
    add_shapes(text, &sample)?;
    add_shapes(text, &words)?;
    Ok(())
}
