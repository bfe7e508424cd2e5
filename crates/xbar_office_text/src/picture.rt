ghost use Rattle.std.specs.Prelude.{◌≡◌, ◌++◌, OnOk, flat_map, string_bytes};
ghost use Rattle.xbar_office_text.specs.Picture.{heading as heading_of, picture};

use crate::ends::{ends_at_register, path_end};
use crate::path::add_path_lines;
use std::alloc::{AllocError, Global};
use xbar_equip::Path;
use xbar_plan::Plan;

/// Adds each path in eight lines, below a heading.
pub fn add_pictures(
    alloc: Global,
    text: &mut String,
    plan: &Plan,
    paths: &[Path],
) -> Result<(), AllocError>
    ensures { OnOk result (string_bytes text.new ≡ string_bytes text.old ++
        flat_map (picture plan.now) paths.now) }
{
    for path in paths {
        add_picture(alloc, text, plan, path)?;
    }
    Ok(())
}

#[tactic(auto, unfolding(crate::specs::Picture::heading))]
fn heading(plan: &Plan, path: &Path) -> &'static str
    ensures { result.now ≡ heading_of plan.now path.now }
{
    if ends_at_register(plan, path) {
        "\nA REGISTER'S PATH\n"
    } else {
        "\nA CALL'S PATH\n"
    }
}

#[tactic(auto, unfolding(crate::specs::Picture::picture))]
fn add_picture(alloc: Global, text: &mut String, plan: &Plan, path: &Path) -> Result<(), AllocError>
    ensures { OnOk result (string_bytes text.new ≡ string_bytes text.old ++
        picture plan.now path.now) }
{
    text.push_str(heading(plan, path))?;
    let end = path_end(alloc, plan, path)?;
    add_path_lines(text, path, end.as_str())?;
    Ok(())
}
