ghost use Rattle.std.specs.Prelude.{◌≡◌, ◌++◌, OnOk, flat_map, string_bytes};
ghost use Rattle.xbar_office_text.specs.Glance.{glance, glance_line};

use crate::ends::PathUse;
use std::alloc::AllocError;
use xbar_equip::Path;
use xbar_plan::Plan;

/// Adds all paths at a glance, a line each, or that there is none.
#[tactic(auto, unfolding(crate::specs::Glance::glance))]
pub fn add_glance(text: &mut String, plan: &Plan, paths: &[Path]) -> Result<(), AllocError>
    ensures { OnOk result (string_bytes text.new ≡ string_bytes text.old ++
        glance plan.now paths.now) }
{
    if paths.is_empty() {
        text.push_str("No path is up.\n")?;
    } else {
        text.push_str("PATHS AT A GLANCE\n")?;
        add_glance_lines(text, plan, paths)?;
    }
    Ok(())
}

fn add_glance_lines(text: &mut String, plan: &Plan, paths: &[Path]) -> Result<(), AllocError>
    ensures { OnOk result (string_bytes text.new ≡ string_bytes text.old ++
        flat_map (glance_line plan.now) paths.now) }
{
    for path in paths {
        add_glance_line(text, plan, path)?;
    }
    Ok(())
}

#[tactic(auto, unfolding(crate::specs::Glance::glance_line))]
fn add_glance_line(text: &mut String, plan: &Plan, path: &Path) -> Result<(), AllocError>
    ensures { OnOk result (string_bytes text.new ≡ string_bytes text.old ++
        glance_line plan.now path.now) }
{
    let Path {
        line,
        channel,
        place,
    } = path;
    let line_frame = path.line.frame();
    let trunk_frame = path.place.frame();
    let path_use = PathUse(plan, path);
    writeln!(
        text,
        "{line} --[frame {line_frame}]-- channel {channel} \
        --[frame {trunk_frame}]-- {place}   {path_use}"
    )?;
    Ok(())
}
