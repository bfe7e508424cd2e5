ghost use Rattle.std.specs.Prelude.{◌≡◌, ◌++◌, ◌∷◌, [], OnOk, string_bytes};
ghost use Rattle.std.specs.List.{concat};
ghost use Rattle.xbar_office_text.specs.PathLines.{edges_line, frames_line, links_line, path_lines, title_line};

use super::table::{add_fields, add_switches, add_values, add_words};
use std::alloc::AllocError;
use xbar_equip::Path;

/// The lower edges of the two frames.
const EDGES: &str = "         +-----------------------+         +-----------------------+\n";

/// Adds the picture of a path for a terminal, in eight lines. `member` names what the path leads
/// to, as in `register REG 0`. If memory runs out, a part of the picture may have been added.
#[tactic(auto, unfolding(crate::specs::PathLines::path_lines))]
pub fn add_path_lines(text: &mut String, path: &Path, member: &str) -> Result<(), AllocError>
    ensures { OnOk result (string_bytes text.new ≡ string_bytes text.old ++
        path_lines path.now member.now) }
{
    add_way(text, path, member)?;
    add_switches(text, path)?;
    add_words(text, path)?;
    add_fields(text, path)?;
    add_values(text, path)?;
    Ok(())
}

/// Adds the title of a path, and its way through the two frames.
fn add_way(text: &mut String, path: &Path, member: &str) -> Result<(), AllocError>
    ensures { OnOk result (string_bytes text.new ≡ string_bytes text.old ++
        concat (title_line path.now member.now ∷ frames_line path.now ∷ links_line path.now
        ∷ edges_line ∷ [])) }
{
    let Path {
        line,
        channel,
        place,
    } = path;
    let line_frame = path.line.frame();
    let trunk_frame = path.place.frame();
    let line_link = path.line_link();
    let junctor = path.junctor();
    let trunk_link = path.trunk_link();
    writeln!(text, "{path}: line {line} to {member}, channel {channel}")?;
    writeln!(
        text,
        "         +-- line link frame {line_frame} --+         \
         +- trunk link frame {trunk_frame} --+"
    )?;
    writeln!(
        text,
        "{line} ----X-------- {line_link} --------X--{junctor}\
        --X-------- {trunk_link} --------X---- {place}"
    )?;
    text.push_str(EDGES)?;
    Ok(())
}
