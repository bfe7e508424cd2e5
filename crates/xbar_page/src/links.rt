//! Links from section to section.

ghost use Rattle.std.specs.Prelude.{◌≡◌, ◌++◌, None, OnOk, Some, string_bytes};
ghost use Rattle.xbar_page.specs.Links.{link_to, nav_text, next_link, section_name, start_nav_text};

use std::alloc::AllocError;
use std::fmt;

/// Where the links of a turn lead: to the turns before and after it, if there are any.
#[derive(Clone, Copy)]
pub struct Links {
    pub before: Option<u64>,
    pub after: Option<u64>,
}

/// The name of the section of a turn; without a turn, of the office before all turns.
#[derive(Clone, Copy)]
pub struct SectionName(pub Option<u64>);

impl fmt::Display for SectionName {
    ghost output = { λ name. Some (section_name name.0) };

    #[tactic(auto, unfolding(crate::specs::Links::section_name))]
    fn fmt<W: fmt::Write>(&self, f: &mut fmt::Formatter<W>) -> fmt::Result {
        match self.0 {
            None => f.write_str("start"),
            Some(turn) => write!(f, "turn{turn}"),
        }
    }
}

/// Adds a link to a section.
#[tactic(auto, unfolding(crate::specs::Links::link_to))]
fn add_link(
    text: &mut String,
    relation: &str,
    to: Option<u64>,
    label: &str,
) -> Result<(), AllocError>
    ensures { OnOk result (string_bytes text.new ≡ string_bytes text.old ++
        link_to relation.now to label.now) }
{
    let name = SectionName(to);
    writeln!(text, "<a rel=\"{relation}\" href=\"#{name}\">{label}</a>")?;
    Ok(())
}

/// Adds the link to the turn after, or only its label if there is none.
#[tactic(auto, unfolding(crate::specs::Links::next_link))]
fn add_next_link(text: &mut String, to: Option<u64>) -> Result<(), AllocError>
    ensures { OnOk result (string_bytes text.new ≡ string_bytes text.old ++ next_link to) }
{
    match to {
        None => {
            text.push_str("<span>after &#8594;</span>\n")?;
            Ok(())
        }
        Some(turn) => add_link(text, "next", Some(turn), "after &#8594;"),
    }
}

/// Adds the links of a turn.
#[tactic(auto, unfolding(crate::specs::Links::nav_text))]
pub fn add_nav(text: &mut String, links: Links) -> Result<(), AllocError>
    ensures { OnOk result (string_bytes text.new ≡ string_bytes text.old ++ nav_text links) }
{
    text.push_str("<nav>\n")?;
    add_link(text, "prev", links.before, "&#8592; before")?;
    add_next_link(text, links.after)?;
    text.push_str("</nav>\n")?;
    Ok(())
}

/// Adds the links of the office before all turns.
#[tactic(auto, unfolding(crate::specs::Links::start_nav_text))]
pub fn add_start_nav(text: &mut String, first: Option<u64>) -> Result<(), AllocError>
    ensures { OnOk result (string_bytes text.new ≡ string_bytes text.old ++
        start_nav_text first) }
{
    text.push_str("<nav>\n")?;
    add_next_link(text, first)?;
    text.push_str("</nav>\n")?;
    Ok(())
}
