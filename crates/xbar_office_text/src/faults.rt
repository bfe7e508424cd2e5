//! The links that are out of order, by the plan's list.

ghost use Rattle.std.specs.Prelude.{◌≡◌, ◌++◌, ◌≤◌, IfOk, OnOk, Some, filter, flat_map, string_bytes};
ghost use Rattle.xbar_equip.specs.Link.{Link as TheLink};
ghost use Rattle.xbar_plan.specs.Tables.{is_faulty};
ghost use Rattle.xbar_office_text.specs.Faults.{fault_line, fault_lines, faults_of as faults_of_plan, first_links, whereabouts};

use std::alloc::{AllocError, Global};
use std::fmt;
use xbar_equip::{Link, LinkKind};
use xbar_plan::Plan;

/// Adds a line for each link that is out of order, below a heading. Adds nothing if there is none.
pub fn add_faults(alloc: Global, text: &mut String, plan: &Plan) -> Result<(), AllocError>
    ensures { OnOk result (string_bytes text.new ≡ string_bytes text.old ++
        fault_lines (faults_of_plan plan.now)) }
{
    let links = faults_of(alloc, plan)?;
    add_fault_lines(text, &links)?;
    Ok(())
}

/// The links that are out of order, by kind, then by their digits.
#[tactic(auto, unfolding(crate::specs::Faults::faults_of))]
fn faults_of(alloc: Global, plan: &Plan) -> Result<Vec<Link>, AllocError>
    ensures { IfOk result (λ links. links.items ≡ faults_of_plan plan.now) }
{
    let mut links = Vec::new(alloc);
    add_faulty(&mut links, plan, LinkKind::LineLink, 1000)?;
    add_faulty(&mut links, plan, LinkKind::Junctor, 1000)?;
    add_faulty(&mut links, plan, LinkKind::TrunkLink, 1000)?;
    Ok(links)
}

/// Adds those of the first `count` links of a kind that are out of order.
#[tactic(auto, unfolding(crate::specs::Faults::first_links))]
fn add_faulty(
    links: &mut Vec<Link>,
    plan: &Plan,
    kind: LinkKind,
    count: u16,
) -> Result<(), AllocError>
    requires { count ≤ 1000 }
    ensures { OnOk result (links.new.items ≡ links.old.items ++
        filter (is_faulty plan.now) (first_links kind count)) }
{
    for number in 0..count {
        let frame = (number / 100) as u8;
        let at = (number / 10 % 10) as u8;
        let channel = (number % 10) as u8;
        let link = Link::new(kind, frame, at, channel);
        if plan.faulty(link) {
            links.push(link)?;
        }
    }
    Ok(())
}

#[tactic(auto, unfolding(crate::specs::Faults::fault_lines))]
fn add_fault_lines(text: &mut String, links: &[Link]) -> Result<(), AllocError>
    ensures { OnOk result (string_bytes text.new ≡ string_bytes text.old ++
        fault_lines links.now) }
{
    if !links.is_empty() {
        text.push_str("\nLINKS OUT OF ORDER\n")?;
        add_each_line(text, links)?;
    }
    Ok(())
}

#[tactic(auto, unfolding(crate::specs::Faults::fault_line))]
fn add_each_line(text: &mut String, links: &[Link]) -> Result<(), AllocError>
    ensures { OnOk result (string_bytes text.new ≡ string_bytes text.old ++
        flat_map fault_line links.now) }
{
    for link in links {
        let channel = link.channel();
        let place = Whereabouts(*link);
        writeln!(text, "{link}: channel {channel}, {place}")?;
    }
    Ok(())
}

/// Where a link is.
#[derive(Clone, Copy)]
struct Whereabouts(Link);

impl fmt::Display for Whereabouts {
    ghost output = { λ place. Some (whereabouts place.0.kind place.0) };

    fn fmt<W: fmt::Write>(&self, f: &mut fmt::Formatter<W>) -> fmt::Result {
        let Whereabouts(link) = *self;
        let frame = link.frame();
        let at = link.at();
        match link.kind() {
            LinkKind::LineLink => write!(f, "at line switch {frame},{at}"),
            LinkKind::Junctor => {
                write!(f, "from line link frame {frame} to trunk link frame {at}")
            }
            LinkKind::TrunkLink => write!(f, "at trunk switch {frame},{at}"),
        }
    }
}
