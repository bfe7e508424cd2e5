//! A trouble card as a punched card with one corner cut.

ghost use Rattle.std.specs.Prelude.{◌≡◌, ◌++◌, OnOk, map, string_bytes};
ghost use Rattle.xbar_office_drawing.specs.CardFace.{card_face, kind_point as kind_point_of, link_holes as link_holes_of, number_entry};
ghost use Rattle.svg.specs.Figure.{figure_of};
ghost use Rattle.xbar_office_drawing.specs.Figures.{figures_text};

use crate::owned_card::OwnedCard;
use crate::shapes::digit_point;
use std::alloc::{AllocError, Global};
use svg::{Point, Shape, add_shape, add_shapes};
use xbar_equip::{Link, LinkKind};
use xbar_office_text::digit_names;

// Where each number of a card is, with its name.
const TURN: (u16, &str) = (40, "turn");

const JOB: (u16, &str) = (230, "job");

const MARKER: (u16, &str) = (330, "marker");

const TRIAL: (u16, &str) = (430, "trial");

/// Adds a card: a blank one, what is printed on it, and its holes.
#[tactic(auto, unfolding(crate::specs::CardFace::card_face))]
pub fn add_card(alloc: Global, text: &mut String, owned: &OwnedCard) -> Result<(), AllocError>
    ensures { OnOk result (string_bytes text.new ≡ string_bytes text.old ++
        figures_text (card_face owned.now)) }
{
    let link = owned.card.link;
    let told = format!(in alloc; "{link} is faulty")?;
    let title = [
        Shape::Copy(Point(0, 0), "blank-card"),
        Shape::Text(Point(40, 34), "big", "TROUBLE"),
        Shape::Text(Point(460, 34), "told", told.as_str()),
    ];
    add_shapes(text, &title)?;
    add_entry(alloc, text, TURN, owned.turn)?;
    add_entry(alloc, text, JOB, u64::from(owned.job_no))?;
    add_entry(alloc, text, MARKER, u64::from(owned.marker))?;
    add_entry(alloc, text, TRIAL, u64::from(owned.card.trial))?;
    add_shapes(text, &link_holes(link))?;
    Ok(())
}

/// Adds a number of the card, below its name.
fn add_entry(
    alloc: Global,
    text: &mut String,
    place: (u16, &str),
    value: u64,
) -> Result<(), AllocError>
    ensures { OnOk result (string_bytes text.new ≡ string_bytes text.old ++
        figures_text (number_entry place.entry.0 place.entry.1.now value)) }
{
    let (left, name) = place;
    let content = format!(in alloc; "{value}")?;
    add_shape(text, &Shape::Text(Point(left, 60), "small", name))?;
    add_shape(
        text,
        &Shape::Text(Point(left, 80), "plain", content.as_str()),
    )
}

/// A link as it is punched: the hole of its kind, and each of its digits, a name and a hole in its
/// row.
fn link_holes(link: Link) -> [Shape<'static>; 7]
    ensures { map figure_of result ≡ link_holes_of link }
{
    let kind = link.kind();
    let (first, second) = digit_names(kind);
    [
        Shape::Rectangle(kind_point(kind), 9, 15, "hole"),
        Shape::Text(Point(178, 155), "end", first),
        Shape::Rectangle(digit_point(0, link.frame()), 9, 15, "hole"),
        Shape::Text(Point(178, 181), "end", second),
        Shape::Rectangle(digit_point(1, link.at()), 9, 15, "hole"),
        Shape::Text(Point(178, 207), "end", "channel"),
        Shape::Rectangle(digit_point(2, link.channel()), 9, 15, "hole"),
    ]
}

/// The upper left corner of the place of a kind of link.
fn kind_point(kind: LinkKind) -> Point
    ensures { result ≡ kind_point_of kind }
{
    match kind {
        LinkKind::LineLink => Point(140, 98),
        LinkKind::Junctor => Point(250, 98),
        LinkKind::TrunkLink => Point(360, 98),
    }
}
