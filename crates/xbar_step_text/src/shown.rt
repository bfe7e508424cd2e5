//! What a word shows: the closed fields of a switch, or the busy members of a group.

ghost use Rattle.std.specs.Prelude.{◌≡◌, ◌<◌, ◌++◌, ◌||◌, IfOk, OnOk, Some, [], string_bytes, if◌then◌else◌};
ghost use Rattle.xbar_step_text.specs.Shown.{has_any, held_at as held_at_of, is_shown, item_name, listed, positions as positions_of, shown, shown_at};

use crate::names::{LineName, LinkName, TrunkName};
use crate::place::Place;
use std::alloc::AllocError;
use std::fmt;
use xbar_equip::LinkKind;
use xbar_switch::{Shape, field};

/// The number of positions in the word of a place: the fields of a switch, the bits of a group.
#[tactic(auto, unfolding(crate::specs::Shown::positions))]
pub fn positions(place: Place) -> u8
    ensures value { result ≡ positions_of place }
    ensures range { result < 65 }
{
    match place {
        Place::Group(_) => 64,
        Place::Other(_) => 0,
        _ => 10,
    }
}

/// The value at a position: that of a field, 0 if it is open, or a member's bit.
#[tactic(auto, unfolding(crate::specs::Shown::positions, crate::specs::Shown::held_at))]
pub fn held_at(place: Place, word: u64, position: u8) -> u8
    requires { position < positions_of place }
    ensures { result ≡ held_at_of place word position }
{
    match place {
        Place::LineSwitch(_, _) => field(Shape::Line, word, position),
        Place::Group(_) => (word >> position & 1) as u8,
        Place::Other(_) => 0,
        _ => field(Shape::Other, word, position),
    }
}

/// What a closed field joins, or a busy member of a group.
#[derive(Clone, Copy)]
pub struct Item {
    pub place: Place,
    pub position: u8,
    pub at: u8,
}

impl fmt::Display for Item {
    ghost output = { λ item. Some (item_name item.place item.position item.at) };

    #[tactic(auto, unfolding(crate::specs::Shown::item_name))]
    fn fmt<W: fmt::Write>(&self, f: &mut fmt::Formatter<W>) -> fmt::Result {
        let Item {
            place,
            position,
            at,
        } = *self;
        match place {
            Place::LineSwitch(frame, switch) => {
                let line = LineName(frame, switch, at);
                let line_link = LinkName(LinkKind::LineLink, frame, switch, position);
                write!(f, "{line} and {line_link}")
            }
            Place::LineJunctor(frame, channel) => {
                let line_link = LinkName(LinkKind::LineLink, frame, at, channel);
                let junctor = LinkName(LinkKind::Junctor, frame, position, channel);
                write!(f, "{line_link} and {junctor}")
            }
            Place::TrunkJunctor(frame, channel) => {
                let junctor = LinkName(LinkKind::Junctor, position, frame, channel);
                let trunk_link = LinkName(LinkKind::TrunkLink, frame, at, channel);
                write!(f, "{junctor} and {trunk_link}")
            }
            Place::TrunkSwitch(frame, switch) => {
                let trunk_link = LinkName(LinkKind::TrunkLink, frame, switch, position);
                let trunk = TrunkName(frame, switch, at);
                write!(f, "{trunk_link} and {trunk}")
            }
            Place::Group(_) | Place::Other(_) => write!(f, "{position}"),
        }
    }
}

/// The text before an item: the separator, or the head if it is the first item.
pub fn lead<'t>(any: bool, head: &'t str, separator: &'t str) -> &'t str
    ensures { result.now ≡ (if any then separator.now else head.now) }
{
    if any { separator } else { head }
}

/// Adds the item at a position, if there is one. Returns whether any item has been added so far.
#[tactic(auto, unfolding(crate::specs::Shown::shown_at))]
fn add_item(
    text: &mut String,
    place: Place,
    word: u64,
    position: u8,
    any: bool,
    head: &str,
    separator: &str,
) -> Result<bool, AllocError>
    requires { position < positions_of place }
    ensures any { IfOk result (λ some. some ≡ (any || is_shown place word position)) }
    ensures text { OnOk result (string_bytes text.new ≡ string_bytes text.old ++
        shown_at place word position (if any then separator.now else head.now)) }
{
    let held = held_at(place, word, position);
    if held == 0 {
        return Ok(any);
    }
    let at = held - 1;
    let item = Item {
        place,
        position,
        at,
    };
    let lead = lead(any, head, separator);
    write!(text, "{lead}{item}")?;
    Ok(true)
}

/// Adds all items that a word shows, after a head and with separators between them. Returns
/// whether there are any.
pub fn add_items(
    text: &mut String,
    place: Place,
    word: u64,
    head: &str,
    separator: &str,
) -> Result<bool, AllocError>
    ensures any { IfOk result (λ any. any ≡ has_any (shown place word)) }
    ensures text { OnOk result (string_bytes text.new ≡ string_bytes text.old ++
        listed [] head.now separator.now (shown place word)) }
{
    let mut any = false;
    for position in 0..positions(place) {
        let some = add_item(text, place, word, position, any, head, separator)?;
        any = some;
    }
    Ok(any)
}

/// Adds all items that a word shows, as `add_items` does, or the text `none` if there are none.
pub fn add_shown(
    text: &mut String,
    place: Place,
    word: u64,
    none: &str,
    head: &str,
    separator: &str,
) -> Result<(), AllocError>
    ensures { OnOk result (string_bytes text.new ≡ string_bytes text.old ++
        listed none.now head.now separator.now (shown place word)) }
{
    let any = add_items(text, place, word, head, separator)?;
    if any {
        return Ok(());
    }
    text.push_str(none)?;
    Ok(())
}
