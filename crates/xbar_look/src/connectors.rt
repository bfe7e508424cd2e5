//! Who holds and who requests each connector, by the connectors' own words.

ghost use Rattle.std.specs.Prelude.{◌≡◌, ◌==◌, ◌<◌, ◌++◌, ◌||◌, nat_lt, IfOk, OnOk, Some, [], codes, decimal, length, map, slice_get, slice_index, string_bytes, if◌then◌else◌};
ghost use Rattle.turns.specs.Sharing.{held_by};
ghost use Rattle.turns.specs.Sharings.{preferring};
ghost use Rattle.xbar_equip.specs.Conn.{IsConn};
ghost use Rattle.xbar_equip.specs.Word.{ConnWord, word_count, word_number};
ghost use Rattle.xbar_json.specs.Json.{array, listed};
ghost use Rattle.xbar_look.specs.Connectors.{all_conns, connector_object, connector_objects, requesters};

use crate::values::{NumberValue, lead};
use std::alloc::AllocError;
use turns::lock_word::holder;
use xbar_equip::{Conn, conn_word};
use xbar_json::Json;

/// Whether the marker requests the connector of this word.
fn requests(marker: u32, word: u64) -> bool
    requires { marker < 48 }
    ensures { result ≡ preferring.requests marker word }
{
    word >> (8 + marker) & 1 == 1
}

/// Adds the marker's number, after a comma if `any` is told already, if the marker requests the
/// connector of this word. Returns whether any is told by then.
fn add_requester(text: &mut String, marker: u32, word: u64, any: bool) -> Result<bool, AllocError>
    requires { marker < 48 }
    ensures any { IfOk result (λ some. some ≡ (any || preferring.requests marker word)) }
    ensures text { OnOk result (string_bytes text.new ≡ string_bytes text.old ++
        (if preferring.requests marker word
        then (if any then codes "," else []) ++ decimal marker else [])) }
{
    if !requests(marker, word) {
        return Ok(any);
    }
    let lead = lead(any);
    write!(text, "{lead}{marker}")?;
    Ok(true)
}

/// Adds the numbers of the markers that request the connector of this word, with commas between
/// them.
fn add_listed_requesters(text: &mut String, word: u64) -> Result<(), AllocError>
    ensures { OnOk result (string_bytes text.new ≡ string_bytes text.old ++
        listed (map decimal (requesters word))) }
{
    let mut any = false;
    for marker in 0..48 {
        let some = add_requester(text, marker, word, any)?;
        any = some;
    }
    Ok(())
}

/// Adds the numbers of the markers that request the connector of this word, as an array.
fn add_requesters(text: &mut String, word: u64) -> Result<(), AllocError>
    ensures { OnOk result (string_bytes text.new ≡ string_bytes text.old ++
        array (map decimal (requesters word))) }
{
    text.push_str("[")?;
    add_listed_requesters(text, word)?;
    text.push_str("]")?;
    Ok(())
}

/// The marker that holds the connector of this word.
fn holder_of(word: u64) -> Option<u64>
    ensures { result ≡ held_by preferring word }
{
    match holder(word) {
        Some(marker) => Some(u64::from(marker)),
        None => None,
    }
}

/// Adds a connector with its word's number, the marker that holds it, and those that request it.
#[tactic(auto, unfolding(crate::specs::Connectors::connector_object))]
fn add_connector(text: &mut String, conn: Conn, word: u64) -> Result<(), AllocError>
    requires { IsConn conn }
    ensures { OnOk result (string_bytes text.new ≡ string_bytes text.old ++
        connector_object conn word) }
{
    let number = conn_word(conn).number();
    let holder = NumberValue(holder_of(word));
    text.push_str(r#"{"connector":"#)?;
    conn.add_json(text)?;
    write!(text, r#","word":{number},"holder":{holder},"requests":"#)?;
    add_requesters(text, word)?;
    text.push_str("}")?;
    Ok(())
}

/// The connector at this place among all: first those of the line link frames, then those of the
/// trunk link frames and of the groups.
fn conn_at(place: u8) -> Conn
    requires { place < 36 }
    ensures conn { slice_get all_conns place ≡ Some result }
    ensures range { IsConn result }
{
    if place < 10 {
        Conn::Llf(place)
    } else if place < 20 {
        Conn::Tlf(place - 10)
    } else {
        Conn::Group(place - 20)
    }
}

/// Adds a connector, after a comma if `any` is told already, if its word isn't 0. Returns whether
/// any is told by then.
fn add_if_in_use(text: &mut String, conn: Conn, word: u64, any: bool) -> Result<bool, AllocError>
    requires { IsConn conn }
    ensures any { IfOk result (λ some. some ≡ (any || nat_lt 0 word)) }
    ensures text { OnOk result (string_bytes text.new ≡ string_bytes text.old ++
        (if nat_lt 0 word then (if any then codes "," else []) ++ connector_object conn word
        else [])) }
{
    if word == 0 {
        return Ok(any);
    }
    text.push_str(lead(any))?;
    add_connector(text, conn, word)?;
    Ok(true)
}

/// The connector's word.
fn word_of(words: &[u64], conn: Conn) -> u64
    requires words { length words.now ≡ word_count }
    requires conn { IsConn conn }
    ensures { result ≡ slice_index words.now (word_number (ConnWord conn)) }
{
    words[usize::from(conn_word(conn).number())]
}

/// Adds the connectors that some marker holds or requests, with commas between them.
fn add_listed_connectors(text: &mut String, words: &[u64]) -> Result<(), AllocError>
    requires { length words.now ≡ word_count }
    ensures { OnOk result (string_bytes text.new ≡ string_bytes text.old ++
        listed (connector_objects words.now)) }
{
    let mut any = false;
    for place in 0..36 {
        let conn = conn_at(place);
        let some = add_if_in_use(text, conn, word_of(words, conn), any)?;
        any = some;
    }
    Ok(())
}

/// Adds the connectors that some marker holds or requests, as an array.
pub fn add_connectors(text: &mut String, words: &[u64]) -> Result<(), AllocError>
    requires { length words.now ≡ word_count }
    ensures { OnOk result (string_bytes text.new ≡ string_bytes text.old ++
        array (connector_objects words.now)) }
{
    text.push_str("[")?;
    add_listed_connectors(text, words)?;
    text.push_str("]")?;
    Ok(())
}
