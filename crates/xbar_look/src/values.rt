//! Values that several texts have.

ghost use Rattle.std.specs.Prelude.{◌≡◌, ◌++◌, OnOk, Some, [], codes, decimal, option_map, string_bytes, if◌then◌else◌};
ghost use Rattle.xbar_json.specs.Json.{value_or_null};
ghost use Rattle.xbar_json.specs.Office.{conn_object};
ghost use Rattle.xbar_look.specs.Markers.{kind_name as name_of_kind};

use std::alloc::AllocError;
use std::fmt;
use xbar_core::Kind;
use xbar_equip::Conn;
use xbar_json::Json;

/// A number; `null` if there is none.
#[derive(Clone, Copy)]
pub struct NumberValue(pub Option<u64>);

impl fmt::Display for NumberValue {
    ghost output = { λ value. Some (value_or_null (option_map decimal value.0)) };

    fn fmt<W: fmt::Write>(&self, f: &mut fmt::Formatter<W>) -> fmt::Result {
        match self.0 {
            Some(number) => write!(f, "{number}"),
            None => f.write_str("null"),
        }
    }
}

/// Adds a connector as an object; `null` if there is none.
pub fn add_conn_value(text: &mut String, conn: Option<Conn>) -> Result<(), AllocError>
    ensures { OnOk result (string_bytes text.new ≡ string_bytes text.old ++
        value_or_null (option_map conn_object conn)) }
{
    match conn {
        Some(conn) => conn.add_json(text),
        None => write!(text, "null"),
    }
}

/// The text before an item of a list: a comma, unless there is none before it.
pub fn lead(any: bool) -> &'static str
    ensures { result.now ≡ (if any then codes "," else []) }
{
    if any { "," } else { "" }
}

/// The name of a kind of marker.
pub fn kind_name(kind: Kind) -> &'static str
    ensures { result.now ≡ name_of_kind kind }
{
    match kind {
        Kind::Dial => "dial tone",
        Kind::Completing => "completing",
        Kind::Combined => "combined",
    }
}
