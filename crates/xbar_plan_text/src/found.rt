use std::fmt;
use toml::Value;

/// What was found in a document where something else was expected.
#[derive(Clone, Copy, Debug, PartialEq, Eq)]
pub enum Found {
    Integer(i64),
    /// Something else, or nothing, in words.
    Other(&'static str),
}

impl Found {
    /// The value at a key, if there is one, or an item.
    pub(crate) fn of(value: Option<&Value>) -> Self {
        Found::Other(match value {
            Some(Value::Integer(number)) => return Found::Integer(*number),
            None => "nothing",
            Some(Value::String(_)) => "a string",
            Some(Value::Float(_)) => "a float",
            Some(Value::Boolean(_)) => "a boolean",
            Some(Value::Datetime(_)) => "a date or time",
            Some(Value::Array(_)) => "an array",
            Some(Value::Table(_)) => "a table",
        })
    }
}

impl fmt::Display for Found {
    fn fmt<W: fmt::Write>(&self, f: &mut fmt::Formatter<W>) -> fmt::Result {
        match self {
            Found::Integer(number) => write!(f, "{number}"),
            Found::Other(words) => f.write_str(words),
        }
    }
}
