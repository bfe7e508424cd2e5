ghost use Rattle.std.specs.Prelude.{◌≡◌, ◌↔◌, IsTrue};
ghost use Rattle.command_rows.specs.Agreement.{IsMetBy};

use toml::Value;

/// What is expected on a stream.
#[derive(Clone, Copy)]
pub enum Expected<'a> {
    /// Exactly this.
    All(&'a str),
    /// A text that begins with this.
    Start(&'a str),
    /// A text that ends with this.
    End(&'a str),
}

impl Expected<'_> {
    /// Whether the bytes are as expected.
    pub fn is_met_by(&self, bytes: &[u8]) -> bool
        ensures { IsTrue result ↔ IsMetBy self.now bytes.now }
    {
        match self {
            Expected::All(text) => bytes == text.as_bytes(),
            Expected::Start(text) => bytes.starts_with(text.as_bytes()),
            Expected::End(text) => bytes.ends_with(text.as_bytes()),
        }
    }
}

/// What the program is given, and what it is expected to do.
#[derive(Drop)]
pub struct Row<'a> {
    pub name: &'a str,
    /// The program's name.
    pub program: &'a str,
    /// The words after it, separated by spaces.
    pub words: &'a str,
    /// The content of the plan's file. None if there is no file.
    pub plan: Option<&'a str>,
    pub input: &'a str,
    pub output: Expected<'a>,
    pub errors: Expected<'a>,
    /// The exit status.
    pub status: i64,
}

fn text_at<'a>(value: &'a Value, key: &str) -> Option<&'a str> {
    value.get(key)?.as_str()
}

/// What is expected on a stream, by the key for its start, its end or all of it.
fn expected_at<'a>(value: &'a Value, all: &str, start: &str, end: &str) -> Expected<'a> {
    match (text_at(value, start), text_at(value, end)) {
        (Some(text), _) => Expected::Start(text),
        (None, Some(text)) => Expected::End(text),
        (None, None) => Expected::All(text_at(value, all).unwrap_or("")),
    }
}

/// Reads a row. The defaults are the program's name `crossbar5`, no words, no input, nothing on
/// either stream, and status 0. None if the name is missing.
pub fn row_of(value: &Value) -> Option<Row<'_>> {
    Some(Row {
        name: text_at(value, "name")?,
        program: text_at(value, "program").unwrap_or("crossbar5"),
        words: text_at(value, "words").unwrap_or(""),
        plan: text_at(value, "plan"),
        input: text_at(value, "input").unwrap_or(""),
        output: expected_at(value, "output", "output_start", "output_end"),
        errors: expected_at(value, "errors", "errors_start", "errors_end"),
        status: value
            .get("status")
            .map_or(0, |status| status.as_integer().unwrap_or(-1)),
    })
}
