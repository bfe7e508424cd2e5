use crossbar5_task::{TASKS, Task};
use std::alloc::{AllocError, Global};
use toml::Value;

/// What the engine is to do.
#[derive(Clone, Copy)]
pub enum Verb {
    Task(Task),
    /// A replay, and then an audit of what it wrote.
    ReplayAndAudit,
}

/// What the engine is given, and what it is expected to do.
#[derive(Drop)]
pub struct Row<'a> {
    pub name: &'a str,
    pub verb: Verb,
    /// The letters of the markers' kinds.
    pub markers: &'a str,
    pub plan: &'a str,
    pub input: &'a str,
    pub output: &'a str,
    /// The exit status that the program ends with.
    pub status: i64,
    /// The sentence on what is refused, if the row has it.
    pub diagnostic: Option<&'a str>,
}

fn text_at<'a>(value: &'a Value, key: &str) -> Option<&'a str> {
    value.get(key)?.as_str()
}

fn verb_of(word: &str) -> Option<Verb> {
    if word == "replay and audit" {
        return Some(Verb::ReplayAndAudit);
    }
    let task = TASKS.iter().find(|task| task.name() == word)?;
    Some(Verb::Task(*task))
}

/// Adds a line of the plan, with the row's value if it has one. An empty value drops the line.
fn add_line(plan: &mut String, value: &Value, line: &str) -> Result<(), AllocError> {
    let (key, _) = line.split_once(" = ").unwrap_or((line, ""));
    match text_at(value, key) {
        None => writeln!(plan, "{line}")?,
        Some("") => {}
        Some(changed) => writeln!(plan, "{key} = {changed}")?,
    }
    Ok(())
}

/// The row's plan: its own text, or the example with the lines that the row replaces.
pub fn plan_of(alloc: Global, value: &Value, example: &str) -> Result<String, AllocError> {
    if let Some(plan) = text_at(value, "plan") {
        return String::from_str(alloc, plan);
    }
    let mut plan = String::new(alloc);
    for line in example.lines() {
        add_line(&mut plan, value, line)?;
    }
    Ok(plan)
}

/// Reads a row with its plan. The defaults are a replay by two markers for all jobs, no input, and
/// status 0. None if the name or the output is missing, or the verb is unknown.
pub fn row_of<'a>(value: &'a Value, plan: &'a str) -> Option<Row<'a>> {
    Some(Row {
        name: text_at(value, "name")?,
        verb: verb_of(text_at(value, "verb").unwrap_or("replay"))?,
        markers: text_at(value, "markers").unwrap_or("XX"),
        plan,
        input: text_at(value, "input").unwrap_or(""),
        output: text_at(value, "output")?,
        status: value
            .get("status")
            .map_or(0, |status| status.as_integer().unwrap_or(0)),
        diagnostic: text_at(value, "diagnostic"),
    })
}
