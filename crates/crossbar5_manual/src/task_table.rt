use crossbar5_command::words_of;
use crossbar5_task::{TASKS, Task};
use std::fmt;

/// The table of the library's tasks.
#[derive(Clone, Copy)]
pub struct TaskTable;

impl fmt::Display for TaskTable {
    fn fmt<W: fmt::Write>(&self, f: &mut fmt::Formatter<W>) -> fmt::Result {
        for (number, task) in TASKS.iter().enumerate() {
            writeln!(f, "{number}\t{}", Line(*task))?;
        }
        Ok(())
    }
}

/// What the table says of a task, but for its number.
#[derive(Clone, Copy)]
struct Line(Task);

impl fmt::Display for Line {
    fn fmt<W: fmt::Write>(&self, f: &mut fmt::Formatter<W>) -> fmt::Result {
        let Line(task) = *self;
        f.write_str(if task.is_on_rows() { "rows" } else { "records" })?;
        let mut before = '\t';
        for word in words_of(task) {
            write!(f, "{before}{word}")?;
            before = ' ';
        }
        write!(f, "\t{}", task.name())
    }
}
