//! Whole runs of the program, on streams that may fail.

use crossbar5::{Counted, Sink, Source};
use crossbar5_cli::{CheckedWork, Exit, System, run_words};
use std::alloc::{AllocError, Global};
use std::fs::File;
use std::io;
use std::sync::Wait;
use std::thread::Threads;
use test_tools::FailAt;

mod devices;
mod files;
mod large;
mod live;
mod memory;

/// The example plan.
const EXAMPLE: &str = r#"version = 1
groups = ["REG register 417 418 509", "INTRA intra 600-601 700-711", "OUTA outgoing 800", "OUTB outgoing 801 902"]
numbers = ["0001 3041", "0002 3052", "0003 1000", "0004 3100"]
codes = ["234 INTRA", "555 OUTA OUTB"]
faults = []
"#;

/// A dial tone job that is alone in the office.
const FIRST: &str = "J,0,1,D,3041\nS,0,96,,\n";

/// The output for `FIRST` under the example plan.
const FIRST_TEXT: &str = "0,1,0,D,3041,-,DIALTONE,1,3041-0-417,-\nPATHS,1\nCLOSED,4\n";

/// A system in which every file has the example plan with a faulty junctor.
const FAULTY: PlanText = PlanText {
    text: r#"version = 1
groups = ["REG register 417 418 509", "INTRA intra 600-601 700-711", "OUTA outgoing 800", "OUTB outgoing 801 902"]
numbers = ["0001 3041", "0002 3052", "0003 1000", "0004 3100"]
codes = ["234 INTRA", "555 OUTA OUTB"]
faults = ["JU340"]
"#,
};

/// A system in which every file has this text.
#[derive(Drop)]
struct PlanText {
    text: &'static str,
}

impl System for PlanText {
    type File = Counted<&'static [u8]>;

    fn open(&self, _name: &str) -> io::Result<Counted<&'static [u8]>> {
        Ok(Counted::new(self.text.as_bytes()))
    }

    fn begin(&self, _work: &CheckedWork) {}

    fn end(&self) {}
}

/// A system with real files.
#[derive(Drop)]
struct RealFiles<'h> {
    rt: &'h HostRuntime,
}

impl System for RealFiles<'_> {
    type File = Counted<File>;

    fn open(&self, name: &str) -> io::Result<Counted<File>> {
        Ok(Counted::new(File::open(self.rt, name)?))
    }

    fn begin(&self, _work: &CheckedWork) {}

    fn end(&self) {}
}

/// Which call of which standard stream fails: the one after this many others.
#[derive(Clone, Copy)]
enum Fails {
    Nothing,
    Input(u32),
    Output(u32),
    Errors(u32),
}

/// Standard streams. One call of one of them may fail.
#[derive(Drop)]
struct Streams<'i> {
    input: Counted<FailAt<&'i [u8]>>,
    output: Counted<FailAt<Vec<u8>>>,
    errors: Counted<FailAt<Vec<u8>>>,
}

impl<'i> Streams<'i> {
    fn new(alloc: Global, input: &'i str, fails: Fails) -> Self {
        let (of_input, of_output, of_errors) = match fails {
            Fails::Nothing => (None, None, None),
            Fails::Input(calls) => (Some(calls), None, None),
            Fails::Output(calls) => (None, Some(calls), None),
            Fails::Errors(calls) => (None, None, Some(calls)),
        };
        Streams {
            input: counted(input.as_bytes(), of_input),
            output: counted(Vec::new(alloc), of_output),
            errors: counted(Vec::new(alloc), of_errors),
        }
    }

    /// Runs the program on the words of a line, which spaces separate.
    fn run<T: Threads + Wait + Sync, S: System>(
        &mut self,
        threads: &T,
        alloc: Global,
        system: &S,
        line: &str,
    ) -> Result<Exit, AllocError> {
        run_line(
            threads,
            alloc,
            system,
            line,
            &mut self.input,
            &mut self.output,
            &mut self.errors,
        )
    }

    /// What was written on standard output.
    fn written(&self) -> &str {
        text_in(&self.output)
    }

    /// What was written on standard error.
    fn said(&self) -> &str {
        text_in(&self.errors)
    }
}

fn counted<D>(inner: D, passes: Option<u32>) -> Counted<FailAt<D>> {
    Counted::new(FailAt { inner, passes })
}

fn text_in(stream: &Counted<FailAt<Vec<u8>>>) -> &str {
    str::from_utf8(&stream.get_ref().inner).unwrap_or("this is no text")
}

/// Runs the program on the words of a line, with any streams.
fn run_line<T: Threads + Wait + Sync, S: System, R: Source, W: Sink, E: Sink>(
    threads: &T,
    alloc: Global,
    system: &S,
    line: &str,
    input: &mut R,
    output: &mut W,
    errors: &mut E,
) -> Result<Exit, AllocError> {
    let mut words = Vec::new(alloc);
    words.push("crossbar5")?;
    for word in line.split(' ') {
        words.push(word)?;
    }
    Ok(run_words(
        threads, alloc, system, &words, "a kit", input, output, errors,
    ))
}
