//! The program on the real words, files and streams.

ghost use Rattle.std.specs.Prelude.{◌≡◌, ℕ, List, Result, ⊤};
ghost use Rattle.std.specs.Process.{exit_status};
ghost use Rattle.crossbar5_cli.specs.Endings.{exit_of};
ghost use Rattle.crossbar5_cli.specs.declared.ended.Ending.{Ending as TheEnding};
ghost use Rattle.std.specs.declared.io.Error.{Error};

use crate::asked::run_words;
use crate::causes::ending_without_words;
use crate::progress::Progress;
use crate::work::{CheckedWork, input_of};
use crate::{Ended, Exit, finish};
use counted_io::{Counted, Source};
use std::alloc::AllocError;
use std::fs::File;
use std::io::IsTerminal;
use std::process::ExitCode;
use std::sync::Wait;
use std::thread::{Threads, join};
use std::{env, io};

/// What the program uses of the system besides its streams.
pub trait System {
    /// An open file.
    type File: Source + Drop;

    // Opening the file of this name may give this. A system of which nothing is known may give
    // anything.
    ghost Opens: { Self → List ℕ → Result Self.File Error → Type 0 } = { λ _ _ _. ⊤ };

    /// Opens the file of this name.
    fn open(&self, name: &str) -> io::Result<Self::File>
        ensures { Opens self.now name.now result };

    /// Called before the input of this work is read.
    fn begin(&self, work: &CheckedWork);

    /// Called when the work is done, before any message is written.
    fn end(&self);
}

/// Runs the program and returns its exit status. `threads` starts the threads of live calls and of
/// the progress line; it may be the runtime itself. `build`, the last line of `--version`, names
/// the kit and the commit that the program was built with. The status is that of an ending.
pub fn run<T: Threads + Wait + Sync>(rt: &HostRuntime, threads: &T, build: &str) -> ExitCode
    ensures { (ending : TheEnding) × (exit_status result ≡ exit_of ending) }
{
    let exit = match words(rt) {
        Ok(words) => run_owned(rt, threads, &words, build),
        Err(error) => end(rt, &Ended::plainly(ending_without_words(&error))),
    };
    exit.code()
}

/// The words of the command line, the program's name first.
fn words(rt: &HostRuntime) -> io::Result<Vec<String>> {
    Ok(env::args(rt)?.collect(rt.alloc())?)
}

/// Writes on standard error what belongs to this end.
fn end(rt: &HostRuntime, ended: &Ended<'_>) -> Exit {
    finish(rt.alloc(), ended, &mut Counted::new(rt.stderr()))
}

/// Runs the words, with the progress of a task if it is to be shown.
fn run_owned<T: Threads + Wait + Sync>(
    rt: &HostRuntime,
    threads: &T,
    words: &[String],
    build: &str,
) -> Exit {
    let words: Result<Vec<&str>, AllocError> = words
        .iter()
        .map(|word| word.as_str())
        .collect(rt.alloc());
    match words {
        Ok(words) if Progress::is_shown(rt) => run_with_progress(rt, threads, &words, build),
        Ok(words) => run_between(rt, threads, &words, build, &Progress::new()),
        Err(error) => end(rt, &Ended::plainly(error.into())),
    }
}

/// Runs the words, with the progress of a task on standard error. If no thread can be started, no
/// progress is shown.
fn run_with_progress<T: Threads + Wait + Sync>(
    rt: &HostRuntime,
    threads: &T,
    words: &[&str],
    build: &str,
) -> Exit {
    let progress = Progress::new();
    let ((), exit) = join(
        threads,
        || progress.report(rt),
        || {
            let exit = run_between(rt, threads, words, build, &progress);
            progress.end(rt);
            exit
        },
    );
    exit
}

/// Runs the words on the standard streams.
fn run_between<T: Threads + Wait + Sync>(
    rt: &HostRuntime,
    threads: &T,
    words: &[&str],
    build: &str,
    progress: &Progress,
) -> Exit {
    run_words(
        threads,
        rt.alloc(),
        &Host { rt, progress },
        words,
        build,
        &mut Counted::new(rt.stdin()),
        &mut Counted::new(rt.stdout()),
        &mut Counted::new(rt.stderr()),
    )
}

/// The system that the program runs on.
#[derive(Drop)]
struct Host<'h> {
    rt: &'h HostRuntime,
    progress: &'h Progress,
}

impl System for Host<'_> {
    ghost use Rattle.std.specs.Prelude.{◌≡◌, IfOk};
    ghost use Rattle.counted_io.specs.Counted.{counted_failures, counted_reads};

    type File = Counted<File>;

    // Nothing is known of the file, but that no failure and no read was counted yet.
    ghost Opens = { λ _ _ opened. IfOk opened
        (λ file. (counted_failures file ≡ 0) × (counted_reads file ≡ 0)) };

    fn open(&self, name: &str) -> io::Result<Counted<File>> {
        Ok(Counted::new(File::open(self.rt, name)?))
    }

    /// On a terminal, prints what to type and how to end it. A failed write is ignored.
    fn begin(&self, work: &CheckedWork) {
        if self.rt.stdin().is_terminal() {
            let what = input_of(work);
            let _told = eprintln!(self.rt;
                "crossbar5: standard input is a terminal: type {what}; end with Ctrl-D"
            );
        }
        if let CheckedWork::Task { .. } = work {
            self.progress.begin();
        }
    }

    fn end(&self) {
        self.progress.end(self.rt);
    }
}
