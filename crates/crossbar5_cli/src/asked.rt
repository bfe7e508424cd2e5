//! Does what the words of a command line ask for.

ghost use Rattle.std.specs.Prelude.{◌≡◌, ◌≢◌, ◌-◌, ◌⊎◌, ◌↔◌, Err, IfErr, IfOk, None, option_map, IfSome};
ghost use Rattle.std.specs.Io.KnownBytes.{IsAtEnd};
ghost use Rattle.std.specs.String.{string_bytes};
ghost use Rattle.counted_io.specs.Counts.{HasFailed, ReadsUsedUp};
ghost use Rattle.crossbar5.specs.PlanRefusal.{plan_in};
ghost use Rattle.crossbar5_cli.specs.Asks.{MayEndAsked};
ghost use Rattle.crossbar5_cli.specs.CheckedWork.{RefusesMarkers};
ghost use Rattle.crossbar5_cli.specs.Endings.{IsOfRun};
ghost use Rattle.crossbar5_cli.specs.Named.{IsPlanFault, IsPlanNamed, files_of, name_in, plan_by, IsFileFault};
ghost use Rattle.crossbar5_cli.specs.Runs.{IsEndAsAsked, IsEndOf};
ghost use Rattle.std.specs.IoError.{error_kind};
ghost use Rattle.crossbar5_cli.specs.Causes.{opening_fault};
ghost use Rattle.clap.specs.Walk.{texts};
ghost use Rattle.crossbar5_cli.specs.Program.{DoesWords};

use crate::causes::fault_of_opening;
use crate::host::System;
use crate::work::{CheckedWork, answer};
use crate::{Ended, Ending, Exit, finish, print_fault};
use counted_io::{ReadFault, Sink, Source, read_all};
use crossbar5::{EngineFault, PlanSource};
use crossbar5_command::{Ask, command};
use std::alloc::Global;
use std::io;
use std::io::Read;
use std::sync::Wait;
use std::thread::Threads;

/// Does what is asked for, with this input and output.
///
/// The markers are judged first, then the plan's file, then the plan, then the input. The output
/// is written once it is complete.
pub fn do_as_asked<'w, T: Threads + Wait + Sync, S: System, R: Source, W: Sink>(
    threads: &T,
    alloc: Global,
    system: &S,
    ask: &'w Ask,
    input: &mut R,
    output: &mut W,
) -> Ended<'w>
    ensures ends { IsEndAsAsked ask.now
        (files_of (S.Opens system.now) (λ file. S.File.remaining file)
        (λ file. S.File.failure_count file) (λ file. S.File.read_count file))
        (record {
          unread = R.remaining input.old;
          IsUntouched = (input.new ≡ input.old);
          IsReadToEnd = IsAtEnd (R.remaining input.new);
          failures = R.failure_count input.new - R.failure_count input.old;
          HasTooManyReads = ReadsUsedUp (R.read_count input.old) (R.read_count input.new);
          before = W.contents output.old;
          after = W.contents output.new;
          IsUnwritten = (output.new ≡ output.old);
          HasFailure = HasFailed (R.failure_count input.old) (R.failure_count input.new)
              ⊎ HasFailed (W.failure_count output.old) (W.failure_count output.new);
          HasNoFailure = (R.failure_count input.new ≡ R.failure_count input.old)
              × (W.failure_count output.new ≡ W.failure_count output.old);
        })
        (record {
          ending = result.ending;
          reasons = option_map (λ lines. lines.items) result.reasons;
          sentence = result.sentence;
        }) }
    ensures may { MayEndAsked ask.now.work result.ending }
    ensures no_failure { result.ending ≢ Ending.Failed EngineFault.Device
        → (R.failure_count input.new ≡ R.failure_count input.old)
        × (W.failure_count output.new ≡ W.failure_count output.old) }
    ensures unread { RefusesMarkers ask.now.work → input.new ≡ input.old }
{
    match CheckedWork::new(&ask.work) {
        Some(work) => perform(threads, alloc, system, file_of(ask), &work, input, output),
        None => Ended::of_refused_markers(&ask.work),
    }
}

/// The name of the plan's file, if one is named.
fn file_of(ask: &Ask) -> Option<&str>
    ensures { option_map (λ name. name.now) result ≡ option_map string_bytes ask.now.plan }
{
    match &ask.plan {
        Some(name) => Some(name.as_str()),
        None => None,
    }
}

/// Does the work with the plan in this file, or the example plan if no file is named.
fn perform<'w, T: Threads + Wait + Sync, S: System, R: Source, W: Sink>(
    threads: &T,
    alloc: Global,
    system: &S,
    file: Option<&'w str>,
    work: &CheckedWork,
    input: &mut R,
    output: &mut W,
) -> Ended<'w>
    ensures ends { IsEndOf work.now file.entry
        (files_of (S.Opens system.now) (λ file. S.File.remaining file)
        (λ file. S.File.failure_count file) (λ file. S.File.read_count file))
        (record {
          unread = R.remaining input.old;
          IsUntouched = (input.new ≡ input.old);
          IsReadToEnd = IsAtEnd (R.remaining input.new);
          failures = R.failure_count input.new - R.failure_count input.old;
          HasTooManyReads = ReadsUsedUp (R.read_count input.old) (R.read_count input.new);
          before = W.contents output.old;
          after = W.contents output.new;
          IsUnwritten = (output.new ≡ output.old);
          HasFailure = HasFailed (R.failure_count input.old) (R.failure_count input.new)
              ⊎ HasFailed (W.failure_count output.old) (W.failure_count output.new);
          HasNoFailure = (R.failure_count input.new ≡ R.failure_count input.old)
              × (W.failure_count output.new ≡ W.failure_count output.old);
        })
        (record {
          ending = result.ending;
          reasons = option_map (λ lines. lines.items) result.reasons;
          sentence = result.sentence;
        }) }
    ensures run { IsOfRun result.ending }
    ensures no_failure { result.ending ≢ Ending.Failed EngineFault.Device
        → (R.failure_count input.new ≡ R.failure_count input.old)
        × (W.failure_count output.new ≡ W.failure_count output.old) }
{
    let text = match text_named(alloc, system, file) {
        Ok(text) => text,
        Err(fault) => return Ended::of_plan_file(fault, file, reason_of(system, file, fault)),
    };
    let before = input.failures();
    system.begin(work);
    let plan = source_of(&text);
    let run = answer(threads, alloc, work, plan, input, output);
    system.end();
    Ended::of_run(run, file, input.failures().saturating_sub(before))
}

/// The text of the plan's file, if one is named.
fn text_named<S: System>(
    alloc: Global,
    system: &S,
    file: Option<&str>,
) -> Result<Option<Vec<u8>>, EngineFault>
    ensures named { IfOk result (λ text. IsPlanNamed
        (files_of (S.Opens system.now) (λ file. S.File.remaining file)
        (λ file. S.File.failure_count file) (λ file. S.File.read_count file))
        (name_in file.entry) (plan_by (option_map (λ text. text.items) text))) }
    ensures refused { IfErr result (IsPlanFault
        (files_of (S.Opens system.now) (λ file. S.File.remaining file)
        (λ file. S.File.failure_count file) (λ file. S.File.read_count file))
        (name_in file.entry)) }
{
    let Some(name) = file else {
        return Ok(None);
    };
    match plan_text(alloc, system.open(name)) {
        Ok(text) => Ok(Some(text)),
        Err(fault) => Err(fault),
    }
}

/// The plan of this text, or the example plan.
fn source_of(text: &Option<Vec<u8>>) -> PlanSource<'_>
    ensures { plan_in result ≡ plan_by (option_map (λ text. text.items) text.now) }
{
    match text {
        Some(text) => PlanSource::Text(text),
        None => PlanSource::Example,
    }
}

/// The system's reason why the plan's file can't be read, from a second try.
fn reason_of<S: System>(system: &S, file: Option<&str>, fault: EngineFault) -> Option<io::Error> {
    if fault != EngineFault::Device {
        return None;
    }
    match system.open(file?) {
        Ok(mut file) => file.read(&mut [0]).err(),
        Err(error) => Some(error),
    }
}

/// All of the plan's file. A file that can't be opened is a fault, and never the example plan.
///
/// The fault of a file that was opened is `Device` only if a read failed, and `Long` only if too
/// many reads gave bytes.
pub fn plan_text<R: Source + Drop>(
    alloc: Global,
    opened: io::Result<R>,
) -> Result<Vec<u8>, EngineFault>
    ensures text { IfOk opened (λ file. IfOk result (λ text.
        IfSome (R.remaining file) (λ all. text.items ≡ all))) }
    ensures refused { IfErr opened (λ error.
        result ≡ Err (opening_fault (error_kind error))) }
    ensures failed { IfOk opened (λ file. IfErr result
        (IsFileFault (λ it. R.failure_count it) (λ it. R.read_count it) file)) }
{
    match opened {
        Ok(file) => file_text(alloc, file),
        Err(error) => Err(fault_of_opening(&error)),
    }
}

/// All of a file.
fn file_text<R: Source + Drop>(alloc: Global, mut file: R) -> Result<Vec<u8>, EngineFault>
    ensures text { IfOk result (λ text.
        IfSome (R.remaining file) (λ all. text.items ≡ all)) }
    ensures failed { IfErr result
        (IsFileFault (λ it. R.failure_count it) (λ it. R.read_count it) file) }
{
    match read_all(alloc, &mut file) {
        Ok(text) => Ok(text),
        Err(fault) => match fault {
            ReadFault::Memory => Err(EngineFault::Memory),
            ReadFault::Device => Err(EngineFault::Device),
            ReadFault::Long => Err(EngineFault::Long),
        },
    }
}

/// Does what the words ask for. The first word is the program's name. The engine's output, help
/// and the version are written on `output`, all else on `errors`. `build` is the last line of the
/// version.
pub fn run_words<T: Threads + Wait + Sync, S: System, R: Source, W: Sink, E: Sink>(
    threads: &T,
    alloc: Global,
    system: &S,
    words: &[&str],
    build: &str,
    input: &mut R,
    output: &mut W,
    errors: &mut E,
) -> Exit
    ensures { DoesWords (texts words.now) build.now
        (files_of (S.Opens system.now) (λ file. S.File.remaining file)
        (λ file. S.File.failure_count file) (λ file. S.File.read_count file))
        (record {
          unread = R.remaining input.old;
          IsUntouched = (input.new ≡ input.old);
          IsReadToEnd = IsAtEnd (R.remaining input.new);
          failures = R.failure_count input.new - R.failure_count input.old;
          HasTooManyReads = ReadsUsedUp (R.read_count input.old) (R.read_count input.new);
          before = W.contents output.old;
          after = W.contents output.new;
          IsUnwritten = (output.new ≡ output.old);
          HasFailure = HasFailed (R.failure_count input.old) (R.failure_count input.new)
              ⊎ HasFailed (W.failure_count output.old) (W.failure_count output.new);
          HasNoFailure = (R.failure_count input.new ≡ R.failure_count input.old)
              × (W.failure_count output.new ≡ W.failure_count output.old);
        })
        (record {
          before = E.contents errors.old;
          after = E.contents errors.new;
          HasFailure = HasFailed (E.failure_count errors.old) (E.failure_count errors.new);
        })
        result.ending result.is_printed }
{
    match command(alloc, words) {
        Ok(ask) => {
            let ended = do_as_asked(threads, alloc, system, &ask, input, output);
            finish(alloc, &ended, errors)
        }
        Err(fault) => print_fault(alloc, &fault, build, output, errors),
    }
}
