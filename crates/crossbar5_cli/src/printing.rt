//! Writes messages on standard error, and prints help and the version.

ghost use Rattle.std.specs.Prelude.{◌≡◌, ◌≢◌, IsTrue, None, false, option_map};
ghost use Rattle.std.specs.Io.KnownBytes.{Appends};
ghost use Rattle.counted_io.specs.Counts.{HasFailed};
ghost use Rattle.crossbar5_cli.specs.Sentences.{sentence_on_printing, text_of};
ghost use Rattle.crossbar5_cli.specs.Streams.{MayEndOf, MayEndOn, stream_of as stream_of_kind};
ghost use Rattle.crossbar5_cli.specs.Printed as specs;
ghost use Rattle.crossbar5_cli.specs.Printed.{IsPut};

use crate::ended::{Ended, Ending, Exit};
use crate::help::{Stream, show, stream_of};
use crate::one_line::one_line;
use clap::error::ErrorKind;
use counted_io::{Sink, write_all};
use crossbar5::EngineFault;
use crossbar5_command::CommandFault;
use std::alloc::Global;
use std::fmt::Display;

/// Writes the line of an ending, the reasons why nothing is drawn, and the sentence. A failed
/// write doesn't change the ending, nor does lack of memory for the sentence.
pub fn finish<E: Sink>(alloc: Global, ended: &Ended<'_>, errors: &mut E) -> Exit
    ensures ending { result.ending ≡ ended.now.ending }
    ensures printed { IsTrue result.is_printed → IsPut (specs.IsStderrText ended.now.ending
        (option_map (λ lines. lines.items) ended.now.reasons)
        (option_map text_of ended.now.sentence))
        (E.contents errors.old) (E.contents errors.new) }
    ensures unprinted { result.is_printed ≡ false → ended.now.sentence ≡ None
        → HasFailed (E.failure_count errors.old) (E.failure_count errors.new) }
{
    let are_lines_printed = print_lines(ended, errors);
    let is_sentence_printed = print_sentence(alloc, ended.sentence.as_ref(), errors);
    Exit {
        ending: ended.ending,
        is_printed: are_lines_printed && is_sentence_printed,
    }
}

/// Writes the line of an ending and the reasons why nothing is drawn. Returns whether they were
/// written.
fn print_lines<E: Sink>(ended: &Ended<'_>, errors: &mut E) -> bool
    ensures printed { IsTrue result → Appends (E.contents errors.old) (E.contents errors.new)
        (specs.lines_text ended.now.ending
        (option_map (λ lines. lines.items) ended.now.reasons)) }
    ensures unprinted { result ≡ false
        → HasFailed (E.failure_count errors.old) (E.failure_count errors.new) }
{
    print_line(ended.ending.line(), errors) && print_reasons(ended.reasons.as_ref(), errors)
}

/// Writes a line, if there is one. Returns whether it was written.
fn print_line<E: Sink>(line: Option<&str>, errors: &mut E) -> bool
    ensures printed { IsTrue result → Appends (E.contents errors.old) (E.contents errors.new)
        (specs.line_text (option_map (λ line. line.now) line.entry)) }
    ensures unprinted { result ≡ false
        → HasFailed (E.failure_count errors.old) (E.failure_count errors.new) }
    ensures counted { IsTrue result
        → E.failure_count errors.new ≡ E.failure_count errors.old }
{
    match line {
        Some(line) => {
            write_all(errors, line.as_bytes()).is_ok() && write_all(errors, b"\n").is_ok()
        }
        None => true,
    }
}

/// Writes the reasons why nothing is drawn, if there are any. Returns whether they were written.
fn print_reasons<E: Sink>(reasons: Option<&Vec<u8>>, errors: &mut E) -> bool
    ensures printed { IsTrue result → Appends (E.contents errors.old) (E.contents errors.new)
        (specs.reasons_text (option_map (λ lines. lines.now.items) reasons.entry)) }
    ensures unprinted { result ≡ false
        → HasFailed (E.failure_count errors.old) (E.failure_count errors.new) }
{
    match reasons {
        Some(lines) => write_all(errors, lines).is_ok(),
        None => true,
    }
}

/// Writes a sentence as one line, if there is one. Returns whether it was written.
pub fn print_sentence<D: Display, E: Sink>(
    alloc: Global,
    sentence: Option<&D>,
    errors: &mut E,
) -> bool
    ensures printed { IsTrue result → IsPut
        (specs.IsSentenceLine (option_map (λ text. D.output text.now) sentence.entry))
        (E.contents errors.old) (E.contents errors.new) }
    ensures none { sentence.entry ≡ None → IsTrue result × (errors.new ≡ errors.old) }
{
    match sentence {
        Some(sentence) => match one_line(alloc, sentence) {
            Ok(line) => write_all(errors, &line).is_ok(),
            Err(_) => false,
        },
        None => true,
    }
}

/// Prints help or the version on the output, or on standard error why nothing is done. `build` is
/// the last line of the version. Help and the version end as `Printed`, unless a write failed or
/// memory ran out; then nothing was written.
pub fn print_fault<W: Sink, E: Sink>(
    alloc: Global,
    fault: &CommandFault,
    build: &str,
    output: &mut W,
    errors: &mut E,
) -> Exit
    ensures ending { MayEndOf fault.now result.ending }
    ensures device { result.ending ≡ Ending.Failed EngineFault.Device
        → HasFailed (W.failure_count output.old) (W.failure_count output.new) }
    ensures no_failure { result.ending ≢ Ending.Failed EngineFault.Device
        → W.failure_count output.new ≡ W.failure_count output.old }
    ensures shown { result.ending ≡ Ending.Printed → IsPut
        (specs.IsHelpTextOf fault.now build.now) (W.contents output.old) (W.contents output.new) }
    ensures no_output { specs.HasNoOutput fault.now → output.new ≡ output.old }
    ensures printed { IsTrue result.is_printed → IsPut
        (specs.IsStderrTextOf fault.now result.ending)
        (E.contents errors.old) (E.contents errors.new) }
    ensures unprinted { result.is_printed ≡ false → specs.HasNoSentence fault.now result.ending
        → HasFailed (E.failure_count errors.old) (E.failure_count errors.new) }
{
    match fault {
        CommandFault::Refused(error) => {
            print_text(alloc, error.kind(), error, build, output, errors)
        }
        CommandFault::Memory => {
            let ended = Ended::plainly(Ending::Failed(EngineFault::Memory));
            finish(alloc, &ended, errors)
        }
    }
}

/// Prints clap's text of this kind on its stream. `build` is the last line of a version.
pub fn print_text<D: Display, W: Sink, E: Sink>(
    alloc: Global,
    kind: ErrorKind,
    text: &D,
    build: &str,
    output: &mut W,
    errors: &mut E,
) -> Exit
    ensures ending { MayEndOn (stream_of_kind kind) result.ending }
    ensures device { result.ending ≡ Ending.Failed EngineFault.Device
        → HasFailed (W.failure_count output.old) (W.failure_count output.new) }
    ensures no_failure { result.ending ≢ Ending.Failed EngineFault.Device
        → W.failure_count output.new ≡ W.failure_count output.old }
    ensures shown { result.ending ≡ Ending.Printed → IsPut
        (specs.IsHelpText kind (D.output text.now) build.now)
        (W.contents output.old) (W.contents output.new) }
    ensures no_output { stream_of_kind kind ≡ Stream.Errors → output.new ≡ output.old }
    ensures printed { IsTrue result.is_printed → IsPut
        (specs.IsStderrTextWith (stream_of_kind kind) kind (D.output text.now) result.ending)
        (E.contents errors.old) (E.contents errors.new) }
    ensures unprinted { result.is_printed ≡ false → stream_of_kind kind ≡ Stream.Output
        → sentence_on_printing kind result.ending ≡ None
        → HasFailed (E.failure_count errors.old) (E.failure_count errors.new) }
{
    match stream_of(kind) {
        Stream::Output => {
            let ending = show(alloc, kind, text, build, output);
            finish_printing(alloc, kind, ending, errors)
        }
        Stream::Errors => print_refusal(alloc, kind, text, errors),
    }
}

/// Prints on standard error why words are refused.
fn print_refusal<D: Display, E: Sink>(
    alloc: Global,
    kind: ErrorKind,
    text: &D,
    errors: &mut E,
) -> Exit
    ensures ending { result.ending ≡ Ending.Refused }
    ensures printed { IsTrue result.is_printed → IsPut
        (specs.IsRefusalText kind (D.output text.now) Ending.Refused)
        (E.contents errors.old) (E.contents errors.new) }
{
    let is_text_printed = print_as_it_is(alloc, text, errors);
    let exit = finish_printing(alloc, kind, Ending::Refused, errors);
    Exit {
        is_printed: is_text_printed && exit.is_printed,
        ..exit
    }
}

/// Writes a text as it is. Returns whether it was written.
fn print_as_it_is<D: Display, E: Sink>(alloc: Global, text: &D, errors: &mut E) -> bool
    ensures { IsTrue result → IsPut (specs.IsKnownAs (D.output text.now))
        (E.contents errors.old) (E.contents errors.new) }
{
    match text.to_string(alloc) {
        Ok(text) => write_all(errors, text.as_bytes()).is_ok(),
        Err(_) => false,
    }
}

/// Writes the messages that belong to this ending after clap's text of this kind.
fn finish_printing<E: Sink>(alloc: Global, kind: ErrorKind, ending: Ending, errors: &mut E) -> Exit
    ensures ending { result.ending ≡ ending }
    ensures printed { IsTrue result.is_printed → IsPut (specs.IsStderrText ending None
        (option_map text_of (sentence_on_printing kind ending)))
        (E.contents errors.old) (E.contents errors.new) }
    ensures unprinted { result.is_printed ≡ false → sentence_on_printing kind ending ≡ None
        → HasFailed (E.failure_count errors.old) (E.failure_count errors.new) }
{
    finish(alloc, &Ended::of_printing(kind, ending), errors)
}
