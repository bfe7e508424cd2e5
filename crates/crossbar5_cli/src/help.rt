//! Prints help and the version.

ghost use Rattle.std.specs.Prelude.{◌≡◌, ◌≢◌, ◌⊎◌, Err, IfErr, IfOk, OnOk};
ghost use Rattle.counted_io.specs.Counts.{HasFailed};
ghost use Rattle.crossbar5_cli.specs.Printed.{IsHelpText, IsPut};
ghost use Rattle.crossbar5_cli.specs.Streams.{MayEndOn, stream_of as stream_of_kind};

use crate::ended::Ending;
use clap::error::ErrorKind;
use counted_io::{Sink, write_all};
use crossbar5::EngineFault;
use std::alloc::{AllocError, Global};
use std::fmt::Display;

/// A stream that texts are written on.
#[derive(Clone, Copy, Debug, PartialEq, Eq)]
pub enum Stream {
    Output,
    Errors,
}

/// The stream of clap's text of this kind: standard output for help and the version.
pub fn stream_of(kind: ErrorKind) -> Stream
    ensures { result ≡ stream_of_kind kind }
{
    match kind {
        ErrorKind::DisplayHelp | ErrorKind::DisplayVersion => Stream::Output,
        _ => Stream::Errors,
    }
}

/// Writes help, or the version and its last line `build`. Returns how that ended.
pub fn show<D: Display, W: Sink>(
    alloc: Global,
    kind: ErrorKind,
    text: &D,
    build: &str,
    output: &mut W,
) -> Ending
    ensures ending { MayEndOn Stream.Output result }
    ensures device { result ≡ Ending.Failed EngineFault.Device
        → HasFailed (W.failure_count output.old) (W.failure_count output.new) }
    ensures no_failure { result ≢ Ending.Failed EngineFault.Device
        → W.failure_count output.new ≡ W.failure_count output.old }
    ensures shown { result ≡ Ending.Printed → IsPut
        (IsHelpText kind (D.output text.now) build.now)
        (W.contents output.old) (W.contents output.new) }
{
    match write_help(alloc, kind, text, build, output) {
        Ok(()) => Ending::Printed,
        Err(fault) => Ending::Failed(fault),
    }
}

/// Writes help, or the version and its last line `build`.
fn write_help<D: Display, W: Sink>(
    alloc: Global,
    kind: ErrorKind,
    text: &D,
    build: &str,
    output: &mut W,
) -> Result<(), EngineFault>
    ensures shown { OnOk result (IsPut (IsHelpText kind (D.output text.now) build.now)
        (W.contents output.old) (W.contents output.new)) }
    ensures why { IfErr result (λ fault. (fault ≡ EngineFault.Device)
        ⊎ (fault ≡ EngineFault.Memory)) }
    ensures device { result ≡ Err EngineFault.Device
        → HasFailed (W.failure_count output.old) (W.failure_count output.new) }
    ensures no_failure { result ≢ Err EngineFault.Device
        → W.failure_count output.new ≡ W.failure_count output.old }
{
    let shown = help_text(alloc, kind, text, build)?;
    write_all(output, &shown)?;
    Ok(())
}

/// The text of help, or of the version and its last line `build`.
fn help_text<D: Display>(
    alloc: Global,
    kind: ErrorKind,
    text: &D,
    build: &str,
) -> Result<Vec<u8>, AllocError>
    ensures { IfOk result (λ shown.
        IsHelpText kind (D.output text.now) build.now shown.items) }
{
    let mut shown = text.to_string(alloc)?.into_bytes();
    match kind {
        ErrorKind::DisplayVersion => {
            shown.extend_from_slice(build.as_bytes())?;
            shown.push(b'\n')?;
            Ok(shown)
        }
        _ => Ok(shown),
    }
}
