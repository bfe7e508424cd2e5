//! Reads a source to its end, and writes all of a text.

ghost use Rattle.std.specs.Prelude.{◌≡◌, ◌≢◌, IfOk, OnOk, IfSome, IsTrue, ◌↔◌};
ghost use Rattle.std.specs.Io.KnownBytes.{IsAtEnd, Appends};
ghost use Rattle.counted_io.specs.Counts.{AreUsedUp, HasFailed, ReadsUsedUp};

use crate::device::{Sink, Source};
use crate::read_fault::ReadFault;
use crate::write_fault::WriteFault;
use std::alloc::Global;

// The input is too long once this many reads have returned bytes.
const MOST_READS: u64 = 1_048_576;

// If each read fills it, the longest input has just under 4 GiB.
const CHUNK: usize = 4096;

/// Reads a source to its end.
///
/// The fault is `Device` at the first error; `Long` once 1,048,576 reads have returned bytes, as
/// the source counts them, or if their count is at `u64::MAX`; and `Memory` if memory runs out.
/// After a fault the bytes that were read are lost, and the position of the source is unspecified.
pub fn read_all<R: Source>(alloc: Global, source: &mut R) -> Result<Vec<u8>, ReadFault>
    ensures bytes { IfOk result (λ bytes. IfSome (R.remaining source.old)
        (λ all. bytes.items ≡ all)) }
    ensures end { OnOk result (IsAtEnd (R.remaining source.new)) }
    ensures device { result ≡ Err ReadFault.Device
        → HasFailed (R.failure_count source.old) (R.failure_count source.new) }
    ensures no_failure { result ≢ Err ReadFault.Device
        → R.failure_count source.new ≡ R.failure_count source.old }
    ensures long { result ≡ Err ReadFault.Long →
        ReadsUsedUp (R.read_count source.old) (R.read_count source.new) }
{
    let reads_before = source.reads();
    let mut bytes = Vec::new(alloc);
    let mut chunk = [0u8; CHUNK];
    // This ends whatever the source counts: each iteration adds bytes, and memory is finite.
    loop {
        if are_used_up(reads_before, source.reads()) {
            return Err(ReadFault::Long);
        }
        let Ok(count) = source.read_and_count(&mut chunk) else {
            return Err(ReadFault::Device);
        };
        if count == 0 {
            return Ok(bytes);
        }
        bytes.extend_from_slice(&chunk[..count])?;
    }
}

/// Whether no read is left, by the counts of reads at the beginning and now. At `u64::MAX` the
/// count can't rise, so none is left.
fn are_used_up(before: u64, now: u64) -> bool
    ensures { IsTrue result ↔ AreUsedUp before now }
{
    now.saturating_sub(before) >= MOST_READS || now == u64::MAX
}

/// Writes all of the bytes and flushes.
///
/// The fault is `Device` at the first error, or if a write takes no byte. How much was written
/// before is unspecified.
pub fn write_all<W: Sink>(sink: &mut W, bytes: &[u8]) -> Result<(), WriteFault>
    ensures bytes { OnOk result (Appends (W.contents sink.old) (W.contents sink.new) bytes.now) }
    ensures device { result ≡ Err WriteFault.Device
        → HasFailed (W.failure_count sink.old) (W.failure_count sink.new) }
    ensures no_failure { result ≢ Err WriteFault.Device
        → W.failure_count sink.new ≡ W.failure_count sink.old }
{
    let mut rest = bytes;
    while !rest.is_empty() {
        let Ok(count) = sink.write_and_count(rest) else {
            return Err(WriteFault::Device);
        };
        if count == 0 {
            return Err(WriteFault::Device);
        }
        rest = &rest[count..];
    }
    match sink.flush_and_count() {
        Ok(()) => Ok(()),
        Err(_) => Err(WriteFault::Device),
    }
}
