ghost use Rattle.std.specs.Prelude.{◌≡◌, ℕ, ◌<◌, ◌⊎◌, [], length, Option, None, IfSome, IfOk, OnOk, OnErr};
ghost use Rattle.std.specs.Io.{ReadsAtMost, WritesAtMost};
ghost use Rattle.std.specs.Io.KnownBytes.{Keeps, ReadConsumes, WriteAppends};
ghost use Rattle.counted_io.specs.Counts.{HasFailed};

use std::io;
use std::io::{Read, Write};

/// A reader that counts its failures, and its reads that return bytes.
///
/// Each error raises the count of failures, or finds it at `u64::MAX`, where it stays. The count
/// of reads may be unknown to proofs. If it is known, each read that returns bytes has to raise it
/// by one, and no other call may raise it. No clause demands this.
pub trait Source: Read {
    // The number of failures so far.
    ghost failure_count: { Self → ℕ };

    // The number of reads so far that returned bytes, if it is known.
    ghost read_count: { Self → Option ℕ } = { λ _. None };

    /// The number of failures so far.
    fn failures(&self) -> u64
        ensures { result ≡ failure_count self.now };

    /// The number of reads so far that returned bytes.
    fn reads(&self) -> u64
        ensures { IfSome (read_count self.now) (λ count. result ≡ count) };

    /// Reads as `read` does. An error is counted as a failure, and nothing else is.
    fn read_and_count(&mut self, buf: &mut [u8]) -> io::Result<usize>
        ensures bound { ReadsAtMost result buf.new }
        ensures bytes { ReadConsumes (Self.remaining self.old) (Self.remaining self.new)
            result buf.new }
        ensures ok { OnOk result (failure_count self.new ≡ failure_count self.old) }
        ensures err { OnErr result (HasFailed (failure_count self.old) (failure_count self.new)) };
}

/// A writer that counts its failures.
///
/// Each error, and each write of some bytes that takes none, raises the count, or finds it at
/// `u64::MAX`, where it stays.
pub trait Sink: Write {
    // The number of failures so far.
    ghost failure_count: { Self → ℕ };

    /// The number of failures so far.
    fn failures(&self) -> u64
        ensures { result ≡ failure_count self.now };

    /// Writes as `write` does. An error is counted as a failure, and so is a write of some bytes
    /// that takes none; nothing else is.
    fn write_and_count(&mut self, buf: &[u8]) -> io::Result<usize>
        ensures bound { WritesAtMost result buf.now }
        ensures bytes { WriteAppends (Self.contents self.old) (Self.contents self.new)
            result buf.now }
        ensures taken { IfOk result (λ count. (0 < count) ⊎ (buf.now ≡ [])
            → failure_count self.new ≡ failure_count self.old) }
        ensures none_taken { IfOk result (λ count. count ≡ 0 → 0 < length buf.now
            → HasFailed (failure_count self.old) (failure_count self.new)) }
        ensures err { OnErr result (HasFailed (failure_count self.old) (failure_count self.new)) };

    /// Flushes as `flush` does. An error is counted as a failure, and nothing else is.
    fn flush_and_count(&mut self) -> io::Result<()>
        ensures bytes { Keeps (Self.contents self.old) (Self.contents self.new) }
        ensures ok { OnOk result (failure_count self.new ≡ failure_count self.old) }
        ensures err { OnErr result (HasFailed (failure_count self.old) (failure_count self.new)) };
}
