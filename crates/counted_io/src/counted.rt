ghost use Rattle.std.specs.Prelude.{◌≡◌, ◌<◌, ◌⊎◌, [], length, Some, IfOk, OnOk, OnErr};
ghost use Rattle.std.specs.Io.{ReadsAtMost, WritesAtMost};
ghost use Rattle.std.specs.Io.KnownBytes.{Keeps, ReadConsumes, WriteAppends};
ghost use Rattle.counted_io.specs.Counts.{one_more};

use crate::device::{Sink, Source};
use std::io;
use std::io::{Read, Write};

/// Wraps a reader or writer, and counts its failures and its reads that return bytes. All else is
/// passed on unchanged.
#[derive(Debug, Drop)]
pub struct Counted<T> {
    inner: T,
    failures: u64,
    reads: u64,
}

impl<T> Counted<T> {
    ghost use Rattle.counted_io.specs.Counted.{counted_inner, counted_failures, counted_reads};

    /// Wraps a reader or writer. Both counts are 0.
    pub fn new(inner: T) -> Self
        ensures inner { counted_inner result ≡ inner }
        ensures failures { counted_failures result ≡ 0 }
        ensures reads { counted_reads result ≡ 0 }
    {
        Counted {
            inner,
            failures: 0,
            reads: 0,
        }
    }

    /// The wrapped reader or writer.
    pub fn get_ref(&self) -> &T
        ensures { result.now ≡ counted_inner self.now }
    {
        &self.inner
    }

    /// Returns the wrapped reader or writer. The counts are lost.
    pub fn into_inner(self) -> T
        ensures { result ≡ counted_inner self }
    {
        self.inner
    }

    /// The number of failures so far. The count stays at `u64::MAX` once there.
    pub fn failures(&self) -> u64
        ensures { result ≡ counted_failures self.now }
    {
        self.failures
    }

    /// The number of reads so far that returned bytes. The count stays at `u64::MAX` once there.
    pub fn reads(&self) -> u64
        ensures { result ≡ counted_reads self.now }
    {
        self.reads
    }

    fn count_failure(&mut self)
        ensures inner { counted_inner self.new ≡ counted_inner self.old }
        ensures failures { counted_failures self.new ≡ one_more (counted_failures self.old) }
        ensures reads { counted_reads self.new ≡ counted_reads self.old }
    {
        self.failures = self.failures.saturating_add(1);
    }

    fn count_read(&mut self)
        ensures inner { counted_inner self.new ≡ counted_inner self.old }
        ensures failures { counted_failures self.new ≡ counted_failures self.old }
        ensures reads { counted_reads self.new ≡ one_more (counted_reads self.old) }
    {
        self.reads = self.reads.saturating_add(1);
    }
}

impl<T: Read> Read for Counted<T> {
    ghost use Rattle.counted_io.specs.Counted.{counted_inner, counted_failures, counted_reads};

    ghost remaining = { λ counted. T.remaining (counted_inner counted) };

    fn read(&mut self, buf: &mut [u8]) -> io::Result<usize>
        ensures bound { ReadsAtMost result buf.new }
        ensures bytes { ReadConsumes (T.remaining (counted_inner self.old))
            (T.remaining (counted_inner self.new)) result buf.new }
        ensures ok { OnOk result (counted_failures self.new ≡ counted_failures self.old) }
        ensures err { OnErr result (counted_failures self.new ≡
            one_more (counted_failures self.old)) }
        ensures some_given { IfOk result (λ count. 0 < count →
            counted_reads self.new ≡ one_more (counted_reads self.old)) }
        ensures none_given { IfOk result (λ count. count ≡ 0 →
            counted_reads self.new ≡ counted_reads self.old) }
        ensures err_reads { OnErr result (counted_reads self.new ≡ counted_reads self.old) }
    {
        let result = self.inner.read(buf);
        match &result {
            Ok(0) => {}
            Ok(_) => self.count_read(),
            Err(_) => self.count_failure(),
        }
        result
    }
}

impl<T: Read> Source for Counted<T> {
    ghost use Rattle.counted_io.specs.Counted.{counted_failures, counted_reads};

    ghost failure_count = { λ counted. counted_failures counted };

    ghost read_count = { λ counted. Some (counted_reads counted) };

    fn failures(&self) -> u64 {
        Counted::failures(self)
    }

    fn reads(&self) -> u64 {
        Counted::reads(self)
    }

    fn read_and_count(&mut self, buf: &mut [u8]) -> io::Result<usize> {
        // Read only so that the proof knows the range of the count.
        let _failures = self.failures;
        self.read(buf)
    }
}

impl<T: Write> Write for Counted<T> {
    ghost use Rattle.counted_io.specs.Counted.{counted_inner, counted_failures, counted_reads};

    ghost contents = { λ counted. T.contents (counted_inner counted) };

    fn write(&mut self, buf: &[u8]) -> io::Result<usize>
        ensures bound { WritesAtMost result buf.now }
        ensures bytes { WriteAppends (T.contents (counted_inner self.old))
            (T.contents (counted_inner self.new)) result buf.now }
        ensures taken { IfOk result (λ count. (0 < count) ⊎ (buf.now ≡ []) →
            counted_failures self.new ≡ counted_failures self.old) }
        ensures none_taken { IfOk result (λ count. count ≡ 0 → 0 < length buf.now →
            counted_failures self.new ≡ one_more (counted_failures self.old)) }
        ensures err { OnErr result (counted_failures self.new ≡
            one_more (counted_failures self.old)) }
        ensures reads { counted_reads self.new ≡ counted_reads self.old }
    {
        let result = self.inner.write(buf);
        let has_failed = match &result {
            Ok(count) => *count == 0 && !buf.is_empty(),
            Err(_) => true,
        };
        if has_failed {
            self.count_failure();
        }
        result
    }

    fn flush(&mut self) -> io::Result<()>
        ensures bytes { Keeps (T.contents (counted_inner self.old))
            (T.contents (counted_inner self.new)) }
        ensures ok { OnOk result (counted_failures self.new ≡ counted_failures self.old) }
        ensures err { OnErr result (counted_failures self.new ≡
            one_more (counted_failures self.old)) }
        ensures reads { counted_reads self.new ≡ counted_reads self.old }
    {
        let result = self.inner.flush();
        if result.is_err() {
            self.count_failure();
        }
        result
    }
}

impl<T: Write> Sink for Counted<T> {
    ghost use Rattle.counted_io.specs.Counted.{counted_failures};

    ghost failure_count = { λ counted. counted_failures counted };

    fn failures(&self) -> u64 {
        Counted::failures(self)
    }

    fn write_and_count(&mut self, buf: &[u8]) -> io::Result<usize> {
        // Read only so that the proof knows the range of the count.
        let _failures = self.failures;
        self.write(buf)
    }

    fn flush_and_count(&mut self) -> io::Result<()> {
        // Read only so that the proof knows the range of the count.
        let _failures = self.failures;
        self.flush()
    }
}
