//! A source or sink whose counts never change.

ghost use Rattle.std.specs.Prelude.{◌-◌, ◌^◌};

use super::*;
use std::io;

/// A source or sink whose counts never change. That of its failures is at its maximum.
#[derive(Drop)]
struct Still<T> {
    inner: T,
    reads: u64,
}

impl<T> Still<T> {
    fn new(inner: T) -> Self {
        Still { inner, reads: 0 }
    }
}

impl<T: Read> Read for Still<T> {
    ghost remaining = { λ still. T.remaining still.inner };

    fn read(&mut self, buf: &mut [u8]) -> io::Result<usize> {
        self.inner.read(buf)
    }
}

impl<T: Read> Source for Still<T> {
    ghost failure_count = { λ _. 2 ^ 64 - 1 };

    fn failures(&self) -> u64 {
        u64::MAX
    }

    fn reads(&self) -> u64 {
        self.reads
    }

    fn read_and_count(&mut self, buf: &mut [u8]) -> io::Result<usize> {
        self.read(buf)
    }
}

impl<T: Write> Write for Still<T> {
    ghost contents = { λ still. T.contents still.inner };

    fn write(&mut self, buf: &[u8]) -> io::Result<usize> {
        self.inner.write(buf)
    }

    fn flush(&mut self) -> io::Result<()> {
        self.inner.flush()
    }
}

impl<T: Write> Sink for Still<T> {
    ghost failure_count = { λ _. 2 ^ 64 - 1 };

    fn failures(&self) -> u64 {
        u64::MAX
    }

    fn write_and_count(&mut self, buf: &[u8]) -> io::Result<usize> {
        self.write(buf)
    }

    fn flush_and_count(&mut self) -> io::Result<()> {
        self.flush()
    }
}

const ALL_OF_IT: &[u8] = b"all of it\n";

/// The fault of `read_all` if a read fails after `calls` others.
fn read_fault(alloc: Global, calls: u32) -> Option<ReadFault> {
    let mut source = Still::new(FailAt::new(calls, ALL_OF_IT));
    read_all(alloc, &mut source).err()
}

/// The result of `write_all` if a write or the flush fails after `calls` other calls.
fn written(alloc: Global, calls: u32) -> Result<(), WriteFault> {
    let mut sink = Still::new(FailAt::new(calls, Vec::new(alloc)));
    write_all(&mut sink, ALL_OF_IT)
}

#[test]
fn an_error_is_told_where_the_count_can_not_rise(rt: HostRuntime) {
    for calls in 0..2 {
        let fault = read_fault(rt.alloc(), calls);
        check_eq!(rt; fault, Some(ReadFault::Device), "after {calls}");
        let written = written(rt.alloc(), calls);
        check_eq!(rt; written, Err(WriteFault::Device), "after {calls}");
    }
}

#[test]
fn reads_that_are_not_counted_are_never_too_many(rt: HostRuntime) -> Result<(), Fail> {
    let mut source = Still::new(Endless.take(1_048_600));
    check_eq!(rt; read_all(rt.alloc(), &mut source)?.len(), 1_048_600);
    Ok(())
}

/// The count of reads, and the fault of three more reads, if any.
const READS_BEFORE: &[(u64, Option<ReadFault>)] = &[
    (u64::MAX, Some(ReadFault::Long)),
    (u64::MAX - 1, None),
];

#[test]
fn a_count_of_reads_at_its_most(rt: HostRuntime) {
    for (reads, wanted) in READS_BEFORE {
        let mut source = Still {
            inner: Endless.take(3),
            reads: *reads,
        };
        let fault = read_all(rt.alloc(), &mut source).err();
        check_eq!(rt; fault, *wanted, "at {reads}");
    }
}
