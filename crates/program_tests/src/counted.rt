//! Readers and writers that count their failures, `read_all` and `write_all`: what no contract
//! says.

use counted_io::{Counted, ReadFault, Sink, Source, WriteFault, read_all, write_all};
use std::alloc::Global;
use std::io::{Read, Write};
use std::process::Abort;
use std::test::Fail;
use test_tools::{DeviceCall, Endless, FailAt, Recorder, check, check_eq};

mod stand_ins;
mod still;
mod stuck;

const READS: &[DeviceCall] = &[
    DeviceCall::Read(5),
    DeviceCall::Read(3),
    DeviceCall::Read(0),
    DeviceCall::Read(5),
];

#[test]
fn each_read_reaches_the_device_once(rt: HostRuntime) -> Result<(), Fail> {
    let mut source = Counted::new(Recorder::new(rt.alloc(), b"seven b".as_slice()));
    let first = source.read(&mut [0; 5])?;
    let second = source.read_and_count(&mut [0; 3])?;
    let empty = source.read(&mut [])?;
    let end = source.read_and_count(&mut [0; 5])?;
    check_eq!(rt; [first, second, empty, end], [5, 2, 0, 0]);
    check_eq!(rt; source.get_ref().calls.as_slice(), READS);
    Ok(())
}

const WRITES: &[DeviceCall] = &[
    DeviceCall::Write(4),
    DeviceCall::Flush,
    DeviceCall::Write(0),
    DeviceCall::Write(6),
    DeviceCall::Flush,
];

/// Checks that the device got these calls and holds these bytes.
fn check_device(rt: &impl Abort, device: &Recorder<Vec<u8>>, calls: &[DeviceCall], bytes: &[u8]) {
    check_eq!(rt; device.calls.as_slice(), calls);
    check_eq!(rt; device.inner.as_slice(), bytes);
}

#[test]
fn each_write_and_flush_reaches_the_device_once(rt: HostRuntime) -> Result<(), Fail> {
    let mut sink = Counted::new(Recorder::new(rt.alloc(), Vec::new(rt.alloc())));
    let first = sink.write(b"some")?;
    sink.flush()?;
    let empty = sink.write_and_count(b"")?;
    let second = sink.write_and_count(b" bytes")?;
    sink.flush_and_count()?;
    check_eq!(rt; [first, empty, second], [4, 0, 6]);
    check_device(&rt, &sink.into_inner(), WRITES, b"some bytes");
    Ok(())
}

/// Only failures of the wrapped device are counted.
#[test]
fn each_failure_is_the_device_s_own(rt: HostRuntime) {
    let alloc = rt.alloc();
    let device = FailAt::new(0, b"".as_slice());
    let mut source = Counted::new(Recorder::new(alloc, device));
    check!(rt; source.read_and_count(&mut [0; 3]).is_err());
    check_eq!(rt; source.failures(), 1);
    check_eq!(rt; source.get_ref().calls.as_slice(), [DeviceCall::Read(3)].as_slice());
    for calls in 0..2 {
        let device = FailAt::new(calls, Vec::new(alloc));
        let mut sink = Counted::new(Recorder::new(alloc, device));
        let has_failed_write = sink.write_and_count(b"ab").is_err();
        let has_failed_flush = sink.flush_and_count().is_err();
        check_eq!(rt; [has_failed_write, has_failed_flush], [calls == 0, calls == 1]);
        check_eq!(rt; sink.failures(), 1);
        let wanted = [DeviceCall::Write(2), DeviceCall::Flush];
        check_eq!(rt; sink.get_ref().calls.as_slice(), wanted.as_slice());
    }
}

const FULL_CHUNKS: &[DeviceCall] = &[DeviceCall::Read(4096); 4];

#[test]
fn all_is_read_by_full_chunks(rt: HostRuntime) -> Result<(), Fail> {
    let text = vec![in rt.alloc(); b'x'; 10_000]?;
    let mut source = Counted::new(Recorder::new(rt.alloc(), text.as_slice()));
    check_eq!(rt; read_all(rt.alloc(), &mut source)?.len(), 10_000);
    check_eq!(rt; source.get_ref().calls.as_slice(), FULL_CHUNKS);
    Ok(())
}

/// Bytes, and the calls that write all of them.
const WHOLE_WRITES: &[(&[u8], &[DeviceCall])] = &[
    (b"8 bytes\n", &[DeviceCall::Write(8), DeviceCall::Flush]),
    (b"", &[DeviceCall::Flush]),
];

#[test]
fn all_is_written_and_then_flushed_once(rt: HostRuntime) -> Result<(), Fail> {
    for (bytes, calls) in WHOLE_WRITES {
        let mut sink = Counted::new(Recorder::new(rt.alloc(), Vec::new(rt.alloc())));
        write_all(&mut sink, bytes)?;
        check_device(&rt, &sink.into_inner(), calls, bytes);
    }
    Ok(())
}

/// Three reads return bytes, and the fourth finds the end. Each of the four fails in one run.
#[test]
fn a_failed_read_is_no_end(rt: HostRuntime) -> Result<(), Fail> {
    let text = vec![in rt.alloc(); b'x'; 10_000]?;
    for calls in 0..4 {
        let mut source = Counted::new(FailAt::new(calls, text.as_slice()));
        let fault = read_all(rt.alloc(), &mut source).err();
        let counts = (source.failures(), source.reads());
        let wanted = (Some(ReadFault::Device), (1, u64::from(calls)));
        check_eq!(rt; (fault, counts), wanted);
    }
    Ok(())
}

/// The length of the input, or why it can't be read, and the number of reads that return bytes.
fn read_whole<R: Read + Drop>(alloc: Global, inner: R) -> (Result<usize, ReadFault>, u64) {
    let mut source = Counted::new(inner);
    let read = read_all(alloc, &mut source);
    let reads = source.reads();
    match read {
        Ok(bytes) => (Ok(bytes.len()), reads),
        Err(fault) => (Err(fault), reads),
    }
}

#[test]
fn the_longest_input(rt: HostRuntime) {
    let too_long = (Err(ReadFault::Long), 1_048_576);
    check_eq!(rt; read_whole(rt.alloc(), Endless), too_long);
    check_eq!(rt; read_whole(rt.alloc(), Endless.take(1_048_576)), too_long);
    let longest = (Ok(1_048_575), 1_048_575);
    check_eq!(rt; read_whole(rt.alloc(), Endless.take(1_048_575)), longest);
}

/// The text has more than two MiB.
#[test]
fn large_texts_are_read_and_written(rt: HostRuntime) -> Result<(), Fail> {
    let text = vec![in rt.alloc(); b'x'; 2_200_000]?;
    let mut source = Counted::new(text.as_slice());
    let read = read_all(rt.alloc(), &mut source)?;
    check!(rt; read.as_slice() == text.as_slice());
    // 2,200,000 is 537 chunks of 4,096 bytes and a part of one.
    check_eq!(rt; source.reads(), 538);
    let mut sink = Counted::new(Vec::new(rt.alloc()));
    write_all(&mut sink, &text)?;
    check!(rt; sink.into_inner().as_slice() == text.as_slice());
    Ok(())
}

const READ_FAULTS: &[(ReadFault, &str)] = &[
    (ReadFault::Memory, "memory ran out"),
    (ReadFault::Device, "a read failed"),
    (ReadFault::Long, "the input is too long"),
];

#[test]
fn texts_of_faults(rt: HostRuntime) -> Result<(), Fail> {
    for (fault, text) in READ_FAULTS {
        check_eq!(rt; fault.to_string(rt.alloc())?.as_str(), *text);
    }
    let fault = WriteFault::Device;
    check_eq!(rt; fault.to_string(rt.alloc())?.as_str(), "a write failed");
    Ok(())
}
