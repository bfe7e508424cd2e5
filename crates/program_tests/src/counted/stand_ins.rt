//! The readers and writers of `test_tools` that take the place of a device.

use super::*;

#[test]
fn one_read_fails(rt: HostRuntime) -> Result<(), Fail> {
    let mut two = [0; 2];
    let mut reader = FailAt::new(1, b"abcd".as_slice());
    check_eq!(rt; (reader.read(&mut two)?, two), (2, [b'a', b'b']));
    check!(rt; reader.read(&mut two).is_err());
    check_eq!(rt; (reader.read(&mut two)?, two), (2, [b'c', b'd']));
    check_eq!(rt; reader.read(&mut two)?, 0);
    Ok(())
}

#[test]
fn one_flush_fails(rt: HostRuntime) -> Result<(), Fail> {
    let mut writer = FailAt::new(1, Vec::new(rt.alloc()));
    check_eq!(rt; writer.write(b"ab")?, 2);
    check!(rt; writer.flush().is_err());
    writer.flush()?;
    check_eq!(rt; writer.write(b"cd")?, 2);
    check_eq!(rt; writer.inner.as_slice(), b"abcd".as_slice());
    Ok(())
}

#[test]
fn bytes_come_one_by_one(rt: HostRuntime) -> Result<(), Fail> {
    let mut two = [0; 2];
    for _ in 0..3 {
        check_eq!(rt; (Endless.read(&mut two)?, two), (1, [b'x', 0]));
    }
    check_eq!(rt; Endless.read(&mut [])?, 0);
    Ok(())
}

#[test]
fn calls_are_kept(rt: HostRuntime) -> Result<(), Fail> {
    let mut reader = Recorder::new(rt.alloc(), b"abc".as_slice());
    let reads = [reader.read(&mut [0; 2])?, reader.read(&mut [])?];
    check_eq!(rt; reads, [2, 0]);
    let wanted = [DeviceCall::Read(2), DeviceCall::Read(0)];
    check_eq!(rt; reader.calls.as_slice(), wanted.as_slice());
    let mut writer = Recorder::new(rt.alloc(), Vec::new(rt.alloc()));
    check_eq!(rt; writer.write(b"abc")?, 3);
    writer.flush()?;
    check_device(
        &rt,
        &writer,
        &[DeviceCall::Write(3), DeviceCall::Flush],
        b"abc",
    );
    Ok(())
}
