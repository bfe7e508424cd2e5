//! A writer that takes at most two bytes at a time, and once none.

use super::*;
use std::io;

/// Takes at most two bytes at each write, and none at the one after `writes` others.
#[derive(Drop)]
struct Stuck {
    taken: Vec<u8>,
    writes: u32,
}

impl Stuck {
    fn new(alloc: Global, writes: u32) -> Self {
        Stuck {
            taken: Vec::new(alloc),
            writes,
        }
    }
}

impl Write for Stuck {
    fn write(&mut self, buf: &[u8]) -> io::Result<usize> {
        let Some(writes) = self.writes.checked_sub(1) else {
            self.writes = u32::MAX;
            return Ok(0);
        };
        self.writes = writes;
        let count = buf.len().min(2);
        self.taken.extend_from_slice(&buf[..count])?;
        Ok(count)
    }

    fn flush(&mut self) -> io::Result<()> {
        Ok(())
    }
}

const BIT_BY_BIT: &[DeviceCall] = &[
    DeviceCall::Write(8),
    DeviceCall::Write(6),
    DeviceCall::Write(4),
    DeviceCall::Write(2),
    DeviceCall::Flush,
];

#[test]
fn what_goes_out_bit_by_bit_is_flushed_once(rt: HostRuntime) -> Result<(), Fail> {
    let mut sink = Counted::new(Recorder::new(rt.alloc(), Stuck::new(rt.alloc(), 100)));
    write_all(&mut sink, b"8 bytes\n")?;
    check_eq!(rt; sink.get_ref().calls.as_slice(), BIT_BY_BIT);
    check_eq!(rt; sink.get_ref().inner.taken.as_slice(), b"8 bytes\n".as_slice());
    Ok(())
}

/// A write that takes none of some bytes is counted as a failure, but returns no error.
#[test]
fn a_write_that_takes_nothing_is_handed_on(rt: HostRuntime) -> Result<(), Fail> {
    let mut sink = Counted::new(Stuck::new(rt.alloc(), 0));
    check_eq!(rt; (sink.write(b"ab")?, sink.failures()), (0, 1));
    check_eq!(rt; (sink.write(b"ab")?, sink.failures()), (2, 1));
    check_eq!(rt; (sink.write(b"")?, sink.failures()), (0, 1));
    Ok(())
}
