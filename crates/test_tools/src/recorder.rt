ghost use Rattle.std.specs.Prelude.{◌≡◌, [], vec_items};

use std::alloc::Global;
use std::io;
use std::io::{Read, Write};

/// A call of a reader or writer, with the length of its buffer.
#[derive(Clone, Copy, Debug, PartialEq, Eq)]
pub enum DeviceCall {
    Read(usize),
    Write(usize),
    Flush,
}

/// Passes each call on to a device, and records the calls in order.
#[derive(Debug, Drop)]
pub struct Recorder<T> {
    pub inner: T,
    pub calls: Vec<DeviceCall>,
}

impl<T> Recorder<T> {
    /// Wraps a device. No call is recorded yet.
    pub fn new(alloc: Global, inner: T) -> Self
        ensures inner { result.inner ≡ inner }
        ensures calls { vec_items result.calls ≡ [] }
    {
        Recorder {
            inner,
            calls: Vec::new(alloc),
        }
    }
}

impl<T: Read> Read for Recorder<T> {
    ghost remaining = { λ device. T.remaining device.inner };

    fn read(&mut self, buf: &mut [u8]) -> io::Result<usize> {
        self.calls.push(DeviceCall::Read(buf.len()))?;
        self.inner.read(buf)
    }
}

impl<T: Write> Write for Recorder<T> {
    ghost contents = { λ device. T.contents device.inner };

    fn write(&mut self, buf: &[u8]) -> io::Result<usize> {
        self.calls.push(DeviceCall::Write(buf.len()))?;
        self.inner.write(buf)
    }

    fn flush(&mut self) -> io::Result<()> {
        self.calls.push(DeviceCall::Flush)?;
        self.inner.flush()
    }
}
