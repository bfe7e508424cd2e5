ghost use Rattle.std.specs.Prelude.{◌≡◌, Some};

use std::io;
use std::io::{ErrorKind, Read, Write};

/// Passes calls on to a device, except for one call, which fails without reaching the device.
#[derive(Debug, Drop)]
pub struct FailAt<T> {
    pub inner: T,
    /// The number of calls to pass on before the one that fails. None after it.
    pub passes: Option<u32>,
}

impl<T> FailAt<T> {
    /// Fails one call, after `passes` others.
    pub fn new(passes: u32, inner: T) -> Self
        ensures inner { result.inner ≡ inner }
        ensures passes { result.passes ≡ Some passes }
    {
        FailAt {
            inner,
            passes: Some(passes),
        }
    }

    /// Counts a call, which fails if its number has come.
    fn pass(&mut self) -> io::Result<()>
        ensures { self.new.inner ≡ self.old.inner }
    {
        let Some(passes) = self.passes else {
            return Ok(());
        };
        self.passes = passes.checked_sub(1);
        match self.passes {
            Some(_) => Ok(()),
            None => Err(io::Error::new(ErrorKind::Other, "the device failed")),
        }
    }
}

impl<T: Read> Read for FailAt<T> {
    ghost remaining = { λ device. T.remaining device.inner };

    fn read(&mut self, buf: &mut [u8]) -> io::Result<usize> {
        self.pass()?;
        self.inner.read(buf)
    }
}

impl<T: Write> Write for FailAt<T> {
    ghost contents = { λ device. T.contents device.inner };

    fn write(&mut self, buf: &[u8]) -> io::Result<usize> {
        self.pass()?;
        self.inner.write(buf)
    }

    fn flush(&mut self) -> io::Result<()> {
        self.pass()?;
        self.inner.flush()
    }
}
