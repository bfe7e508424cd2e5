ghost use Rattle.std.specs.Prelude.{◌≡◌, Some, IsOk};
ghost use Rattle.std.specs.Io.{ReadsAtMost};
ghost use Rattle.std.specs.Io.KnownBytes.{ReadConsumes};

use crossbar5::Source;
use std::io;
use std::io::Read;

/// Bytes in memory, as the engine's input. No read fails. The reads are not counted: their count
/// is there to end an input that has no end.
#[derive(Drop)]
pub struct Bytes<'a>(&'a [u8]);

impl<'a> Bytes<'a> {
    ghost use Rattle.crossbar5_c.specs.Bytes.{rest_of};

    pub fn new(bytes: &'a [u8]) -> Self
        ensures { rest_of result ≡ bytes.now }
    {
        Bytes(bytes)
    }
}

impl Read for Bytes<'_> {
    ghost use Rattle.crossbar5_c.specs.Bytes.{rest_of};

    ghost remaining = { λ bytes. Some (rest_of bytes) };

    fn read(&mut self, buf: &mut [u8]) -> io::Result<usize>
        ensures bound { ReadsAtMost result buf.new }
        ensures bytes { ReadConsumes (Some (rest_of self.old)) (Some (rest_of self.new)) result
            buf.new }
        ensures ok { IsOk result }
    {
        self.0.read(buf)
    }
}

impl Source for Bytes<'_> {
    ghost failure_count = { λ bytes. 0 };

    ghost read_count = { λ bytes. Some 0 };

    fn failures(&self) -> u64 {
        0
    }

    fn reads(&self) -> u64 {
        0
    }

    fn read_and_count(&mut self, buf: &mut [u8]) -> io::Result<usize> {
        self.read(buf)
    }
}
