use std::io;
use std::io::Read;

/// A reader that never ends: each read returns one byte `x`, if there is room for it.
#[derive(Clone, Copy, Debug)]
pub struct Endless;

impl Read for Endless {
    fn read(&mut self, buf: &mut [u8]) -> io::Result<usize> {
        let Some(first) = buf.first_mut() else {
            return Ok(0);
        };
        *first = b'x';
        Ok(1)
    }
}
