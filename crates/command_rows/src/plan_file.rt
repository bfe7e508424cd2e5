use crossbar5::Counted;
use crossbar5_cli::{CheckedWork, System};
use std::io;

/// The system's error number for a file that doesn't exist.
const NO_SUCH_FILE: i32 = 2;

/// A system with one file, under every name, or with none.
#[derive(Drop)]
pub struct PlanFile<'p> {
    pub text: Option<&'p str>,
}

impl<'p> System for PlanFile<'p> {
    type File = Counted<&'p [u8]>;

    fn open(&self, _name: &str) -> io::Result<Counted<&'p [u8]>> {
        match self.text {
            Some(text) => Ok(Counted::new(text.as_bytes())),
            None => Err(io::Error::from_raw_os_error(NO_SUCH_FILE)),
        }
    }

    fn begin(&self, _work: &CheckedWork) {}

    fn end(&self) {}
}
