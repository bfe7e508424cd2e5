ghost use Rattle.std.specs.Prelude.{◌≡◌, []};
ghost use Rattle.crossbar5_c.specs.Answer.{IsGiven};

use crate::answered::Answered;
use std::alloc::Global;

/// What a call is answered: a text, and a status.
#[derive(Drop)]
pub struct Answer {
    pub text: Vec<u8>,
    pub status: u32,
}

impl Answer {
    /// An answer without a text.
    pub fn without_text(alloc: Global, status: u32) -> Self
        ensures text { result.text.items ≡ [] }
        ensures status { result.status ≡ status }
    {
        Answer {
            text: Vec::new(alloc),
            status,
        }
    }

    /// Tells the caller the length and the status, and writes the text if there is room for it.
    pub fn give(&self, out: &mut [u8], answered: &mut Answered)
        ensures given { IsGiven self.now.text.items answered.new.length out.old out.new }
        ensures status { answered.new.status ≡ self.now.status }
    {
        let text = self.text.as_slice();
        answered.length = text.len();
        answered.status = self.status;
        if text.len() <= out.len() {
            out[..text.len()].copy_from_slice(text);
        }
    }
}
