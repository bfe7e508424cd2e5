ghost use Rattle.std.specs.Prelude.{◌≡◌, ◌<◌, IfSome};
ghost use Rattle.xbar_jobs.specs.Keeping.{AreEffects};

use crate::effect::{Effect, made};
use xbar_equip::{Len, line_switch};
use xbar_match::find_line;

/// A party to a call: its line, and the value of the line's switch word.
#[derive(Clone, Copy, Debug)]
pub struct Party {
    pub line: Len,
    pub word: u64,
}

impl Party {
    ghost use Rattle.xbar_jobs.specs.Sides.{party_after};
    ghost use Rattle.xbar_jobs.specs.Tracing.{channel_of};

    /// The channel of the line's path, or None if the line is idle.
    pub fn channel(&self) -> Option<u8>
        ensures channel { result ≡ channel_of self.now }
        ensures range { IfSome result (λ channel. channel < 10) }
    {
        find_line(self.word, self.line.x())
    }

    /// The party with its word as effects will leave it.
    pub fn after(&self, effects: &[Effect]) -> Self
        requires { AreEffects effects.now }
        ensures { result ≡ party_after effects.now self.now }
    {
        let line = self.line;
        let number = line_switch(line.frame(), line.switch());
        Party {
            line,
            word: made(effects, number, self.word),
        }
    }
}

/// The parties to a call: the calling one, and the called one if it is a line of the office.
#[derive(Clone, Copy)]
pub struct CallParties {
    pub calling: Party,
    pub called: Option<Party>,
}

impl CallParties {
    ghost use Rattle.xbar_jobs.specs.Connecting.{alone as alone_of};

    /// The calling party alone, joined to no other line of the office.
    pub fn alone(calling: &Party) -> Self
        ensures { result ≡ alone_of calling.now }
    {
        CallParties {
            calling: *calling,
            called: None,
        }
    }
}
