ghost use Rattle.std.specs.Prelude.{◌≡◌};
ghost use Rattle.xbar_office.specs.Replies.{success_end as success_end_of};

use crate::reply::End;
use crate::trial::Choice;

/// What the trials of a job are for.
#[derive(Clone, Copy, Debug, PartialEq, Eq)]
pub enum Aim {
    /// To connect the calling line to a register.
    DialTone,
    /// To connect the calling line to a trunk or to the called line.
    Connected,
}

impl Aim {
    /// The end of a job with this aim, if a trial made this choice.
    pub fn success_end(self, choice: &Choice) -> End
        ensures { result ≡ success_end_of self choice.now }
    {
        match self {
            Aim::DialTone => End::DialTone {
                path: choice.paths.calling,
                trial: choice.trial,
            },
            Aim::Connected => End::Connected {
                calling: choice.paths.calling,
                called: choice.paths.called,
                trial: choice.trial,
            },
        }
    }
}
