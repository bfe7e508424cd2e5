ghost use Rattle.std.specs.Prelude.{Some};
ghost use Rattle.xbar_json.specs.Office.{end_members};

use crate::path_value::PathValue;
use std::fmt;
use xbar_office::End;
use xbar_report::name_of;

/// How a job ended: the end's name, its trial, its own path and the other party's.
#[derive(Clone, Copy)]
pub struct EndMembers<'e>(pub &'e End);

impl fmt::Display for EndMembers<'_> {
    ghost output = { λ members. Some (end_members members.0.now) };

    #[tactic(auto, unfolding(crate::specs::Office::end_members))]
    fn fmt<W: fmt::Write>(&self, f: &mut fmt::Formatter<W>) -> fmt::Result {
        let name = name_of(self.0);
        match self.0 {
            End::DialTone { path, trial } => write!(
                f,
                r#""end":"{name}","trial":{trial},"path":"{path}","other":null"#
            ),
            End::Connected {
                calling,
                called,
                trial,
            } => write!(
                f,
                r#""end":"{name}","trial":{trial},"path":"{calling}","other":{}"#,
                PathValue(called)
            ),
            End::Released { own, other } => write!(
                f,
                r#""end":"{name}","trial":null,"path":"{own}","other":{}"#,
                PathValue(other)
            ),
            _ => write!(f, r#""end":"{name}","trial":null,"path":null,"other":null"#),
        }
    }
}
