ghost use Rattle.std.specs.Prelude.{◌≡◌, ◌==◌, length, option_copied, option_map};
ghost use Rattle.xbar_equip.specs.Word.{word_count};
ghost use Rattle.xbar_match.specs.Effects.{IsCrosspoint};
ghost use Rattle.xbar_match.specs.Switches.{held_at};
ghost use Rattle.xbar_look.specs.Jobs.{closed_of as closed_in, paths_in, paths_of as paths_by, paths_of_end};

use xbar_equip::{Crosspoint, Path};
use xbar_match::shape_at;
use xbar_office::{End, Reply};
use xbar_switch::field;

/// The paths that a job takes or lets go: its own, and the other party's.
#[derive(Clone, Copy)]
pub struct JobPaths {
    pub own: Path,
    pub other: Option<Path>,
}

/// The paths that a job takes or lets go by its end, if there are any.
fn paths_of_end(end: &End) -> Option<JobPaths>
    ensures { paths_in result ≡ paths_of_end end.now }
{
    match end {
        End::DialTone { path, .. } => Some(JobPaths {
            own: *path,
            other: None,
        }),
        End::Connected {
            calling,
            called,
            ..
        } => Some(JobPaths {
            own: *calling,
            other: *called,
        }),
        End::Released { own, other } => Some(JobPaths {
            own: *own,
            other: *other,
        }),
        _ => None,
    }
}

/// The paths that a job takes or lets go by its reply. None before the job is decided.
pub fn paths_of(reply: Option<&Reply>) -> Option<JobPaths>
    ensures { paths_in result ≡ paths_by (option_copied reply.entry) }
{
    match reply {
        None => None,
        Some(reply) => paths_of_end(&reply.end),
    }
}

/// Whether the word of the crosspoint's switch shows it closed, at the crosspoint's own place.
fn is_closed(words: &[u64], crosspoint: &Crosspoint) -> bool
    requires words { length words.now ≡ word_count }
    requires crosspoint { IsCrosspoint crosspoint.now }
    ensures { result ≡ (held_at words.now crosspoint.now.word crosspoint.now.field
        == crosspoint.now.value) }
{
    let number = crosspoint.word.number();
    let word = words[usize::from(number)];
    field(shape_at(number), word, crosspoint.field) == crosspoint.value
}

/// How many of the path's four crosspoints are closed, each at the path's own place.
pub fn closed_of(words: &[u64], path: &Path) -> u8
    requires { length words.now ≡ word_count }
    ensures { result ≡ closed_in words.now path.now }
{
    let [line, line_junctor, trunk_junctor, trunk] = path.crosspoints();
    u8::from(is_closed(words, &line))
        + u8::from(is_closed(words, &line_junctor))
        + u8::from(is_closed(words, &trunk_junctor))
        + u8::from(is_closed(words, &trunk))
}
