//! What a marker is at, and the words that its steps are made on.

ghost use Rattle.std.specs.Prelude.{◌≡◌, length, option_copied, option_map};
ghost use Rattle.xbar_equip.specs.Word.{word_count};
ghost use Rattle.xbar_jobs.specs.Turning.{IsStep};
ghost use Rattle.xbar_look.specs.Jobs.{job_at, under_way as under_way_at, value_under as value_at};

use xbar_core::{Marker, Work};
use xbar_jobs::Step;

/// The marker's job with its attempt, unless the marker is idle.
pub fn under_way(marker: &Marker) -> Option<&Work>
    ensures { option_map job_at (option_copied result) ≡ under_way_at marker.now }
{
    if marker.is_idle() {
        None
    } else {
        marker.work()
    }
}

/// The present value of the word that a step is made on.
pub fn value_under(words: &[u64], step: &Step) -> u64
    requires words { length words.now ≡ word_count }
    requires step { IsStep step.now }
    ensures { result ≡ value_at words.now step.now }
{
    words[usize::from(step.word().number())]
}
