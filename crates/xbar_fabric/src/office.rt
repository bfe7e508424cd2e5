use desk_attempts::{Attempts, InRoom};
use std::alloc::{AllocError, Global};
use std::ops::Range;
use std::snapshot::Snapshot;
use xbar_equip::{Conn, WORD_COUNT, words_under};
use xbar_jobs::{HELD, Offices, READINGS};
use xbar_plan::Plan;

/// The room of an office: each word that markers change much stands apart from the others.
pub struct OfficeRoom;

/// The office's jobs as `desks` runs them.
pub type Office = Attempts<Offices, OfficeRoom, READINGS, HELD>;

impl InRoom<OfficeRoom, READINGS, HELD> for Offices {
    ghost use Rattle.xbar_fabric.specs.WordPlaces.{are_word_places, word_places};
    ghost use Rattle.xbar_jobs.proofs.Programs.{scripts_are};

    type Kept = Snapshot<Plan>;

    ghost kept = { λ snapshot. snapshot.value };

    ghost places = { λ _. word_places };

    fn keep(plan: &Plan) -> Snapshot<Plan> {
        Snapshot::of(plan)
    }

    // The frames' words stand side by side. Each group's word, each connector's and the turn word,
    // which markers change most, stand 128 bytes apart: a processor fetches two cache lines of 64
    // bytes at a time.
    fn place(_plan: &Plan, word: usize) -> usize {
        if word < 400 {
            word
        } else {
            400 + (word - 400) * 16
        }
    }

    fn place_count(_plan: &Plan) -> usize {
        1248
    }

    fn initial(alloc: Global, _plan: &Plan) -> Result<Vec<u64>, AllocError> {
        vec![in alloc; 0; WORD_COUNT]
    }

    fn words_under(_plan: &Plan, conn: Conn) -> Range<usize> {
        words_under(conn)
    }

    ghost are_scripts = { scripts_are };

    ghost are_places = { λ _ _. are_word_places };
}
