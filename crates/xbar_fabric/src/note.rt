//! Notes: messages by which desks on other threads learn what a desk has seen.

ghost use Rattle.std.specs.Prelude.{◌≡◌};
ghost use Rattle.xbar_fabric.specs.Meetings.{MarkerHasLearned};
ghost use Rattle.xbar_fabric.specs.Views.{IsDeskOf};

use crate::desk::Desk;
use crate::fabric::Fabric;
use crate::office::Office;
use std::marker::Model;

/// What a desk had seen of the history when it wrote the note. A note is zero-sized, may go to any
/// thread, and may be dropped at any time.
#[derive(Drop)]
pub struct Note {
    pub(crate) note: desks::Note<Office>,
}

impl Model for Note {
    ghost use Rattle.std.specs.Prelude.{map};
    ghost use Rattle.xbar_fabric.specs.Views.{NoteView, entered};

    ghost Value = { NoteView };

    ghost view = { λ n. record { table = n.note.table; seen = map entered n.note.seen } };
}

impl Note {
    /// Copies the note, for one more desk to learn.
    pub fn copy(&mut self, fabric: &Fabric) -> Note
        requires table { self.old.table ≡ fabric.now.table }
        ensures same { self.new ≡ self.old }
        ensures note { result ≡ self.old }
    {
        Note {
            note: self.note.copy(&fabric.room),
        }
    }
}

impl Desk {
    /// Writes a note of all that the desk has seen, for other desks to learn.
    pub fn note(&mut self, fabric: &Fabric) -> Note
        requires table { self.old.table ≡ fabric.now.table }
        ensures same { self.new ≡ self.old }
        ensures note { result ≡ record { table = self.old.table; seen = self.old.seen } }
    {
        Note {
            note: self.desk.note(&fabric.room),
        }
    }

    /// Learns a note: the desk has then seen all that the note has, and all turns so far. Its
    /// later records come after all of these.
    pub fn learn(&mut self, fabric: &Fabric, note: Note)
        requires desk { IsDeskOf self.old fabric.now }
        requires note { note.table ≡ fabric.now.table }
        ensures same { self.new ≡ record (self.old) { seen = self.new.seen } }
        ensures learned { MarkerHasLearned self.old note.seen self.new }
    {
        let Note { note } = note;
        self.desk.learn(&fabric.room, fabric.plan, note);
    }
}
