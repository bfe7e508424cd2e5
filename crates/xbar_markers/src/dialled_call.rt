ghost use Rattle.std.specs.Prelude.{◌≡◌, None};
ghost use Rattle.xbar_markers.specs.Notes.{IsNoted};

use crate::call::Call;
use crate::call_records::CallRecords;
use crate::words::Words;
use fair_queue::Item;
use std::marker::{Model, PhantomData};
use xbar_fabric::Note;
use xbar_office::Record;

/// A call that was dialled, and no more: what goes from one worker to another, without room for
/// further records. Its note has the turn of its dial tone job.
#[derive(Drop)]
pub struct DialledCall<W: Words> {
    pub call: Call,
    pub dial: Record,
    pub note: Note,
    of: PhantomData<W>,
}

impl<W: Words> Model for DialledCall<W> {
    ghost use Rattle.std.specs.Prelude.{◌≡◌, None};
    ghost use Rattle.xbar_markers.specs.Notes.{IsNoted};
    ghost use Rattle.xbar_markers.specs.declared.call_records.CallRecords.{CallRecords};

    ghost Value = { CallRecords };

    ghost view = { λ c. record { call = c.call; dial = c.dial; complete = None; release = None } };

    ghost invariant = { λ c. (c.note.table ≡ W.table) × IsNoted c.note.seen c.dial };
}

impl<W: Words> Item for DialledCall<W> {
    ghost use Rattle.xbar_markers.specs.Calls.{HasDialTone};

    ghost sound = { HasDialTone };
}

impl<W: Words> DialledCall<W> {
    /// A call with its dial tone job's record, and a note that was written after the job.
    pub fn new(call: Call, dial: Record, note: Note) -> Self
        requires words { note.table ≡ W.table }
        requires noted { IsNoted note.seen dial }
        ensures { result
            ≡ record { call = call; dial = dial; complete = None; release = None } }
    {
        DialledCall {
            call,
            dial,
            note,
            of: PhantomData,
        }
    }

    /// Adds room for the call's further records.
    pub fn into_records(self) -> CallRecords
        ensures { result ≡ self }
    {
        CallRecords {
            call: self.call,
            dial: self.dial,
            complete: None,
            release: None,
        }
    }
}
