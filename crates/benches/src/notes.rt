//! Notes: what it costs a desk to write one, and another to learn it.

ghost use Rattle.std.specs.Prelude.{◌≤◌};
ghost use Rattle.desks.specs.Views.{IsDeskOf};

use crate::timing::nanoseconds_each;
use desks::Room;
use slot_desks::SlotJobs;
use slot_desks::driving::{SlotDesk, SlotRoom};
use std::alloc::Global;
use std::io;
use std::rt::Clock;
use std::time::Instant;

/// Has one desk write `times` notes, and the other learn each of them.
fn hand_notes(room: &SlotRoom, writer: &mut SlotDesk, reader: &mut SlotDesk, times: u32)
    requires writer { IsDeskOf writer.old room.now tt }
    requires reader { IsDeskOf reader.old room.now tt }
{
    for _made in 0..times {
        let note = writer.note(room);
        reader.learn(room, &(), note);
    }
}

/// Measures 1000 * `thousands` notes between two desks of one thread, and prints the time of one.
pub fn measure<R: Eprint + Clock>(rt: &R, alloc: Global, thousands: u32) -> io::Result<()>
    requires { thousands ≤ 100000 }
{
    let times = thousands * 1000;
    let (room, mut desks) = Room::<SlotJobs>::open(alloc, &(), 2)?;
    let (Some(mut reader), Some(mut writer)) = (desks.pop(), desks.pop()) else {
        return Ok(());
    };
    let start = Instant::now(rt)?;
    hand_notes(&room, &mut writer, &mut reader, times);
    let note = nanoseconds_each(start.elapsed(rt)?, 1, u64::from(times));
    eprintln!(rt; "a note written and learned: {note} ns")
}
