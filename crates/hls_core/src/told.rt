// The text of a report that is to be written.
ghost use Rattle.std.specs.Prelude.{◌≡◌, ◌++◌, IfOk, OnOk, OnErr};
ghost use Rattle.std.specs.Io.KnownBytes.{Appends};
ghost use Rattle.hls_io.specs.Bytes.{TellsAlike, AppendsPart};
ghost use Rattle.hls_io.specs.Faults.{CountsFaults};
ghost use Rattle.hls_core_journal.specs.Schedule.{schedule_text};
ghost use Rattle.hls_core.specs.Texts.{told_text};

use hls_core_journal::Schedule;
use hls_io::{Failed, Sink, gather, write_all};
use std::alloc::{AllocError, Global};

/// How many bytes of a schedule are held until they are written together.
const ROOM: usize = 65_536;

/// The text of a report. What comes before its schedule and what comes after it stand as text; the schedule, which
/// may be long, is kept in records and becomes text while it is written.
#[derive(Drop)]
pub struct Told {
    front: Vec<u8>,
    schedule: Schedule,
    back: Vec<u8>,
    room: Vec<u8>,
}

impl Told {
    /// The text of these parts. All the memory that it takes to write it is taken here.
    ///
    /// # Errors
    /// Returns `AllocError` for want of memory.
    pub(crate) fn new(
        alloc: Global,
        front: Vec<u8>,
        schedule: Schedule,
        back: Vec<u8>,
    ) -> Result<Told, AllocError>
        ensures { IfOk result (λ told. told_text told ≡ front.items ++ schedule_text schedule ++ back.items) }
    {
        Ok(Told {
            front,
            schedule,
            back,
            room: Vec::with_capacity(alloc, ROOM)?,
        })
    }

    /// Writes the whole text. It takes no memory.
    ///
    /// # Errors
    /// Returns `Failed` where a write failed, which stops it. A part of the text is written by then.
    pub fn write<K: Sink>(self, sink: &mut K) -> Result<(), Failed>
        ensures whole { OnOk result (Appends (K.written sink.old) (K.written sink.new) (told_text self)) }
        ensures part { OnErr result (AppendsPart (K.written sink.old) (K.written sink.new) (told_text self)) }
        ensures told { TellsAlike (K.written sink.old) (K.written sink.new) }
        ensures faults { CountsFaults (K.faults sink.old) (K.faults sink.new) result }
    {
        let Told {
            front,
            schedule,
            back,
            mut room,
        } = self;
        room.clear();
        gather(sink, &mut room, &front)?;
        schedule.write(sink, &mut room)?;
        gather(sink, &mut room, &back)?;
        write_all(sink, &room)
    }
}
