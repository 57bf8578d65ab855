// The schedule of a journal, written line by line.
ghost use Rattle.std.specs.Prelude.{◌≡◌, ◌+◌, ◌<◌, ◌≤◌, ◌++◌, ◌∷◌, IfOk, OnOk, OnErr};
ghost use Rattle.std.specs.Prelude.{codes, drop, flat_map, length, All};
ghost use Rattle.hls_io.specs.Faults.{CountsFaults};
ghost use Rattle.hls_io.specs.Bytes.{TellsAlike, AppendsPart, Gathers};
ghost use Rattle.hls_report_text.specs.ReportText.{span_text, stretch_text, with_end};
ghost use Rattle.hls_core_journal.specs.declared.kept_rows.Row.{Row as RowSeen};

use crate::journal::Journal;
use crate::kept_rows::{Row, Rows};
use crate::tails::{Tails, tails_of};
use hls_io::{Failed, Sink, gather};
use itoa::write_digits;
use std::alloc::AllocError;

/// How many bytes a span has at most: two numbers of 32 bits, and two dots.
const SPAN: usize = 22;

/// How many bytes a line has at most that is handed on as one.
const LINE: usize = 96;

/// The schedule of a journal, ready to be written.
#[derive(Debug, Drop)]
pub struct Schedule {
    rows: Rows,
    tails: Tails,
    ghost known: { All (λ (row : RowSeen). row.way < length tails) rows.items },
}

/// Writes a span before a place among some bytes, and tells where it begins.
fn write_span(bytes: &mut [u8], end: usize, from: u32, to: u32) -> usize
    requires enough { 22 ≤ end }
    requires within { end ≤ length bytes.old }
    ensures within { result ≤ end }
    ensures written { drop result bytes.new ≡ span_text from to ++ drop end bytes.old }
{
    let behind = write_digits(u64::from(to), bytes, end);
    bytes[behind - 1] = b'.';
    bytes[behind - 2] = b'.';
    write_digits(u64::from(from), bytes, behind - 2)
}

/// Hands a long line on, part by part.
#[cold]
#[inline(never)]
fn gather_long<K: Sink>(
    sink: &mut K,
    room: &mut Vec<u8>,
    row: &Row,
    tail: &[u8],
) -> Result<(), Failed>
    ensures whole { OnOk result (Gathers (K.written sink.old) (K.written sink.new)
        room.old.items room.new.items (span_text row.now.from row.now.to ++ tail.now)) }
    ensures part { OnErr result (AppendsPart (K.written sink.old) (K.written sink.new)
        (room.old.items ++ (span_text row.now.from row.now.to ++ tail.now))) }
    ensures told { TellsAlike (K.written sink.old) (K.written sink.new) }
    ensures faults { CountsFaults (K.faults sink.old) (K.faults sink.new) result }
{
    let mut bytes = [0u8; SPAN];
    let from = write_span(&mut bytes, SPAN, row.from, row.to);
    gather(sink, room, &bytes[from..])?;
    gather(sink, room, tail)
}

/// Hands a line on: the span of a row, and what its line ends with. One piece goes through the room quicker than
/// two.
fn gather_line<K: Sink>(
    sink: &mut K,
    room: &mut Vec<u8>,
    row: &Row,
    tail: &[u8],
) -> Result<(), Failed>
    ensures whole { OnOk result (Gathers (K.written sink.old) (K.written sink.new)
        room.old.items room.new.items (span_text row.now.from row.now.to ++ tail.now)) }
    ensures part { OnErr result (AppendsPart (K.written sink.old) (K.written sink.new)
        (room.old.items ++ (span_text row.now.from row.now.to ++ tail.now))) }
    ensures told { TellsAlike (K.written sink.old) (K.written sink.new) }
    ensures faults { CountsFaults (K.faults sink.old) (K.faults sink.new) result }
{
    if tail.len() > LINE - SPAN {
        return gather_long(sink, room, row, tail);
    }
    let mut bytes = [0u8; LINE];
    let end = LINE - tail.len();
    bytes[end..].copy_from_slice(tail);
    let from = write_span(&mut bytes, end, row.from, row.to);
    gather(sink, room, &bytes[from..])
}

impl Schedule {
    ghost use Rattle.hls_core_journal.specs.Schedule.{schedule_text};

    /// Writes the schedule through a room, line by line. Takes no memory.
    ///
    /// # Errors
    /// Returns `Failed` where a write failed. A part of what the room held, and of the schedule, is written by then.
    pub fn write<K: Sink>(&self, sink: &mut K, room: &mut Vec<u8>) -> Result<(), Failed>
        ensures whole { OnOk result (Gathers (K.written sink.old) (K.written sink.new)
            room.old.items room.new.items (schedule_text self.now)) }
        ensures part { OnErr result (AppendsPart (K.written sink.old) (K.written sink.new)
            (room.old.items ++ schedule_text self.now)) }
        ensures told { TellsAlike (K.written sink.old) (K.written sink.new) }
        ensures faults { CountsFaults (K.faults sink.old) (K.faults sink.new) result }
    {
        gather(sink, room, b"schedule\n")?;
        let mut left = self.rows.left();
        while let Some(row) = left.next() {
            gather_line(sink, room, &row, self.tails.at(row.way as usize))?;
        }
        Ok(())
    }
}

impl Journal {
    ghost use Rattle.hls_core_journal.specs.Schedule.{schedule_text};
    ghost use Rattle.hls_core_journal.specs.Told.{stretches_of};

    /// The schedule of the ticks that have passed, ready to be written. The memory of what else a journal keeps is
    /// given back.
    ///
    /// # Errors
    /// Returns `AllocError` for want of memory.
    pub fn into_schedule(self) -> Result<Schedule, AllocError>
        ensures { IfOk result (λ s. schedule_text s ≡ codes "schedule\n"
            ++ flat_map (λ stretch. with_end (stretch_text stretch)) (stretches_of self)) }
    {
        let Journal {
            ticks: _,
            answers,
            names,
            guesses: _,
            runs,
        } = self;
        let alloc = *answers.allocator();
        drop(answers);
        let (rows, ways) = runs.into_rows();
        let tails = tails_of(alloc, &names, &ways)?;
        Ok(Schedule { rows, tails })
    }
}
