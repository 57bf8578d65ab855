// The call that does all that the program does.
ghost use Rattle.std.specs.Prelude.{◌≡◌, List, map, string_bytes};
ghost use Rattle.hls_text.specs.Lines.{Text};
ghost use Rattle.hls_view_words.specs.Table.{IsView};
ghost use Rattle.hls_view.specs.Viewing.{viewing, IsOrderly};
ghost use Rattle.hls_view.specs.Ends.{Ends};
ghost use Rattle.hls_view.specs.Musts.{MustAnswer};

use crate::outputs::output_of;
use hls_io::{ReadError, Sink, Source, Status};
use hls_top::say;
use hls_view_words::{View, asked_for};
use std::alloc::{AllocError, Global};

/// Writes the view of the report that comes from the source.
fn answer<S: Source, K: Sink>(alloc: Global, view: &View, source: &mut S, sink: &mut K) -> Status
    ensures ends { (words : List Text) → IsView words view.now → Ends (viewing S.left S.faults K.written K.faults
        words source.old source.new sink.old sink.new) result }
    ensures orderly { (words : List Text) → IsView words view.now → IsOrderly (viewing S.left S.faults K.written
        K.faults words source.old source.new sink.old sink.new) }
{
    match output_of(alloc, view, source) {
        Ok(output) => say(sink, &output.bytes, output.status),
        Err(ReadError::Fault) => Status::ReadFault,
        Err(ReadError::TooLong) => Status::TooLong,
        Err(ReadError::Memory) => Status::Memory,
    }
}

/// Does all that the program does: at words that ask for a view it reads a report from the source, and writes the
/// view to the sink; at a report whose commands or paths cannot be followed it writes which clause of the audit
/// fails there, and at which tick first.
///
/// The whole output is built before the first write, and writing takes no memory.
pub fn view_run<S: Source, K: Sink>(
    alloc: Global,
    words: &Vec<String>,
    source: &mut S,
    sink: &mut K,
) -> Status
    ensures ends { Ends (viewing S.left S.faults K.written K.faults (map string_bytes words.now.items)
        source.old source.new sink.old sink.new) result }
    ensures orderly { IsOrderly (viewing S.left S.faults K.written K.faults (map string_bytes words.now.items)
        source.old source.new sink.old sink.new) }
    ensures answers { MustAnswer (viewing S.left S.faults K.written K.faults (map string_bytes words.now.items)
        source.old source.new sink.old sink.new) result }
{
    match asked_for(alloc, words) {
        Ok(Some(view)) => answer(alloc, &view, source, sink),
        Ok(None) => say(
            sink,
            b"usage: hlsview svg [--from A] [--to B] | trace [--tick U] | margins | tree [--at T] | jobs [--of NAME]\n",
            Status::Usage,
        ),
        Err(AllocError) => Status::Memory,
    }
}
