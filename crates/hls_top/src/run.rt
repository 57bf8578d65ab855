// The call that does all that the program does.
ghost use Rattle.std.specs.Prelude.{◌≡◌, ◌≤◌, ℕ, List, map, string_bytes};
ghost use Rattle.hls_text.specs.Lines.{Text};
ghost use Rattle.hls_sched.specs.GoodKit.{IsGood};
ghost use Rattle.hls_sched.specs.Boxed.{boxed};
ghost use Rattle.hls_manager.specs.Outcomes.{boxes_in};
ghost use Rattle.hls_top_words.specs.Table.{IsJob};
ghost use Rattle.hls_top.specs.Exchange.{exchange, shown, IsOrderly};
ghost use Rattle.hls_top.specs.Outputs.{output_text};
ghost use Rattle.hls_top.specs.Ends.{Ends};
ghost use Rattle.hls_top.specs.Musts.{MustAnswer};
ghost use Rattle.hls_top.specs.Says.{Says, IsSteady};

use crate::outputs::{Output, output_of};
use hls_io::{ReadError, Sink, Source, Status, write_all};
use hls_rules::RuleBook;
use hls_sched::{Kit, Scheduler};
use hls_top_words::{Job, asked_for};
use std::alloc::{AllocError, Global};

/// Writes the whole output and returns the status, or the status of a failed write.
pub fn say<K: Sink>(sink: &mut K, output: &[u8], status: Status) -> Status
    ensures says { Says (shown K.written K.faults sink.old sink.new) output.now status result }
    ensures steady { IsSteady (shown K.written K.faults sink.old sink.new) }
{
    match write_all(sink, output) {
        Ok(()) => status,
        Err(_) => Status::WriteFault,
    }
}

/// The same of an output.
fn say_output<K: Sink>(sink: &mut K, output: Output) -> Status
    ensures says { Says (shown K.written K.faults sink.old sink.new) (output_text output.text) output.status result }
    ensures steady { IsSteady (shown K.written K.faults sink.old sink.new) }
{
    let Output { status, text } = output;
    match text.write(sink) {
        Ok(()) => status,
        Err(_) => Status::WriteFault,
    }
}

/// Does what is asked for, and writes its output.
fn answer<S: Source, K: Sink>(
    alloc: Global,
    job: Job,
    source: &mut S,
    sink: &mut K,
    kit: Kit,
    rules: RuleBook,
) -> Status
    requires depth { (depth : ℕ) → job ≡ Job.Run depth → depth ≤ 6 }
    requires good { IsGood (boxed seen) kit }
    ensures ends { (words : List Text) → IsJob words job → Ends (exchange S.left S.faults K.written K.faults words
        (boxes_in kit) source.old source.new sink.old sink.new) result }
    ensures orderly { (words : List Text) → IsJob words job → IsOrderly (exchange S.left S.faults K.written K.faults
        words (boxes_in kit) source.old source.new sink.old sink.new) }
{
    match output_of(alloc, job, source, kit, rules) {
        Ok(output) => say_output(sink, output),
        Err(ReadError::Fault) => Status::ReadFault,
        Err(ReadError::TooLong) => Status::TooLong,
        Err(ReadError::Memory) => Status::Memory,
    }
}

/// Does all that the program does. At words that ask for a run it reads a scenario from the source, carries it out
/// with the boxes of the kit and the rules, and writes the report to the sink; at `check` it reads a report and
/// writes what its audit comes to; at `gen` and a number it writes the scenario that is made from the number, and at
/// `trial` and a number a summary of its report.
///
/// All memory is taken before the first write: the schedule of a report is written from the records of its runs, and
/// all else is text by then. Kit and rules are used up.
pub fn hls_run<S: Source, K: Sink>(
    alloc: Global,
    words: &Vec<String>,
    source: &mut S,
    sink: &mut K,
    kit: Kit,
    rules: RuleBook,
) -> Status
    requires good { IsGood (boxed seen) kit }
    ensures ends { Ends (exchange S.left S.faults K.written K.faults (map string_bytes words.now.items)
        (boxes_in kit) source.old source.new sink.old sink.new) result }
    ensures orderly { IsOrderly (exchange S.left S.faults K.written K.faults (map string_bytes words.now.items)
        (boxes_in kit) source.old source.new sink.old sink.new) }
    ensures answers { MustAnswer (exchange S.left S.faults K.written K.faults (map string_bytes words.now.items)
        (boxes_in kit) source.old source.new sink.old sink.new) result }
{
    match asked_for(alloc, words) {
        Ok(Some(job)) => answer(alloc, job, source, sink, kit, rules),
        Ok(None) => say(
            sink,
            b"usage: hls run [--depth K] | check | gen N | trial N\n",
            Status::Usage,
        ),
        Err(AllocError) => Status::Memory,
    }
}
