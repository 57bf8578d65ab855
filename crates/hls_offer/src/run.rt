// The call that does all that the program does.
ghost use Rattle.std.specs.Prelude.{◌≡◌, Some, List, IfOk, IfErr, OnOk, map, string_bytes};
ghost use Rattle.hls_text.specs.Lines.{Text};
ghost use Rattle.hls_sched.specs.GoodKit.{IsGood};
ghost use Rattle.hls_sched.specs.Boxed.{boxed};
ghost use Rattle.hls_manager.specs.Outcomes.{boxes_in};
ghost use Rattle.hls_top.specs.Exchange.{exchange, drawn, scenario_limit};
ghost use Rattle.hls_top.specs.Ends.{Lacks};
ghost use Rattle.hls_top.specs.Says.{IsRead};
ghost use Rattle.hls_offer_words.specs.Table.{IsAsked};
ghost use Rattle.hls_offer.specs.Ends.{Ends, IsOrderly};
ghost use Rattle.hls_offer.specs.Musts.{MustAnswer};
ghost use Rattle.hls_offer.specs.Inside.Readings.{IsAskable, IsOfSource};

use crate::replies::{Reply, reply_to};
use hls_io::{ReadError, Sink, Source, Status};
use hls_offer_words::{Asked, asked_for};
use hls_rules::RuleBook;
use hls_sched::{Kit, Scheduler};
use hls_top::{say, text_from};
use std::alloc::{AllocError, Global};

/// The most bytes that are taken for the text of a scenario.
const SCENARIO_LIMIT: usize = 4_194_304;

/// How the program is used.
const USAGE: &[u8] =
    b"usage: hlsoffer offer NAME on NAME TERMS [over Y..] | need NAME as GUARANTEE [on NAME] [over Y..] \
    | spare [over Y..], each [--at T] [--depth K]\n";

/// Reads a scenario, and makes what is to be written about it.
fn reply_of<S: Source>(
    alloc: Global,
    asked: &Asked,
    source: &mut S,
    kit: Kit,
    rules: RuleBook,
) -> Result<Reply, ReadError>
    requires asked { IsAskable asked.now }
    requires good { IsGood (boxed seen) kit }
    ensures is { IfOk result (λ reply. IsOfSource asked.now (boxes_in kit)
        (drawn S.left S.faults source.old source.new) reply.status reply.bytes.items) }
    ensures quiet { OnOk result (S.faults source.new ≡ S.faults source.old) }
    ensures lacks { IfErr result (λ error. Lacks error (Some scenario_limit)
        (drawn S.left S.faults source.old source.new)) }
    ensures orderly { IsRead (Some scenario_limit) (drawn S.left S.faults source.old source.new) }
{
    let text = text_from(alloc, source, SCENARIO_LIMIT)?;
    Ok(reply_to(alloc, asked, &text, kit, rules)?)
}

/// Answers a question about a scenario.
fn answer<S: Source, K: Sink>(
    alloc: Global,
    asked: &Asked,
    source: &mut S,
    sink: &mut K,
    kit: Kit,
    rules: RuleBook,
) -> Status
    requires asked { IsAskable asked.now }
    requires good { IsGood (boxed seen) kit }
    ensures ends { (words : List Text) → IsAsked words asked.now → Ends (exchange S.left S.faults K.written K.faults
        words (boxes_in kit) source.old source.new sink.old sink.new) result }
    ensures orderly { (words : List Text) → IsAsked words asked.now → IsOrderly (exchange S.left S.faults K.written
        K.faults words (boxes_in kit) source.old source.new sink.old sink.new) }
{
    match reply_of(alloc, asked, source, kit, rules) {
        Ok(reply) => say(sink, &reply.bytes, reply.status),
        Err(ReadError::Fault) => Status::ReadFault,
        Err(ReadError::TooLong) => Status::TooLong,
        Err(ReadError::Memory) => Status::Memory,
    }
}

/// Does all that the program does: at words that ask a question it reads a scenario from the source, carries out its
/// commands up to the tick that is asked about, with the boxes of the kit and the rules, and writes the answer to the
/// sink. No request is carried out.
///
/// The whole output is built before the first write, and writing takes no memory. Kit and rules are used up.
pub fn offer_run<S: Source, K: Sink>(
    alloc: Global,
    words: &Vec<String>,
    source: &mut S,
    sink: &mut K,
    kit: Kit,
    rules: RuleBook,
) -> Status
    requires good { IsGood (boxed seen) kit }
    ensures ends { Ends (exchange S.left S.faults K.written K.faults (map string_bytes words.now.items)
        (boxes_in kit) source.old source.new sink.old sink.new) result }
    ensures orderly { IsOrderly (exchange S.left S.faults K.written K.faults (map string_bytes words.now.items)
        (boxes_in kit) source.old source.new sink.old sink.new) }
    ensures answers { MustAnswer (exchange S.left S.faults K.written K.faults (map string_bytes words.now.items)
        (boxes_in kit) source.old source.new sink.old sink.new) result }
{
    match asked_for(alloc, words) {
        Ok(Some(asked)) => answer(alloc, &asked, source, sink, kit, rules),
        Ok(None) => say(sink, USAGE, Status::Usage),
        Err(AllocError) => Status::Memory,
    }
}
