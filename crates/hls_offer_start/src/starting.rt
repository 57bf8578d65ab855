// The program `hlsoffer`, with its boxes and rules.
ghost use Rattle.std.specs.Prelude.{map, string_bytes};
ghost use Rattle.hls_top.specs.Exchange.{exchange};
ghost use Rattle.hls_offer.specs.Ends.{Ends, IsOrderly};
ghost use Rattle.hls_offer.specs.Musts.{MustAnswer};
ghost use Rattle.hls_prog_start.specs.FullKit.{full_kit};

use hls_io::{Sink, Source, Status};
use hls_offer::offer_run;
use hls_prog_start::{Program, run_with_boxes};
use hls_rules::RuleBook;
use hls_sched::{Kit, Scheduler};
use std::alloc::{AllocError, Global};

/// The program `hlsoffer`.
struct HlsOffer;

impl Program for HlsOffer {
    ghost leaves = { λ x status. Ends x status × IsOrderly x };

    fn run<S: Source, K: Sink>(
        alloc: Global,
        words: &Vec<String>,
        source: &mut S,
        sink: &mut K,
        kit: Kit,
        rules: RuleBook,
    ) -> Status {
        offer_run(alloc, words, source, sink, kit, rules)
    }
}

/// Does all that the program does, as `offer_run` says, with 64 boxes of each kind and the eleven rules.
pub fn start<S: Source, K: Sink>(
    alloc: Global,
    words: &Vec<String>,
    source: &mut S,
    sink: &mut K,
) -> Status
    ensures ends { Ends (exchange S.left S.faults K.written K.faults (map string_bytes words.now.items) full_kit
        source.old source.new sink.old sink.new) result }
    ensures orderly { IsOrderly (exchange S.left S.faults K.written K.faults (map string_bytes words.now.items)
        full_kit source.old source.new sink.old sink.new) }
    ensures answers { MustAnswer (exchange S.left S.faults K.written K.faults (map string_bytes words.now.items)
        full_kit source.old source.new sink.old sink.new) result }
{
    match run_with_boxes::<HlsOffer, S, K>(alloc, words, source, sink) {
        Ok(status) => status,
        Err(AllocError) => Status::Memory,
    }
}
