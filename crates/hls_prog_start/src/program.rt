// A program that runs with boxes of all kinds and the eleven rules.
ghost use Rattle.std.specs.Prelude.{◌≡◌, map, string_bytes, IfOk, OnErr};
ghost use Rattle.hls_guarantee.specs.Limits.{IsValid};
ghost use Rattle.hls_io.specs.declared.status.Status.{Status as StatusSeen};
ghost use Rattle.hls_sched.specs.GoodKit.{IsGood};
ghost use Rattle.hls_sched.specs.Boxed.{boxed};
ghost use Rattle.hls_manager.specs.Outcomes.{boxes_in};
ghost use Rattle.hls_top.specs.Exchange.{Exchange, exchange};
ghost use Rattle.hls_prog_start.specs.FullKit.{full_kit};

use hls_chron::Kind;
use hls_edf::Edf;
use hls_fp::Fp;
use hls_guarantee::Guarantee;
use hls_io::{Sink, Source, Status};
use hls_join::Join;
use hls_rr::Rr;
use hls_rules::{RULES, Rule, RuleBook};
use hls_rules2::answer_of;
use hls_sched::{Kit, Scheduler};
use hls_sfq::Sfq;
use hls_wheel::Wheel;
use std::alloc::{AllocError, Global};

/// How many schedulers of each kind can be loaded in a run.
const BOXES: usize = 64;

/// A program that is run with boxes and rules.
pub trait Program {
    /// What a run leaves, by what it was given, and the status at which it ends.
    ghost leaves: { Exchange → StatusSeen → Type 0 };

    /// Does all that the program does.
    fn run<S: Source, K: Sink>(
        alloc: Global,
        words: &Vec<String>,
        source: &mut S,
        sink: &mut K,
        kit: Kit,
        rules: RuleBook,
    ) -> Status
        requires good { IsGood (boxed seen) kit }
        ensures { leaves (exchange S.left S.faults K.written K.faults (map string_bytes words.now.items)
            (boxes_in kit) source.old source.new sink.old sink.new) result };
}

/// Runs a program with these boxes and the eleven rules.
fn run_with_rules<P: Program, S: Source, K: Sink>(
    alloc: Global,
    words: &Vec<String>,
    source: &mut S,
    sink: &mut K,
    kit: Kit,
) -> Result<Status, AllocError>
    requires good { IsGood (boxed seen) kit }
    requires full { boxes_in kit ≡ full_kit }
    ensures leaves { IfOk result (P.leaves (exchange S.left S.faults K.written K.faults
        (map string_bytes words.now.items) full_kit source.old source.new sink.old sink.new)) }
    ensures unread { OnErr result (source.new ≡ source.old) }
    ensures unwritten { OnErr result (sink.new ≡ sink.old) }
{
    let mut rules = Vec::new(alloc);
    for name in RULES {
        let step = Box::new(
            alloc,
            move |have: Guarantee, want: Guarantee| -> Option<Guarantee>
                requires have { IsValid have }
                requires want { IsValid want }
            { answer_of(name, have, want) },
        )?;
        rules.push(Rule::new(name, step))?;
    }
    Ok(P::run(alloc, words, source, sink, kit, RuleBook::new(rules)))
}

/// Runs a program with 64 blank boxes of each kind and the eleven rules.
///
/// # Errors
///
/// Want of memory; nothing was read or written then.
pub fn run_with_boxes<P: Program, S: Source, K: Sink>(
    alloc: Global,
    words: &Vec<String>,
    source: &mut S,
    sink: &mut K,
) -> Result<Status, AllocError>
    ensures leaves { IfOk result (P.leaves (exchange S.left S.faults K.written K.faults
        (map string_bytes words.now.items) full_kit source.old source.new sink.old sink.new)) }
    ensures unread { OnErr result (source.new ≡ source.old) }
    ensures unwritten { OnErr result (sink.new ≡ sink.old) }
{
    let mut kit = Kit {
        fp: Vec::new(alloc),
        edf: Vec::new(alloc),
        sfq: Vec::new(alloc),
        rr: Vec::new(alloc),
        wheel: Vec::new(alloc),
        join: Vec::new(alloc),
        used: [0; 6],
    };
    for _made in 0..BOXES {
        kit.put(Kind::Sfq, Box::new(alloc, Sfq::blank(alloc))?)?;
        kit.put(Kind::Rr, Box::new(alloc, Rr::blank(alloc))?)?;
        kit.put(Kind::Fp, Box::new(alloc, Fp::blank(alloc))?)?;
        kit.put(Kind::Edf, Box::new(alloc, Edf::blank(alloc))?)?;
        kit.put(Kind::Wheel, Box::new(alloc, Wheel::blank(alloc))?)?;
        kit.put(Kind::Join, Box::new(alloc, Join::blank(alloc))?)?;
    }
    run_with_rules::<P, S, K>(alloc, words, source, sink, kit)
}
