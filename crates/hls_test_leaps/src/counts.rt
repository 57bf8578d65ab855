// How often the boxes of a run are called while its ticks pass.
ghost use Rattle.hls_guarantee.specs.Limits.{IsValid};
ghost use Rattle.hls_sched.specs.GoodKit.{IsGood};
ghost use Rattle.hls_sched.specs.Boxed.{boxed};

use crate::counting::Counted;
use hls_chron::Kind;
use hls_guarantee::Guarantee;
use hls_io::{MemSink, MemSource, Status};
use hls_rules::{RULES, Rule, RuleBook};
use hls_rules2::answer_of;
use hls_sched::{Kit, Scheduler};
use hls_top::hls_run;
use std::alloc::{AllocError, Global};
use std::cell::Cell;
use std::rc::Rc;
use std::str;
use std::test::Fail;

/// Room for the report, and how many bytes a read gives and a write takes.
const ROOM: usize = 4096;

const LONGEST: &str = "hls 1\nhorizon 100000\n\
    at 0 load root fp on cpu as ALL\n\
    at 0 load f fp on root prio 0 as ALL\n\
    at 0 thread a on f prio 0 as ALL\n\
    at 0 wake a\n";

const LONGEST_REPORT: &str = "hls-report 1\nhorizon 100000\ndepth 3\n\
    at 0 load root fp on cpu as ALL\n= done\nby root 0 ALL CPU ALL\n\
    at 0 load f fp on root prio 0 as ALL\n= done\nby f 0 ALL FP ALL\n\
    at 0 thread a on f prio 0 as ALL\n= done\nby a 0 ALL FP ALL\n\
    at 0 wake a\n= done\n\
    schedule\n0..99999 cpu/root/f/a\n\
    accounts\na 0..99999 ALL ready 100000 served 100000\nidle 0\nend\n";

/// What a run of the scenario comes to, with these boxes and the eleven rules.
fn run_with(alloc: Global, kit: Kit, sink: &mut MemSink) -> Result<Status, AllocError>
    requires { IsGood (boxed seen) kit }
{
    let mut rules = Vec::new(alloc);
    for name in RULES {
        let step = Box::new(
            alloc,
            move |have: Guarantee, want: Guarantee| -> Option<Guarantee>
                requires have { IsValid have }
                requires want { IsValid want }
            { answer_of(name, have, want) },
        )?;
        rules.push(Rule::new(name, step))?;
    }
    let mut words = Vec::new(alloc);
    words.push("run".to_string(alloc)?)?;
    let text = LONGEST.to_string(alloc)?;
    let mut source = MemSource::new(text.into_bytes(), ROOM, Vec::new(alloc));
    Ok(hls_run(alloc, &words, &mut source, sink, kit, RuleBook::new(rules)))
}

/// What it comes to with a box of fixed priority for each of these cells.
fn run_counted(
    alloc: Global,
    cells: &[Rc<Cell<u32>>],
    sink: &mut MemSink,
) -> Result<Status, AllocError> {
    let mut kit = Kit {
        fp: Vec::new(alloc),
        edf: Vec::new(alloc),
        sfq: Vec::new(alloc),
        rr: Vec::new(alloc),
        wheel: Vec::new(alloc),
        join: Vec::new(alloc),
        used: [0; 6],
    };
    for calls in cells {
        kit.put(
            Kind::Fp,
            Box::new(alloc, Counted::blank(alloc, calls.clone()?))?,
        )?;
    }
    run_with(alloc, kit, sink)
}

#[test]
fn calls_a_box_few_times_in_many_ticks(rt: HostRuntime) -> Result<(), Fail> {
    let alloc = rt.alloc();
    let mut cells = Vec::new(alloc);
    for _made in 0..4 {
        cells.push(Rc::new(alloc, Cell::new(0))?)?;
    }
    let mut sink = MemSink::new(alloc, ROOM, ROOM, Vec::new(alloc))?;
    let status = run_counted(alloc, &cells, &mut sink)?;
    assert_eq!(rt; status, Status::Done);
    assert_eq!(rt; str::from_utf8(sink.bytes()).unwrap_or(""), LONGEST_REPORT);
    for (place, calls) in cells.iter().enumerate() {
        let calls = calls.get();
        assert_eq!(rt;
            (1..=10).contains(&calls),
            place >= 2,
            "box {place} has {calls} calls"
        );
        assert_eq!(rt; calls == 0, place < 2, "box {place} has {calls} calls");
    }
    Ok(())
}
