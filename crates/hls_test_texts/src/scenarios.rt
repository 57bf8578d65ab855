// Texts, with the scenarios that they are of or their faults.
use hls_chron::{Config, Sharing, Terms};
use hls_lang::{Cause, Command, Perch, Scenario, ScenarioFault, Spot, read_scenario};
use std::alloc::{AllocError, Global};
use std::process::Abort;
use std::test::Fail;

/// The scenario of a text that is not too long, or its fault.
fn read(alloc: Global, text: &[u8]) -> Option<Result<Scenario, ScenarioFault>> {
    if text.len() > 4_000_000 {
        return None;
    }
    Some(read_scenario(alloc, text))
}

fn fault_of(alloc: Global, text: &[u8]) -> Option<(u32, Cause)> {
    match read(alloc, text) {
        Some(Err(ScenarioFault::At { line, cause })) => Some((line, cause)),
        _ => None,
    }
}

fn count_of(alloc: Global, text: &[u8]) -> Option<usize> {
    match read(alloc, text) {
        Some(Ok(scenario)) => Some(scenario.items.items().len()),
        _ => None,
    }
}

/// The fault of a text of these two parts.
fn fault_behind(
    alloc: Global,
    head: &[u8],
    line: &[u8],
) -> Result<Option<(u32, Cause)>, AllocError> {
    let mut text = Vec::new(alloc);
    text.extend_from_slice(head)?;
    text.extend_from_slice(line)?;
    Ok(fault_of(alloc, &text))
}

/// The last line of a text, and why it cannot stand.
type Line = (&'static [u8], Cause);

const VERSION_ONE: &[u8] = b"hls 1\nhorizon 5\n";

const VERSION_TWO: &[u8] = b"hls 2\nhorizon 5\n";

/// Compares the faults of all these lines behind a head of two lines.
fn all_fail(rt: &impl Abort, alloc: Global, head: &[u8], cases: &[Line]) -> Result<(), Fail> {
    for at in 0..cases.len() {
        let (line, cause) = cases[at];
        let place = if line.contains(&b'\n') { 4 } else { 3 };
        assert_eq!(rt;
            fault_behind(alloc, head, line)?,
            Some((place, cause)),
            "at {line:?}"
        );
    }
    Ok(())
}

const LINES: [Line; 32] = [
    (b"at 0 loa", Cause::Word),
    (b"at 0 wake", Cause::Short),
    (b"at 5 wake a", Cause::Late),
    (b"at 4294967301 wake a", Cause::Late),
    (b"at 18446744073709551621 wake a", Cause::Late),
    (b"at 0 wake a\x80", Cause::Byte),
    (b"at 0 wake a\r", Cause::Byte),
    (b"at 0 load cpu fp on cpu as ALL", Cause::Name),
    (b"at 0 load r sfq 4 21 on cpu as ALL", Cause::Number),
    (b"at 0 load r sfq 4 2 2 on cpu as ALL", Cause::Word),
    (b"at 0 load r wheel 1001 on cpu as ALL", Cause::Number),
    (b"at 0 thread t on f res 5 4 hard as NULL", Cause::Number),
    (
        b"at 0 thread t on f res 1 10001 hard as NULL",
        Cause::Number,
    ),
    (b"at 0 thread t on f prio 32 as NULL", Cause::Number),
    (b"at 0 thread t on f prio 0 as PSBE 3/2 1", Cause::Number),
    (b"at 0 thread t on f prio 0 as PSBE 1/0 1", Cause::Number),
    (
        b"at 0 thread t on f prio 0 as PSBE 1/1000001 1",
        Cause::Number,
    ),
    (
        b"at 0 thread t on f prio 0 as PSBE 1 10000000001",
        Cause::Number,
    ),
    (b"at 0 thread t on f prio 0 as RESBH 1 20001", Cause::Number),
    (b"at 0 thread t on 9 prio 0 as NULL", Cause::Word),
    (b"at 0 load j join on e turn as NULL", Cause::Short),
    (
        b"at 0 load j join on e turn as NULL , e turn as NULL",
        Cause::Name,
    ),
    (
        b"at 0 load j join on cpu as ALL , e turn as NULL",
        Cause::Name,
    ),
    (b"at 0 wake a for 0", Cause::Number),
    (b"at 0 wake a for 100001", Cause::Number),
    (b"at 00 wake a", Cause::Number),
    (b"at 0 wake a b", Cause::Word),
    (b"at 0 wake a for 1 b", Cause::Extra),
    (b"at 0 block a b", Cause::Extra),
    (b"depth 7", Cause::Number),
    (b"depth 6 6", Cause::Extra),
    (b"depth 1\ndepth 2", Cause::Word),
];

#[test]
fn finds_the_faults_of_lines(rt: HostRuntime) -> Result<(), Fail> {
    all_fail(&rt, rt.alloc(), VERSION_ONE, &LINES)
}

const QUANTA: [Line; 6] = [
    (b"at 0 load r sfq 4 2 on cpu as ALL", Cause::Number),
    (b"at 0 load r sfq 4 2 0 on cpu as ALL", Cause::Number),
    (b"at 0 load r sfq 4 2 101 on cpu as ALL", Cause::Number),
    (b"at 0 load r sfq 4 21 2 on cpu as ALL", Cause::Number),
    (b"at 0 load r sfq 4 2 2 2 on cpu as ALL", Cause::Word),
    (b"at 0 load r sfq 4 2", Cause::Short),
];

#[test]
fn finds_the_faults_of_quanta(rt: HostRuntime) -> Result<(), Fail> {
    all_fail(&rt, rt.alloc(), VERSION_TWO, &QUANTA)
}

const PERIODS_IN_VERSION_ONE: [Line; 1] = [(b"at 0 wake a every 4 burst 2", Cause::Word)];

const PERIODS: [Line; 13] = [
    (b"at 0 wake a every", Cause::Short),
    (b"at 0 wake a every 4", Cause::Short),
    (b"at 0 wake a every 4 burst", Cause::Short),
    (b"at 0 wake a every 0 burst 2", Cause::Number),
    (b"at 0 wake a every 100001 burst 2", Cause::Number),
    (b"at 0 wake a every 4 burst 0", Cause::Number),
    (b"at 0 wake a every 4 burst 100001", Cause::Number),
    (b"at 0 wake a every burst 2", Cause::Number),
    (b"at 0 wake a every 4 for 2", Cause::Word),
    (b"at 0 wake a evry 4 burst 2", Cause::Word),
    (b"at 0 wake a burst 2", Cause::Word),
    (b"at 0 wake a every 4 burst 2 2", Cause::Extra),
    (b"at 0 wake a for 2 every 4", Cause::Extra),
];

#[test]
fn finds_the_faults_of_periods(rt: HostRuntime) -> Result<(), Fail> {
    all_fail(&rt, rt.alloc(), VERSION_ONE, &PERIODS_IN_VERSION_ONE)?;
    all_fail(&rt, rt.alloc(), VERSION_TWO, &PERIODS)
}

/// A text, the first line that cannot stand, and why.
type Text = (&'static [u8], u32, Cause);

const TEXTS: [Text; 14] = [
    (b"", 1, Cause::Header),
    (b"\n\n", 3, Cause::Header),
    (b"hls 1", 2, Cause::Horizon),
    (b"hls 1\n", 2, Cause::Horizon),
    (b"\n# a\nhls 3\n", 3, Cause::Header),
    (b"hls 0\nhorizon 5", 1, Cause::Header),
    (b"hls 02\nhorizon 5", 1, Cause::Header),
    (b"hls 2 2\nhorizon 5", 1, Cause::Header),
    (b"hls 1\nhorizon 0", 2, Cause::Horizon),
    (b"hls 1\nhorizon 100001", 2, Cause::Horizon),
    (b"hls 2\nhorizon 0", 2, Cause::Horizon),
    (b"hls 2\nhorizon 1000001", 2, Cause::Horizon),
    (
        b"hls 1\nhorizon 5\nat 3 wake a\nat 2 wake a",
        4,
        Cause::Order,
    ),
    (b"hls 1\nhorizon 5\nat 3 wake a\ndepth 1", 4, Cause::Word),
];

/// Compares the faults of all these texts.
fn texts_fail(rt: &impl Abort, alloc: Global, cases: &[Text]) {
    for at in 0..cases.len() {
        let (text, line, cause) = cases[at];
        assert_eq!(rt; fault_of(alloc, text), Some((line, cause)), "at {text:?}");
    }
}

#[test]
fn finds_the_faults_of_texts(rt: HostRuntime) {
    texts_fail(&rt, rt.alloc(), &TEXTS);
}

/// A text, and how many commands its scenario has.
type Counted = (&'static [u8], usize);

const READABLE: [Counted; 11] = [
    (b"hls 1\nhorizon 1", 0),
    (b"# \x80\xff\nhls\t1 # 1\r\n\r\n  horizon  100000\r\n", 0),
    (
        b"hls 1\nhorizon 100000\ndepth 0\nat 99999 wake a for 100000",
        1,
    ),
    (
        b"hls 1\nhorizon 5\n\n \t\nat 0 end hard\n#\nat 4 unload at\n",
        2,
    ),
    (
        b"hls 1\nhorizon 5\nat 0 thread a on b res 10000 10000 soft as RESCS 20000 20000",
        1,
    ),
    (
        b"hls 1\nhorizon 5\nat 0 move a to b slots 1000 as PSBE 1000000/1000000 10000000000",
        1,
    ),
    (
        b"hls 1\nhorizon 5\nat 0 load a sfq 100 20 on b weight 20 as PSBE 1 0/7",
        1,
    ),
    (b"hls 2\nhorizon 1", 0),
    (b"\n hls\t2 # 1\r\nhorizon 1000000\ndepth 6", 0),
    (
        b"hls 2\nhorizon 1000000\nat 999999 load a sfq 100 20 100 on b weight 20 as ALL",
        1,
    ),
    (
        b"hls 2\nhorizon 9\nat 0 wake every every 1 burst 1\n\
          at 8 wake a every 100000\tburst 100000 # jobs",
        2,
    ),
];

/// Compares how many commands all these texts have.
fn all_count(rt: &impl Abort, alloc: Global, cases: &[Counted]) {
    for at in 0..cases.len() {
        let (text, count) = cases[at];
        assert_eq!(rt; count_of(alloc, text), Some(count), "at {text:?}");
    }
}

#[test]
fn reads_lines_as_they_may_be_written(rt: HostRuntime) {
    all_count(&rt, rt.alloc(), &READABLE);
}

/// The version of a text that loads one scheduler, and its configuration.
fn loaded(alloc: Global, text: &[u8]) -> Option<(u8, Config)> {
    match read(alloc, text) {
        Some(Ok(scenario)) => match scenario.items.items().first() {
            Some(item) => match &item.command {
                Command::Load { config, .. } => Some((scenario.version, *config)),
                _ => None,
            },
            None => None,
        },
        _ => None,
    }
}

/// A text that loads fair queueing, its version, and the quantum.
type Shared = (&'static [u8], u8, u32);

const SHARED: [Shared; 3] = [
    (b"hls 1\nhorizon 9\nat 0 load r sfq 4 2 on cpu as ALL", 1, 1),
    (
        b"hls 2\nhorizon 9\nat 0 load r sfq 4 2 1 on cpu as ALL",
        2,
        1,
    ),
    (
        b"hls 2\nhorizon 9\nat 0 load r sfq 4 2 2 on cpu as ALL",
        2,
        2,
    ),
];

/// Fair queueing of a total of 4 among two, in turns of so many ticks.
fn fair_turns(quantum: u32) -> Config {
    let sharing = Sharing {
        total: 4,
        most: 2,
        quantum,
    };
    sharing.config()
}

/// Compares what all these texts load.
fn all_load(rt: &impl Abort, alloc: Global, cases: &[Shared]) {
    for at in 0..cases.len() {
        let (text, version, quantum) = cases[at];
        assert_eq!(rt;
            loaded(alloc, text),
            Some((version, fair_turns(quantum))),
            "at {text:?}"
        );
    }
}

#[test]
fn reads_a_quantum_in_version_two(rt: HostRuntime) {
    all_load(&rt, rt.alloc(), &SHARED);
}

const JOIN: &[u8] =
    b"hls 1\nhorizon 9\ndepth 2\nat 7 load j join on e res 2 10 hard as PSBE 2/4 6/3 , r sole as NULL";

/// Compares a perch of that join with the one at that place.
fn perches_at(rt: &impl Abort, place: usize, perch: &Perch) {
    match perch.spot {
        Spot::Under { sched, terms } => {
            let (name, seat) = if place == 0 {
                let seat = Terms::Res {
                    hard: true,
                    x: 2,
                    y: 10,
                };
                (b"e".as_slice(), seat)
            } else {
                (b"r".as_slice(), Terms::Sole)
            };
            assert_eq!(rt; sched.bytes(), name);
            assert_eq!(rt; terms, seat);
        }
        Spot::Cpu => assert!(rt; false),
    }
}

/// Compares a command with the one that loads that join.
fn loads_the_join(rt: &impl Abort, command: &Command) {
    match command {
        Command::Load {
            name,
            config,
            perches,
        } => {
            assert_eq!(rt; name.bytes(), b"j".as_slice());
            assert_eq!(rt; *config, Config::Join { ports: 2 });
            for (place, perch) in perches.items().iter().enumerate() {
                perches_at(rt, place, perch);
            }
        }
        _ => assert!(rt; false),
    }
}

/// Compares a scenario with the one that loads that join.
fn is_of_the_join(rt: &impl Abort, scenario: &Scenario) {
    assert_eq!(rt; scenario.horizon, 9);
    assert_eq!(rt; scenario.depth, Some(2));
    for item in scenario.items.items() {
        assert_eq!(rt; item.tick, 7);
        loads_the_join(rt, &item.command);
    }
}

#[test]
fn reads_a_join(rt: HostRuntime) {
    match read(rt.alloc(), JOIN) {
        Some(Ok(scenario)) => is_of_the_join(&rt, &scenario),
        _ => assert!(rt; false),
    }
}

/// A text of the most commands that there may be.
fn longest(alloc: Global) -> Result<Vec<u8>, AllocError> {
    let mut text = Vec::new(alloc);
    text.extend_from_slice(b"hls 1\nhorizon 1\n")?;
    for _ in 0..65_536 {
        text.extend_from_slice(b"at 0 wake a\n")?;
    }
    Ok(text)
}

#[test]
fn takes_no_more_items_than_it_may(rt: HostRuntime) -> Result<(), Fail> {
    let mut text = longest(rt.alloc())?;
    assert_eq!(rt; count_of(rt.alloc(), &text), Some(65_536));
    text.extend_from_slice(b"at x")?;
    assert_eq!(rt; fault_of(rt.alloc(), &text), Some((65_539, Cause::Many)));
    Ok(())
}

#[test]
fn writes_a_fault(rt: HostRuntime) -> Result<(), Fail> {
    let fault = ScenarioFault::At {
        line: 3,
        cause: Cause::Word,
    };
    let text = format!(in rt.alloc(); "{fault}")?;
    assert_eq!(rt; text.as_str(), "line 3: Word");
    Ok(())
}
