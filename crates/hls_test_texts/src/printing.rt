// Texts, and the canonical texts of the scenarios that they are of.
use hls_chron::Name;
use hls_lang::{Command, print_command, print_scenario, read_scenario};
use std::alloc::{AllocError, Global};
use std::process::Abort;
use std::test::Fail;

/// The canonical text of the scenario of a text.
fn printed(alloc: Global, text: &[u8]) -> Result<Vec<u8>, Fail> {
    if text.len() > 4_000_000 {
        return Err(Fail::from("a long text"));
    }
    match read_scenario(alloc, text) {
        Ok(scenario) => Ok(print_scenario(alloc, &scenario)?),
        Err(_) => Err(Fail::from("no scenario")),
    }
}

/// A text of that one line.
fn behind_head(alloc: Global, line: &[u8]) -> Result<Vec<u8>, AllocError> {
    let mut text = Vec::new(alloc);
    text.extend_from_slice(b"hls 1\nhorizon 9\n")?;
    text.extend_from_slice(line)?;
    Ok(text)
}

/// The canonical spelling of a text of that one line.
fn printed_line(alloc: Global, line: &[u8]) -> Result<Vec<u8>, Fail> {
    let text = behind_head(alloc, line)?;
    printed(alloc, &text)
}

const CANONICAL: [&[u8]; 5] = [
    b"hls 1\nhorizon 1\n",
    b"hls 1\nhorizon 100000\ndepth 0\n",
    b"hls 1
horizon 6
at 0 load root fp on cpu as ALL
at 0 thread a on root prio 0 as ALL
at 0 thread b on root prio 1 as NULL
at 0 wake b
at 1 wake a for 2
at 4 wake a for 1
",
    b"hls 2\nhorizon 1000000\ndepth 6\n",
    b"hls 2
horizon 6
at 0 load root sfq 4 2 2 on cpu as ALL
at 0 load below sfq 100 20 1 on root weight 1 as NULL
at 0 load even rr 5 on root weight 2 as NULL
at 5 thread a on below weight 20 as NULL
at 5 wake a every 4 burst 2
at 5 wake a for 3
at 5 wake a
",
];

/// Compares that all these texts are printed as they are.
fn all_stay(rt: &impl Abort, alloc: Global, texts: &[&[u8]]) -> Result<(), Fail> {
    for at in 0..texts.len() {
        let text = texts[at];
        assert_eq!(rt; printed(alloc, text)?.as_slice(), text);
    }
    Ok(())
}

#[test]
fn prints_a_canonical_text_as_it_is(rt: HostRuntime) -> Result<(), Fail> {
    all_stay(&rt, rt.alloc(), &CANONICAL)
}

/// A line, and what is printed of it.
type Line = (&'static [u8], &'static [u8]);

const PARTS: [Line; 11] = [
    (
        b"at 0  load\tr fp on cpu as ALL # the root",
        b"at 0 load r fp on cpu as ALL\n",
    ),
    (
        b"at 0 load r edf on s weight 20 as NULL\r\n",
        b"at 0 load r edf on s weight 20 as NULL\n",
    ),
    (
        b"\n# seats\nat 1 load s sfq 10 5 on e res 3 10 hard as PSBE 30/100 42/1",
        b"at 1 load s sfq 10 5 on e res 3 10 hard as PSBE 3/10 42\n",
    ),
    (
        b"at 2 load r rr 5 on w slots 40 as PSBE 7/7 0/3",
        b"at 2 load r rr 5 on w slots 40 as PSBE 1 0\n",
    ),
    (
        b"at 3 load w wheel 1000 on j sole as RESBS 3 10",
        b"at 3 load w wheel 1000 on j sole as RESBS 3 10\n",
    ),
    (
        b"at 4 load j join on e res 2 10 soft as RESBH 2 10  , r turn as RESCS 3 17 , f turn as NULL",
        b"at 4 load j join on e res 2 10 soft as RESBH 2 10 , r turn as RESCS 3 17 , f turn as NULL\n",
    ),
    (
        b" at 5 thread at on hard turn as RESCH 2 5",
        b"at 5 thread at on hard turn as RESCH 2 5\n",
    ),
    (
        b"at 6 move e to root prio 2 as PSBE 6/40 830/200",
        b"at 6 move e to root prio 2 as PSBE 3/20 83/20\n",
    ),
    (
        b"at 7 wake a for 100000\nat 7 wake b",
        b"at 7 wake a for 100000\nat 7 wake b\n",
    ),
    (
        b"at 8 block a\nat 8 end a\nat 8 unload r",
        b"at 8 block a\nat 8 end a\nat 8 unload r\n",
    ),
    (b"depth\t6\n\n", b"depth 6\n"),
];

/// Compares what is printed of all these lines.
fn all_are_printed(rt: &impl Abort, alloc: Global, cases: &[Line]) -> Result<(), Fail> {
    for at in 0..cases.len() {
        let (line, want) = cases[at];
        let text = printed_line(alloc, line)?;
        let whole = behind_head(alloc, want)?;
        assert_eq!(rt; text.as_slice(), whole.as_slice(), "at {line:?}");
    }
    Ok(())
}

#[test]
fn prints_each_part_in_one_way(rt: HostRuntime) -> Result<(), Fail> {
    all_are_printed(&rt, rt.alloc(), &PARTS)
}

#[test]
fn prints_a_quantum_in_one_way(rt: HostRuntime) -> Result<(), Fail> {
    let text = b"\nhls\t2 # two\r\nhorizon 9\nat 0 load r sfq 4  2\t2 on cpu as ALL # quanta";
    let want = b"hls 2\nhorizon 9\nat 0 load r sfq 4 2 2 on cpu as ALL\n";
    let again = printed(rt.alloc(), text.as_slice())?;
    assert_eq!(rt; again.as_slice(), want.as_slice());
    Ok(())
}

#[test]
fn prints_a_command_without_its_tick(rt: HostRuntime) -> Result<(), Fail> {
    let name = Name::read(b"a").ok_or("no name")?;
    let wake = Command::Wake {
        name,
        every: None,
        burst: Some(3),
    };
    let first = print_command(rt.alloc(), 1, &wake)?;
    assert_eq!(rt; first.as_slice(), b"wake a for 3".as_slice());
    let second = print_command(rt.alloc(), 2, &wake)?;
    assert_eq!(rt; second.as_slice(), b"wake a for 3".as_slice());
    let periodic = Command::Wake {
        name,
        every: Some(4),
        burst: Some(2),
    };
    let third = print_command(rt.alloc(), 2, &periodic)?;
    assert_eq!(rt; third.as_slice(), b"wake a every 4 burst 2".as_slice());
    Ok(())
}
