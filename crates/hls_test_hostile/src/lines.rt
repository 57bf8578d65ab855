// Lines that no scenario has, a comment, and a line that wins over the words.
use crate::running::{Case, SHORT, answer, first_other, outcome};
use hls_io::Status;
use std::alloc::{AllocError, Global};
use std::str;
use std::test::Fail;

/// The report where a thread is woken that nobody has admitted.
const NOBODY_WOKEN: &[u8] = b"hls-report 1\nhorizon 5\ndepth 3\n\
    at 0 wake a\n= refused 11 NoSuchName a\n\
    schedule\n0..4 idle\naccounts\nidle 5\nend\n";

const TEXTS: [Case; 6] = [
    (
        &["run"],
        b"hls 1\nhorizon 5\nat 0 wake a #\x80\n",
        (Status::Done, NOBODY_WOKEN),
    ),
    (
        &["run"],
        b"",
        (Status::RefusedText, b"refused line 1 Header\n"),
    ),
    (
        &["run"],
        b"hls 2\nhorizon 1000001\n",
        (Status::RefusedText, b"refused line 2 Horizon\n"),
    ),
    (
        &["run"],
        b"hls 1\nhorizon 5\nat 0 loa",
        (Status::RefusedText, b"refused line 3 Word\n"),
    ),
    (
        &["run"],
        b"hls 1\nhorizon 5\ndepth 1\ndepth 2\n",
        (Status::RefusedText, b"refused line 4 Word\n"),
    ),
    (
        &["run"],
        b"hls 1\nhorizon 5\nat 3 wake a\nat 2 wake a\n",
        (Status::RefusedText, b"refused line 4 Order\n"),
    ),
];

#[test]
fn reads_a_comment_and_refuses_bad_lines(rt: HostRuntime) -> Result<(), Fail> {
    assert_eq!(rt; first_other(rt.alloc(), &TEXTS, SHORT)?, None);
    Ok(())
}

/// A guarantee that follows by one conversion.
const ONE_CONVERSION: &str = "hls 1\nhorizon 10\ndepth 1\n\
    at 0 load root edf on cpu as ALL\n\
    at 0 load f fp on root res 3 10 soft as RESBS 3 10\n\
    at 0 thread t on f prio 0 as RESCS 3 17\n";

/// Its report, but for the derivations, which may be others.
const ONE_CONVERSION_REPORT: &str = "hls-report 1\nhorizon 10\ndepth 1\n\
    at 0 load root edf on cpu as ALL\n= done\n\
    at 0 load f fp on root res 3 10 soft as RESBS 3 10\n= done\n\
    at 0 thread t on f prio 0 as RESCS 3 17\n= done\n\
    schedule\n0..9 idle\naccounts\nt 0..9 RESCS 3 17 ready 0 served 0\nidle 10\nend\n";

/// A report without its derivations.
fn without_derivations(alloc: Global, report: &str) -> Result<String, AllocError> {
    let mut rest = String::new(alloc);
    for line in report.lines() {
        if !line.starts_with("by ") {
            rest.push_str(line)?;
            rest.push('\n')?;
        }
    }
    Ok(rest)
}

/// Words that tell of no conversion.
const NO_CONVERSION: [&[&str]; 2] = [&["run", "--depth", "0"], &["run", "--depth=0"]];

/// Whether one conversion is found at these words, and `check` keeps the report.
fn is_converted(alloc: Global, words: &[&str]) -> Result<bool, AllocError> {
    let text = ONE_CONVERSION.as_bytes().to_vec(alloc)?;
    let (status, written) = outcome(alloc, words, text, SHORT)?;
    let report = str::from_utf8(&written).unwrap_or("");
    let answers = without_derivations(alloc, report)?;
    let (verdict, word) = answer(alloc, "check", report.to_string(alloc)?)?;
    Ok(
        status == Status::Done
            && answers.as_str() == ONE_CONVERSION_REPORT
            && verdict == Status::Done
            && word.as_str() == "kept\n",
    )
}

/// The first of these words that win over the text.
fn first_that_wins(alloc: Global) -> Result<Option<usize>, Fail> {
    for at in 0..NO_CONVERSION.len() {
        if !is_converted(alloc, NO_CONVERSION[at])? {
            return Ok(Some(at));
        }
    }
    Ok(None)
}

#[test]
fn takes_the_depth_of_the_text_before_that_of_the_words(rt: HostRuntime) -> Result<(), Fail> {
    assert_eq!(rt; first_that_wins(rt.alloc())?, None);
    Ok(())
}
