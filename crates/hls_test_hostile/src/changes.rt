// Reports that were changed in one place, and what `check` says of them.
use crate::running::answer;
use hls_io::Status;
use std::alloc::Global;
use std::test::Fail;

/// The smallest whole report: one thread for one tick.
const SMALLEST: &str = "hls-report 1\nhorizon 1\ndepth 3\n\
    at 0 load root fp on cpu as ALL\n= done\nby root 0 ALL CPU ALL\n\
    at 0 thread a on root prio 0 as ALL\n= done\nby a 0 ALL FP ALL\n\
    at 0 wake a\n= done\n\
    schedule\n0..0 cpu/root/a\n\
    accounts\na 0..0 ALL ready 1 served 1\nidle 0\nend\n";

/// What stands in it, what is put in its place, and what comes of it.
type Change = (&'static str, &'static str, Status, &'static str);

const CHANGES: [Change; 8] = [
    ("", "", Status::Done, "kept\n"),
    (
        "0..0 cpu/root/a",
        "0..0 idle",
        Status::Broken,
        "broken A4 0\n",
    ),
    (
        "0..0 cpu/root/a",
        "0..0 cpu/a",
        Status::Broken,
        "broken A2 0\n",
    ),
    (
        "at 0 wake a",
        "at 0 wake b",
        Status::Broken,
        "broken A1 0\n",
    ),
    (
        "at 0 wake a\n= done",
        "at 0 wake a\n= refused 11 NoSuchName a",
        Status::Broken,
        "broken A3 0\n",
    ),
    (
        "by a 0 ALL FP ALL",
        "by a 0 NULL FP NULL",
        Status::Broken,
        "broken A6 0\n",
    ),
    ("served 1", "served 0", Status::Broken, "broken A7 1\n"),
    (
        "0..0 cpu/root/a",
        "0..1 cpu/root/a",
        Status::RefusedText,
        "refused line 13 Form\n",
    ),
];

/// The first change of which `check` says something else.
fn first_other(alloc: Global) -> Result<Option<usize>, Fail> {
    for at in 0..CHANGES.len() {
        let (old, new, due, word) = CHANGES[at];
        let report = SMALLEST.replacen(alloc, old, new, 1)?;
        let (status, written) = answer(alloc, "check", report)?;
        if status != due || written.as_str() != word {
            return Ok(Some(at));
        }
    }
    Ok(None)
}

#[test]
fn finds_each_change(rt: HostRuntime) -> Result<(), Fail> {
    assert_eq!(rt; first_other(rt.alloc())?, None);
    Ok(())
}
