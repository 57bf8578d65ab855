// As many commands as there may be, and one more.
use crate::running::answer;
use hls_io::Status;
use std::alloc::{AllocError, Global};
use std::test::Fail;

/// How many commands a scenario may have.
const MOST: usize = 65_536;

/// The text of a scenario that wakes a thread so often, though nobody has admitted it.
fn wakes(alloc: Global, count: usize) -> Result<String, AllocError> {
    let lines = "at 0 wake a\n".repeat(alloc, count)?;
    format!(in alloc; "hls 1\nhorizon 5\n{lines}")
}

#[test]
fn answers_each_of_the_most_commands(rt: HostRuntime) -> Result<(), Fail> {
    let alloc = rt.alloc();
    let (status, written) = answer(alloc, "run", wakes(alloc, MOST)?)?;
    let refused = "at 0 wake a\n= refused 11 NoSuchName a\n".repeat(alloc, MOST)?;
    let end = "schedule\n0..4 idle\naccounts\nidle 5\nend\n";
    let due = format!(in alloc; "hls-report 1\nhorizon 5\ndepth 3\n{refused}{end}")?;
    assert_eq!(rt; status, Status::Done);
    assert!(rt; written == due, "the report is another");
    Ok(())
}

#[test]
fn refuses_one_command_more(rt: HostRuntime) -> Result<(), Fail> {
    let alloc = rt.alloc();
    let (status, written) = answer(alloc, "run", wakes(alloc, MOST + 1)?)?;
    assert_eq!(rt; status, Status::RefusedText);
    assert_eq!(rt; written.as_str(), "refused line 65539 Many\n");
    Ok(())
}
