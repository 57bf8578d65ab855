// Who is served in each run of a report, and whom each of its commands rouses.
ghost use Rattle.std.specs.Prelude.{◌≡◌, ℕ, List, Some, true, IfOk, IfSome, slice_get};
ghost use Rattle.hls_legal.specs.Commands.{rouses};
ghost use Rattle.hls_audit_threads.specs.Inside.Lookups.{AreKeys, Serves, ServesNamed, Rouses, IsLookup};

use crate::chains::Chains;
use hls_chron::Name;
use hls_report_text::{Answer, Answered, Report, Run};
use hls_scenario::Command;
use std::alloc::{AllocError, Global};

/// Of a report: the thread that each run serves, and the thread that each command which was carried out admits, wakes,
/// blocks or ends; and where the name of each comes first and next.
#[derive(Drop)]
pub struct Lookup {
    pub(crate) served: Vec<Option<Name>>,
    pub(crate) runs: Chains,
    pub(crate) roused: Vec<Option<Name>>,
    pub(crate) commands: Chains,
}

/// The name at a place of a list.
fn name_at(names: &[Name], place: u16) -> Option<Name>
    ensures { result ≡ slice_get names.now place }
{
    match names.get(usize::from(place)) {
        Some(name) => Some(*name),
        None => None,
    }
}

/// The thread that a run serves.
fn thread_of(names: &[Name], run: &Run) -> Option<Name>
    ensures sound { IfSome result (Serves names.now run.now) }
    ensures all { (name : List ℕ) → ServesNamed names.now run.now name → result ≡ Some name }
{
    match &run.path {
        Some(path) => match path.last_place() {
            Some(place) => name_at(names, place),
            None => None,
        },
        None => None,
    }
}

/// The threads that runs serve.
fn threads_of(alloc: Global, names: &[Name], runs: &[Run]) -> Result<Vec<Option<Name>>, AllocError>
    ensures { IfOk result (λ keys. AreKeys (Serves names.now) (ServesNamed names.now) runs.now keys.items) }
{
    let mut keys = Vec::with_capacity(alloc, runs.len())?;
    for run in runs {
        keys.push(thread_of(names, run))?;
    }
    Ok(keys)
}

/// The thread that a command admits, wakes, blocks or ends.
fn roused_by(command: &Command) -> Option<Name>
    ensures sound { IfSome result (λ name. rouses name command.now ≡ true) }
    ensures all { (name : List ℕ) → rouses name command.now ≡ true → result ≡ Some name }
{
    match command {
        Command::Thread { name, .. } => Some(*name),
        Command::End { name } => Some(*name),
        Command::Wake { name, .. } => Some(*name),
        Command::Block { name } => Some(*name),
        _ => None,
    }
}

/// The thread that a command rouses, if it was carried out.
fn roused(a: &Answered) -> Option<Name>
    ensures sound { IfSome result (Rouses a.now) }
    ensures all { (name : List ℕ) → Rouses a.now name → result ≡ Some name }
{
    match &a.answer {
        Answer::Done(_) => roused_by(&a.command),
        Answer::Refused(_) => None,
    }
}

/// The threads that commands rouse.
fn all_roused(alloc: Global, answered: &[Answered]) -> Result<Vec<Option<Name>>, AllocError>
    ensures { IfOk result (λ keys. AreKeys Rouses Rouses answered.now keys.items) }
{
    let mut keys = Vec::with_capacity(alloc, answered.len())?;
    for a in answered {
        keys.push(roused(a))?;
    }
    Ok(keys)
}

impl Lookup {
    /// The threads of a report.
    ///
    /// # Errors
    /// Returns `AllocError` for want of memory.
    pub fn of(alloc: Global, report: &Report) -> Result<Lookup, AllocError>
        ensures { IfOk result (IsLookup report.now) }
    {
        let served = threads_of(alloc, report.names.items(), report.runs.items())?;
        let runs = Chains::of(alloc, &served)?;
        let roused = all_roused(alloc, report.answered.items())?;
        let commands = Chains::of(alloc, &roused)?;
        Ok(Lookup {
            served,
            runs,
            roused,
            commands,
        })
    }
}
