// What the commands of a report say of a name.
ghost use Rattle.std.specs.Prelude.{◌≡◌, option_copied};
ghost use Rattle.std.specs.Str.{bytes_eq};
ghost use Rattle.hls_legal.specs.Commands as said;

use hls_chron::Name;
use hls_report_text::{Answer, Answered};
use hls_scenario::Command;

/// Whether two names are the same.
pub fn same_name(one: &Name, other: &Name) -> bool
    ensures { result ≡ bytes_eq one.now other.now }
{
    one.bytes() == other.bytes()
}

/// Whether a command was carried out.
pub fn is_done(answer: &Answer) -> bool
    ensures { result ≡ said.is_done answer.now }
{
    match answer {
        Answer::Done(_) => true,
        Answer::Refused(_) => false,
    }
}

/// Whether a command admits, wakes, blocks or ends the thread of a name.
fn rouses(thread: &Name, command: &Command) -> bool
    ensures { result ≡ said.rouses thread.now command.now }
{
    match command {
        Command::Thread { name, .. } => same_name(name, thread),
        Command::End { name } => same_name(name, thread),
        Command::Wake { name, .. } => same_name(name, thread),
        Command::Block { name } => same_name(name, thread),
        _ => false,
    }
}

/// Whether a command gives the node of a name its seats.
fn seats(node: &Name, command: &Command) -> bool
    ensures { result ≡ said.seats node.now command.now }
{
    match command {
        Command::Load { name, .. } => same_name(name, node),
        Command::Thread { name, .. } => same_name(name, node),
        Command::Move { name, .. } => same_name(name, node),
        _ => false,
    }
}

/// Whether a command ends the thread of a name.
fn ends(name: &Name, command: &Command) -> bool
    ensures { result ≡ said.ends name.now command.now }
{
    match command {
        Command::End { name: other } => same_name(other, name),
        _ => false,
    }
}

/// Whether the thread of a name was ended by one of these commands.
pub fn is_ended(name: &Name, after: &[Answered]) -> bool
    ensures { result ≡ said.is_ended name.now after.now }
{
    after
        .iter()
        .any(|a| is_done(&a.answer) && ends(name, &a.command))
}

/// The last of these commands that gives the node of a name its seats.
#[tactic(auto, unfolding(hls_legal::specs::Commands::last_seating))]
pub fn last_seating<'a>(name: &Name, before: &'a [Answered]) -> Option<&'a Answered>
    ensures { option_copied result ≡ said.last_seating name.now before.entry.now }
{
    before
        .iter()
        .rev()
        .find(|a| is_done(&a.answer) && seats(name, &a.command))
}

/// The last command up to a tick that admits, wakes, blocks or ends the thread of a name.
#[tactic(auto, unfolding(hls_legal::specs::Commands::last_rousing))]
pub fn last_rousing<'a>(name: &Name, tick: u32, answered: &'a [Answered]) -> Option<&'a Answered>
    ensures { option_copied result ≡ said.last_rousing name.now tick answered.entry.now }
{
    answered.iter().rev().find(|a| a.tick <= tick && is_done(&a.answer) && rouses(name, &a.command))
}
