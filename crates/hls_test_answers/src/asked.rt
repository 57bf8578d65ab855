// What a command asks for.
ghost use Rattle.std.specs.Prelude.{◌≡◌, length, slice_get};
ghost use Rattle.hls_legal.specs.Moment as words;

use hls_chron::Name;
use hls_scenario::{Command, Perch};

/// The new name that a command gives.
pub fn new_name(command: &Command) -> Option<Name>
    ensures { result ≡ words.new_name command.now }
{
    match command {
        Command::Load { name, .. } | Command::Thread { name, .. } => Some(*name),
        _ => None,
    }
}

/// The name after `end`, `unload`, `move`, `wake` or `block`.
pub fn old_name(command: &Command) -> Option<Name>
    ensures { result ≡ words.old_name command.now }
{
    match command {
        Command::End { name } | Command::Unload { name } | Command::Block { name } => Some(*name),
        Command::Move { name, .. } | Command::Wake { name, .. } => Some(*name),
        _ => None,
    }
}

/// The seat that a command asks for at a port.
pub fn perch_at(command: &Command, port: usize) -> Option<Perch>
    ensures { result ≡ slice_get (words.perches_of command.now) port }
{
    match command {
        Command::Load { perches, .. } => perches.items().get(port).copied(),
        Command::Thread { perch, .. } | Command::Move { perch, .. } if port == 0 => Some(*perch),
        _ => None,
    }
}

/// How many seats a command asks for.
pub fn perch_count(command: &Command) -> usize
    ensures { result ≡ length (words.perches_of command.now) }
{
    match command {
        Command::Load { perches, .. } => perches.items().len(),
        Command::Thread { .. } | Command::Move { .. } => 1,
        _ => 0,
    }
}
