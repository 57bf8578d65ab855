// Which commands move somebody.
ghost use Rattle.std.specs.Prelude.{◌≡◌};
ghost use Rattle.hls_view_shifts.specs.Moves as told;

use hls_chron::Name;
use hls_report_text::{Answer, Answered};
use hls_scenario::Command;
use hls_view_scale::Scale;

/// A move that was carried out.
#[derive(Clone, Copy, Debug, PartialEq, Eq)]
pub(crate) struct Moving {
    /// Where its command stands among all, from 0.
    pub(crate) place: usize,
    pub(crate) tick: u32,
    pub(crate) name: Name,
}

fn moved(command: &Command) -> Option<Name>
    ensures { result ≡ told.moved command.now }
{
    match command {
        Command::Move { name, .. } => Some(*name),
        _ => None,
    }
}

/// Whom a command moved, if it was carried out.
pub(crate) fn moved_by(a: &Answered) -> Option<Name>
    ensures { result ≡ told.moved_by a.now }
{
    match &a.answer {
        Answer::Done(_) => moved(&a.command),
        Answer::Refused(_) => None,
    }
}

/// Whether a tick and the one before it are shown.
pub(crate) fn is_inside(scale: &Scale, tick: u32) -> bool
    ensures { result ≡ told.is_inside scale.now tick }
{
    scale.from < tick && tick <= scale.to
}
