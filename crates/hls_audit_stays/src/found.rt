// Stays as they are found.
ghost use Rattle.std.specs.Prelude.{◌≡◌};
ghost use Rattle.hls_legal.specs.Stays.{want_of};
ghost use Rattle.hls_audit_stays.specs.Found.{stay_by, has_lasted, command_at};

use crate::spells::want_in;
use hls_chron::Name;
use hls_guarantee::Guarantee;
use hls_legal::Stay;
use hls_report_text::Answered;

/// A stay of a thread, as a `Stay` in less room: what is guaranteed for it stands in the command that seated the thread
/// last, at this place of all.
#[derive(Clone, Copy, Debug, PartialEq, Eq)]
pub struct FoundStay {
    pub name: Name,
    pub seated: Option<usize>,
    pub since: u32,
    pub until: Option<u32>,
}

impl FoundStay {
    /// The stay, by the commands in which it was found.
    pub fn stay(&self, answered: &[Answered]) -> Stay
        ensures { result ≡ stay_by answered.now self.now }
    {
        Stay {
            name: self.name,
            kept: wanted_at(answered, self.seated),
            since: self.since,
            until: self.until,
        }
    }

    /// Whether no command ended it before it had a tick.
    pub(crate) fn has_lasted(&self) -> bool
        ensures { result ≡ has_lasted self.now }
    {
        match self.until {
            Some(until) => self.since < until,
            None => true,
        }
    }
}

/// What the command at a place wants for its seat.
fn wanted_at(answered: &[Answered], seated: Option<usize>) -> Guarantee
    ensures { result ≡ want_of (command_at answered.now seated) }
{
    match seated {
        Some(place) => match answered.get(place) {
            Some(a) => want_in(&a.command),
            None => Guarantee::Null,
        },
        None => Guarantee::Null,
    }
}
