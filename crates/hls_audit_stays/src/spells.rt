// Names, commands and marks, one by one.
ghost use Rattle.std.specs.Prelude.{◌≡◌, ◌↔◌, Bool, IsTrue, get_or, false};
ghost use Rattle.std.specs.List.{list_any};
ghost use Rattle.std.specs.Str.{bytes_eq};
ghost use Rattle.hls_legal.specs.Stays.{want_in};

use hls_chron::Name;
use hls_guarantee::Guarantee;
use hls_scenario::Command;

/// Whether two names are the same.
pub(crate) fn is_same(name: &Name, other: &Name) -> bool
    ensures { result ≡ bytes_eq name.now other.now }
{
    name.bytes() == other.bytes()
}

/// What a command wants for its seat.
pub(crate) fn want_in(command: &Command) -> Guarantee
    ensures { result ≡ want_in command.now }
{
    match command {
        Command::Thread { perch, .. } => perch.want,
        Command::Move { perch, .. } => perch.want,
        _ => Guarantee::Null,
    }
}

/// Whether a place is marked.
pub(crate) fn is_marked(marks: &[bool], place: usize) -> bool
    ensures { result ≡ get_or marks.now place false }
{
    match marks.get(place) {
        Some(mark) => *mark,
        None => false,
    }
}

/// Whether one of the places is marked.
pub(crate) fn is_any(marks: &[bool]) -> bool
    ensures { result ≡ list_any (λ (mark : Bool). mark) marks.now }
{
    marks.iter().any(|mark| *mark)
}

/// Whether the marks are the same.
pub(crate) fn are_same(marks: &[bool], other: &[bool]) -> bool
    ensures { IsTrue result ↔ (marks.now ≡ other.now) }
{
    marks == other
}
