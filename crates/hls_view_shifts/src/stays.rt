// The stays that a move ends and opens.
ghost use Rattle.std.specs.Prelude.{◌≡◌, option_copied, slice_get};
ghost use Rattle.std.specs.Str.{bytes_eq};
ghost use Rattle.hls_view_tree.specs.Stays.{standing_of};
ghost use Rattle.hls_view_shifts.specs.Moves as told;

use crate::moving::Moving;
use hls_chron::Name;
use hls_report_text::Answered;
use hls_view_tale::Standing;

/// Whether two names are the same.
pub(crate) fn is_same_name(name: &Name, other: &Name) -> bool
    ensures { result ≡ bytes_eq name.now other.now }
{
    name == other
}

fn standing_of<'a>(all: &'a [Standing], name: &Name) -> Option<&'a Standing>
    ensures { option_copied result ≡ standing_of all.now name.now }
{
    all.iter()
        .find(|standing| is_same_name(&standing.name, name))
}

/// Whether the command at a place is there, and came before a tick.
fn is_before(answered: &[Answered], place: usize, tick: u32) -> bool
    ensures { result ≡ told.is_before tick (slice_get answered.now place) }
{
    match answered.get(place) {
        Some(a) => a.tick < tick,
        None => false,
    }
}

/// Whether the stay that a move ends has a tick, by who is there before it.
pub(crate) fn has_lasted(answered: &[Answered], moving: &Moving, before: &[Standing]) -> bool
    ensures { result ≡ told.has_lasted answered.now moving.now.tick (standing_of before.now moving.now.name) }
{
    match standing_of(before, &moving.name) {
        Some(standing) => is_before(answered, standing.opened, moving.tick),
        None => false,
    }
}

/// Whether the stay that a move opens has a tick, by who is there at that of the move.
pub(crate) fn is_lasting(moving: &Moving, now: &[Standing]) -> bool
    ensures { result ≡ told.is_lasting moving.now.place (standing_of now.now moving.now.name) }
{
    match standing_of(now, &moving.name) {
        Some(standing) => standing.opened == moving.place,
        None => false,
    }
}
