// Paths of a report, by the places of their names.
ghost use Rattle.std.specs.Prelude.{◌≡◌, [], Some, get_or};
ghost use Rattle.std.specs.Str.{bytes_eq};
ghost use Rattle.hls_report_text.specs.WellFormed.{HasShort};
ghost use Rattle.hls_view_tracks.specs.Flame as flame;
ghost use Rattle.hls_view_tracks.specs.Inside.Paths.{places_in, named};

use hls_chron::Name;
use hls_report_text::{Path, Run};

fn places_on(path: &Path) -> &[u16]
    requires { HasShort (Some path.now) }
    ensures { result.now ≡ places_in (Some path.now) }
{
    &path.names[..usize::from(path.len)]
}

/// The places of the names on the way down to whom a run's ticks were given.
pub(crate) fn places_of(run: &Run) -> &[u16]
    requires { HasShort run.now.path }
    ensures { result.now ≡ places_in run.now.path }
{
    match &run.path {
        Some(path) => places_on(path),
        None => &[],
    }
}

/// The text of the name at a place.
pub(crate) fn name_at(names: &[Name], place: u16) -> &[u8]
    ensures { result.now ≡ get_or names.now place [] }
{
    match names.get(usize::from(place)) {
        Some(name) => name.bytes(),
        None => &[],
    }
}

fn is_same(names: &[Name], place: u16, other: u16) -> bool
    ensures { result ≡ bytes_eq (get_or names.now place []) (get_or names.now other []) }
{
    name_at(names, place) == name_at(names, other)
}

/// Whether some names are the first of a path, or all of it.
pub(crate) fn begins(names: &[Name], above: &[u16], path: &[u16]) -> bool
    ensures { result ≡ flame.begins (named names.now above.now) (named names.now path.now) }
{
    match above {
        [] => true,
        [place, above @ ..] => match path {
            [] => false,
            [other, path @ ..] => is_same(names, *place, *other) && begins(names, above, path),
        },
    }
}
