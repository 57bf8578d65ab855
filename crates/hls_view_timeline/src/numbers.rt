// The numbers of rows, by which processes and tracks are known.
ghost use Rattle.std.specs.Prelude.{◌≡◌, ◌<◌, IfSome, length, position};
ghost use Rattle.hls_view_lanes.specs.Likeness as likeness;
ghost use Rattle.hls_view_lanes.specs.Rows.{above_of};
ghost use Rattle.hls_view_timeline.specs.Numbers as told;

use hls_chron::List;
use hls_view_lanes::is_same;
use hls_view_tale::Label;
use hls_view_trace::Place;

/// Where the first row that reads as a way stands.
fn row_like(rows: &[List<Label>], way: &[Label]) -> Option<usize>
    ensures is { result ≡ position (λ row. likeness.is_same row way.now) rows.now }
    ensures within { IfSome result (λ at. at < length rows.now) }
{
    rows.iter().position(|row| is_same(row.items(), way))
}

/// The number of the first row that reads as a way, from 1 on, or else 0.
pub(crate) fn number_of(rows: &[List<Label>], way: &[Label]) -> usize
    requires few { length rows.now < 4096 }
    ensures { result ≡ told.number_of rows.now way.now }
{
    match row_like(rows, way) {
        Some(at) => at + 1,
        None => 0,
    }
}

/// The way to what a way ends on.
fn above_of(way: &[Label]) -> &[Label]
    ensures { result.now ≡ above_of way.now }
{
    &way[..way.len().saturating_sub(1)]
}

/// The track of a row that ends in a thread: one of the process of the row above it.
pub(crate) fn track_of(rows: &[List<Label>], way: &[Label]) -> Place
    requires few { length rows.now < 4096 }
    ensures { result ≡ told.track_of rows.now way.now }
{
    Place {
        process: number_of(rows, above_of(way)),
        track: number_of(rows, way),
    }
}

/// The track of the schedule.
pub(crate) fn schedule_track(rows: &[List<Label>]) -> Place
    requires few { length rows.now < 4096 }
    ensures { result ≡ told.schedule_track rows.now }
{
    Place {
        process: 1,
        track: rows.len() + 1,
    }
}

/// The track of the commands.
pub(crate) fn commands_track(rows: &[List<Label>]) -> Place
    requires few { length rows.now < 4096 }
    ensures { result ≡ told.commands_track rows.now }
{
    Place {
        process: 1,
        track: rows.len() + 2,
    }
}
