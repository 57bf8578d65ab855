// Where what is printed at the left of the rows stands.
ghost use Rattle.std.specs.Prelude.{◌≡◌, ◌<◌, ◌*◌, ◌^◌};
ghost use Rattle.hls_view_picture_rows.specs.Left as told;

use crate::picture::{Picture, PictureRow};
use crate::rows::{Heading, cell_len, head_of};
use hls_view_marks::Page;

fn config_len(config: &[u8]) -> u128
    ensures is { result ≡ told.config_len config.now }
    ensures within { result < 2 ^ 65 }
{
    match config {
        [] => 0,
        _ => 1 + config.len() as u128,
    }
}

fn name_wide(row: &PictureRow) -> u128
    ensures is { result ≡ told.name_wide row.now }
    ensures within { result < 2 ^ 70 }
{
    14 * u128::from(row.depth) + 7 * (row.name.len() as u128 + config_len(&row.config))
}

fn names_wide(rows: &[PictureRow]) -> u128
    ensures is { result ≡ told.names_wide rows.now }
    ensures within { result < 2 ^ 70 }
{
    let mut wide = 0;
    for row in rows {
        wide = name_wide(row).max(wide);
    }
    wide
}

fn longest(rows: &[PictureRow], heading: Heading) -> usize
    ensures { result ≡ told.longest heading rows.now }
{
    let mut longest = head_of(heading).len();
    for row in rows {
        longest = longest.max(cell_len(row, heading));
    }
    longest
}

fn column_wide(rows: &[PictureRow], heading: Heading) -> u128
    ensures is { result ≡ told.column_wide heading rows.now }
    ensures within { result < 2 ^ 70 }
{
    7 * longest(rows, heading) as u128
}

/// Where the parts of a picture stand.
#[tactic(auto, unfolding(crate::specs::Left::page_of))]
pub fn page_of(picture: &Picture) -> Page
    ensures is { result ≡ told.page_of picture.now }
    ensures within { result.left < 2 ^ 80 }
{
    let rows = &picture.rows;
    let seat = (10 + names_wide(rows)).max(66) + 16;
    let guarantee = seat + column_wide(rows, Heading::Seat) + 16;
    let served = guarantee
        + column_wide(rows, Heading::Guarantee)
        + 16
        + column_wide(rows, Heading::Served);
    let ready = served + 16 + column_wide(rows, Heading::Ready);
    let spare = ready + 16 + column_wide(rows, Heading::Spare);
    Page {
        scale: picture.scale,
        seat,
        guarantee,
        served,
        ready,
        spare,
        left: spare + 28,
    }
}
