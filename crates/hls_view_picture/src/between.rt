// What stands between the rows: what each is below, and moves.
ghost use Rattle.std.specs.Prelude.{◌≡◌, ◌<◌, ◌^◌, ◌++◌, IfOk, OnOk, flat_map};
ghost use Rattle.hls_view_marks.specs.Numbered.{numbered};
ghost use Rattle.hls_view_picture.specs.Between as told;

use hls_view_marks::{Page, put_path, put_path_of, row_top, tick_x};
use hls_view_picture_rows::{PictureRow, ShownMove};
use hls_view_pieces::Piece::{Number, Text};
use hls_view_pieces::put_pieces;
use std::alloc::{AllocError, Global};

#[tactic(auto, unfolding(crate::specs::Between::link_of))]
fn put_link_of(way: &mut Vec<u8>, depth: u32, above: u32, place: usize) -> Result<(), AllocError>
    ensures { OnOk result (way.new.items ≡ way.old.items ++ told.link_of depth above place) }
{
    put_pieces(
        way,
        &[
            Text(b"M"),
            Number(14 * u128::from(depth)),
            Text(b" "),
            Number(row_top(above as usize) + 15),
            Text(b"V"),
            Number(row_top(place) + 10),
            Text(b"h7"),
        ],
    )
}

fn put_link(way: &mut Vec<u8>, place: usize, row: &PictureRow) -> Result<(), AllocError>
    ensures { OnOk result (way.new.items ≡ way.old.items ++ told.link_text place row.now) }
{
    match row.above {
        None => Ok(()),
        Some(above) => put_link_of(way, row.depth, above, place),
    }
}

fn put_each_link(way: &mut Vec<u8>, rows: &[PictureRow]) -> Result<(), AllocError>
    ensures { OnOk result (way.new.items ≡ way.old.items ++ numbered told.link_text 0 rows.now) }
{
    for (place, row) in rows.iter().enumerate() {
        put_link(way, place, row)?;
    }
    Ok(())
}

/// Appends the lines from each row to those directly below it.
#[tactic(auto, unfolding(crate::specs::Between::links_text))]
pub(crate) fn put_links(
    alloc: Global,
    out: &mut Vec<u8>,
    rows: &[PictureRow],
) -> Result<(), AllocError>
    ensures { OnOk result (out.new.items ≡ out.old.items ++ told.links_text rows.now) }
{
    let mut way = Vec::new(alloc);
    put_each_link(&mut way, rows)?;
    put_path(out, b"l", &way)
}

#[tactic(auto, unfolding(crate::specs::Between::dashes_way))]
fn dashes_way(alloc: Global, page: &Page, shown: &ShownMove) -> Result<Vec<u8>, AllocError>
    requires { page.now.left < 2 ^ 80 }
    ensures { IfOk result (λ way. way.items ≡ told.dashes_way page.now shown.now) }
{
    let mut way = Vec::new(alloc);
    put_pieces(
        &mut way,
        &[
            Text(b"M"),
            Number(tick_x(page, u64::from(shown.tick))),
            Text(b" "),
            Number(row_top(shown.from as usize) + 10),
            Text(b"V"),
            Number(row_top(shown.to as usize) + 10),
        ],
    )?;
    Ok(way)
}

#[tactic(auto, unfolding(crate::specs::Between::point_of))]
fn point_of(from: u32, to: u32) -> &'static [u8]
    ensures { result.now ≡ told.point_of from to }
{
    if from < to { b"l-4-4h8z" } else { b"l-4 4h8z" }
}

#[tactic(auto, unfolding(crate::specs::Between::arrow_way))]
fn arrow_way(alloc: Global, page: &Page, shown: &ShownMove) -> Result<Vec<u8>, AllocError>
    requires { page.now.left < 2 ^ 80 }
    ensures { IfOk result (λ way. way.items ≡ told.arrow_way page.now shown.now) }
{
    let mut way = Vec::new(alloc);
    put_pieces(
        &mut way,
        &[
            Text(b"M"),
            Number(tick_x(page, u64::from(shown.tick))),
            Text(b" "),
            Number(row_top(shown.to as usize) + 10),
            Text(point_of(shown.from, shown.to)),
        ],
    )?;
    Ok(way)
}

#[tactic(auto, unfolding(crate::specs::Between::move_text))]
fn put_move(
    alloc: Global,
    out: &mut Vec<u8>,
    page: &Page,
    shown: &ShownMove,
) -> Result<(), AllocError>
    requires { page.now.left < 2 ^ 80 }
    ensures { OnOk result (out.new.items ≡ out.old.items ++ told.move_text page.now shown.now) }
{
    let dashes = dashes_way(alloc, page, shown)?;
    put_path_of(out, b"t d", &dashes)?;
    let arrow = arrow_way(alloc, page, shown)?;
    put_path_of(out, b"k", &arrow)
}

fn put_each_move(
    alloc: Global,
    out: &mut Vec<u8>,
    page: &Page,
    moves: &[ShownMove],
) -> Result<(), AllocError>
    requires { page.now.left < 2 ^ 80 }
    ensures { OnOk result (out.new.items ≡ out.old.items ++ flat_map (told.move_text page.now) moves.now) }
{
    for shown in moves {
        put_move(alloc, out, page, shown)?;
    }
    Ok(())
}

/// Appends the moves, where a column has one tick.
#[tactic(auto, unfolding(crate::specs::Between::moves_text))]
pub(crate) fn put_moves(
    alloc: Global,
    out: &mut Vec<u8>,
    page: &Page,
    moves: &[ShownMove],
) -> Result<(), AllocError>
    requires { page.now.left < 2 ^ 80 }
    ensures { OnOk result (out.new.items ≡ out.old.items ++ told.moves_text page.now moves.now) }
{
    if page.scale.ticks == 1 {
        return put_each_move(alloc, out, page, moves);
    }
    Ok(())
}
