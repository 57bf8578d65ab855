// What stands below the rows, and where the audit found something broken.
ghost use Rattle.std.specs.Prelude.{◌≡◌, ◌<◌, ◌^◌, ◌++◌, IfOk, OnOk, map};
ghost use Rattle.hls_view_picture.specs.Pictures as told;

use hls_text::put;
use hls_view_marks::{Page, Spot, put_path_of, put_text, row_top, tick_x};
use hls_view_picture_rows::Picture;
use hls_view_pieces::Piece::{Number, Text};
use hls_view_pieces::put_pieces;
use hls_view_scale::Scale;
use std::alloc::{AllocError, Global};

#[tactic(auto, unfolding(crate::specs::Pictures::broken_way))]
fn broken_way(alloc: Global, page: &Page, bottom: u128, tick: u32) -> Result<Vec<u8>, AllocError>
    requires { page.now.left < 2 ^ 80 }
    ensures { IfOk result (λ way. way.items ≡ told.broken_way page.now bottom tick) }
{
    let mut way = Vec::new(alloc);
    put_pieces(
        &mut way,
        &[
            Text(b"M"),
            Number(tick_x(page, u64::from(tick))),
            Text(b" 104V"),
            Number(bottom),
        ],
    )?;
    Ok(way)
}

fn is_shown(scale: &Scale, tick: u32) -> bool
    ensures { result ≡ told.is_shown scale.now tick }
{
    scale.from <= tick && tick <= scale.to
}

#[tactic(auto, unfolding(crate::specs::Pictures::broken_text))]
fn put_broken(
    alloc: Global,
    out: &mut Vec<u8>,
    page: &Page,
    bottom: u128,
    broken: Option<u32>,
) -> Result<(), AllocError>
    requires { page.now.left < 2 ^ 80 }
    ensures { OnOk result (out.new.items ≡ out.old.items ++ told.broken_text page.now bottom broken) }
{
    let Some(tick) = broken else {
        return Ok(());
    };
    if !is_shown(&page.scale, tick) {
        return Ok(());
    }
    let way = broken_way(alloc, page, bottom, tick)?;
    put_path_of(out, b"n", &way)
}

#[tactic(auto, unfolding(crate::specs::Pictures::line_class))]
fn line_class(place: usize) -> &'static [u8]
    ensures { result.now ≡ told.line_class place }
{
    if place < 12 { b"nt" } else { b"" }
}

fn put_line(out: &mut Vec<u8>, bottom: u128, place: usize, line: &[u8]) -> Result<(), AllocError>
    requires { bottom < 2 ^ 80 }
    ensures { OnOk result (out.new.items ≡ out.old.items ++ told.line_text bottom place line.now) }
{
    let spot = Spot {
        x: 10,
        y: bottom + 48 + 20 * place as u128,
    };
    put_text(out, line_class(place), spot, line)
}

#[tactic(auto, unfolding(crate::specs::Pictures::lines_text))]
fn put_lines(out: &mut Vec<u8>, bottom: u128, lines: &[Vec<u8>]) -> Result<(), AllocError>
    requires { bottom < 2 ^ 80 }
    ensures { OnOk result (out.new.items ≡ out.old.items
        ++ told.lines_text bottom (map (λ line. line.items) lines.now)) }
{
    for (place, line) in lines.iter().enumerate() {
        put_line(out, bottom, place, line)?;
    }
    Ok(())
}

/// Appends the end of a picture, with these lines below the rows.
#[tactic(auto, unfolding(crate::specs::Pictures::end_text))]
pub(crate) fn put_ending(
    alloc: Global,
    out: &mut Vec<u8>,
    page: &Page,
    lines: &[Vec<u8>],
    picture: &Picture,
) -> Result<(), AllocError>
    requires { page.now.left < 2 ^ 80 }
    ensures { OnOk result (out.new.items ≡ out.old.items
        ++ told.end_text page.now (map (λ line. line.items) lines.now) picture.now) }
{
    let bottom = row_top(picture.rows.len());
    put_broken(alloc, out, page, bottom, picture.broken_at)?;
    put_lines(out, bottom, lines)?;
    put(out, b"</svg>\n")
}
