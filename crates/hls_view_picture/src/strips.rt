// What ran, as titles of strips that are not seen.
ghost use Rattle.std.specs.Prelude.{◌≡◌, ◌<◌, ◌^◌, ◌++◌, IfOk, OnOk};
ghost use Rattle.hls_view_picture.specs.Strips as told;

use hls_view_marks::{Area, Page, column_x, put_strip, tick_x};
use hls_view_picture_frame::column_of;
use hls_view_picture_rows::Strip;
use hls_view_pieces::Piece::{Number, Text};
use hls_view_pieces::put_pieces;
use std::alloc::{AllocError, Global};

fn strip_x(page: &Page, strip: &Strip) -> u128
    requires { page.now.left < 2 ^ 80 }
    ensures { result ≡ told.strip_x page.now strip.now }
{
    if page.scale.ticks == 1 {
        return tick_x(page, u64::from(strip.ticks.first.max(page.scale.from)));
    }
    column_x(page, u64::from(column_of(&page.scale, strip.ticks.first)))
}

fn strip_wide(page: &Page, strip: &Strip) -> u128
    requires { page.now.left < 2 ^ 80 }
    ensures { result ≡ told.strip_wide page.now strip.now }
{
    if page.scale.ticks == 1 {
        let until = tick_x(page, u64::from(strip.ticks.last.min(page.scale.to)) + 1);
        return until.saturating_sub(strip_x(page, strip));
    }
    u128::from(page.scale.wide)
}

#[tactic(auto, unfolding(crate::specs::Strips::strip_title))]
fn strip_title(alloc: Global, strip: &Strip) -> Result<Vec<u8>, AllocError>
    ensures { IfOk result (λ title. title.items ≡ told.strip_title strip.now) }
{
    let mut title = Vec::new(alloc);
    put_pieces(
        &mut title,
        &[
            Number(u128::from(strip.ticks.first)),
            Text(b".."),
            Number(u128::from(strip.ticks.last)),
            Text(&strip.text),
        ],
    )?;
    Ok(title)
}

#[tactic(auto, unfolding(crate::specs::Strips::strip_of))]
fn put_strip_of(
    alloc: Global,
    out: &mut Vec<u8>,
    page: &Page,
    bottom: u128,
    strip: &Strip,
) -> Result<(), AllocError>
    requires { page.now.left < 2 ^ 80 }
    ensures { OnOk result (out.new.items ≡ out.old.items ++ told.strip_of page.now bottom strip.now) }
{
    let title = strip_title(alloc, strip)?;
    let area = Area {
        x: strip_x(page, strip),
        y: 128,
        wide: strip_wide(page, strip),
        high: bottom.saturating_sub(128),
    };
    put_strip(out, area, &title)
}

/// Appends what ran.
#[tactic(auto, unfolding(crate::specs::Strips::strips_text))]
pub(crate) fn put_strips(
    alloc: Global,
    out: &mut Vec<u8>,
    page: &Page,
    bottom: u128,
    strips: &[Strip],
) -> Result<(), AllocError>
    requires { page.now.left < 2 ^ 80 }
    ensures { OnOk result (out.new.items ≡ out.old.items ++ told.strips_text page.now bottom strips.now) }
{
    for strip in strips {
        put_strip_of(alloc, out, page, bottom, strip)?;
    }
    Ok(())
}
