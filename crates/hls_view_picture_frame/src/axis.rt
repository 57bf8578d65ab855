// The axis: the ticks above and below the rows, and the heads of the columns at the left.
ghost use Rattle.std.specs.Prelude.{◌≡◌, ◌<◌, ◌≤◌, ◌^◌, ◌++◌, IfOk, OnOk, decimal, flat_map};
ghost use Rattle.hls_view_picture_frame.specs.Axis as told;

use hls_view_marks::{Page, Spot, put_path, put_text, tick_x};
use hls_view_picture_rows::{Heading, head_of, number_text};
use hls_view_pieces::Piece::{Number, Text};
use hls_view_pieces::put_pieces;
use hls_view_scale::{Scale, nice};
use itoa::Buffer;
use std::alloc::{AllocError, Global};

/// How far apart labels are at least.
const APART: u64 = 50;

fn label_step(scale: &Scale) -> u64
    ensures { result ≡ told.label_step scale.now }
{
    nice((APART * scale.ticks + scale.wide - 1) / scale.wide)
}

fn begins_with_two(text: &[u8]) -> bool
    ensures { result ≡ told.begins_with_two text.now }
{
    match text {
        [] => false,
        [first, ..] => *first == b'2',
    }
}

fn small_part(step: u64) -> u64
    ensures { result ≡ told.small_part step }
{
    let mut buffer = Buffer::new();
    if begins_with_two(buffer.format(step).as_bytes()) {
        step / 2
    } else {
        step / 5
    }
}

fn is_multiple(tick: u64, step: u64) -> bool
    ensures { result ≡ told.is_multiple step tick }
{
    step != 0 && tick % step == 0
}

fn is_small(tick: u64, small: u64, step: u64) -> bool
    ensures { result ≡ told.is_small small step tick }
{
    is_multiple(tick, small) && !is_multiple(tick, step)
}

fn labels(alloc: Global, scale: &Scale) -> Result<Vec<u64>, AllocError>
    ensures { IfOk result (λ ticks. ticks.items ≡ told.labels scale.now) }
{
    let step = label_step(scale);
    let end = u64::from(scale.to) + 2;
    (u64::from(scale.from)..end)
        .filter(|tick| is_multiple(*tick, step))
        .collect(alloc)
}

fn small_marks(alloc: Global, scale: &Scale) -> Result<Vec<u64>, AllocError>
    ensures { IfOk result (λ ticks. ticks.items ≡ told.small_marks scale.now) }
{
    let step = label_step(scale);
    let small = small_part(step);
    let end = u64::from(scale.to) + 2;
    (u64::from(scale.from)..end)
        .filter(|tick| is_small(*tick, small, step))
        .collect(alloc)
}

#[tactic(auto, unfolding(crate::specs::Axis::label_mark))]
fn put_label_mark(way: &mut Vec<u8>, page: &Page, bottom: u128, tick: u64) -> Result<(), AllocError>
    requires left { page.now.left < 2 ^ 80 }
    requires bottom { bottom < 2 ^ 80 }
    ensures { OnOk result (way.new.items ≡ way.old.items ++ told.label_mark page.now bottom tick) }
{
    put_pieces(
        way,
        &[
            Text(b"M"),
            Number(tick_x(page, tick)),
            Text(b" 104V"),
            Number(bottom + 4),
        ],
    )
}

#[tactic(auto, unfolding(crate::specs::Axis::small_mark))]
fn put_small_mark(way: &mut Vec<u8>, page: &Page, bottom: u128, tick: u64) -> Result<(), AllocError>
    requires { page.now.left < 2 ^ 80 }
    ensures { OnOk result (way.new.items ≡ way.old.items ++ told.small_mark page.now bottom tick) }
{
    put_pieces(
        way,
        &[
            Text(b"M"),
            Number(tick_x(page, tick)),
            Text(b" 104v4M"),
            Number(tick_x(page, tick)),
            Text(b" "),
            Number(bottom),
            Text(b"v4"),
        ],
    )
}

fn put_label_marks(
    way: &mut Vec<u8>,
    page: &Page,
    bottom: u128,
    ticks: &[u64],
) -> Result<(), AllocError>
    requires left { page.now.left < 2 ^ 80 }
    requires bottom { bottom < 2 ^ 80 }
    ensures { OnOk result (way.new.items
        ≡ way.old.items ++ flat_map (told.label_mark page.now bottom) ticks.now) }
{
    for tick in ticks {
        put_label_mark(way, page, bottom, *tick)?;
    }
    Ok(())
}

fn put_small_marks(
    way: &mut Vec<u8>,
    page: &Page,
    bottom: u128,
    ticks: &[u64],
) -> Result<(), AllocError>
    requires { page.now.left < 2 ^ 80 }
    ensures { OnOk result (way.new.items
        ≡ way.old.items ++ flat_map (told.small_mark page.now bottom) ticks.now) }
{
    for tick in ticks {
        put_small_mark(way, page, bottom, *tick)?;
    }
    Ok(())
}

#[tactic(auto, unfolding(crate::specs::Axis::grid_text))]
fn put_grid(alloc: Global, out: &mut Vec<u8>, page: &Page, bottom: u128) -> Result<(), AllocError>
    requires left { page.now.left < 2 ^ 80 }
    requires bottom { bottom < 2 ^ 80 }
    ensures { OnOk result (out.new.items ≡ out.old.items ++ told.grid_text page.now bottom) }
{
    let mut way = Vec::new(alloc);
    let ticks = labels(alloc, &page.scale)?;
    put_label_marks(&mut way, page, bottom, &ticks)?;
    let small = small_marks(alloc, &page.scale)?;
    put_small_marks(&mut way, page, bottom, &small)?;
    put_path(out, b"g", &way)
}

#[tactic(auto, unfolding(crate::specs::Axis::label_text))]
fn put_label(
    alloc: Global,
    out: &mut Vec<u8>,
    page: &Page,
    bottom: u128,
    tick: u64,
) -> Result<(), AllocError>
    requires left { page.now.left < 2 ^ 80 }
    requires bottom { bottom < 2 ^ 80 }
    ensures { OnOk result (out.new.items ≡ out.old.items ++ told.label_text page.now bottom tick) }
{
    let text = number_text(alloc, u128::from(tick))?;
    let x = tick_x(page, tick);
    put_text(out, b"m c", Spot { x, y: 100 }, &text)?;
    put_text(out, b"m c", Spot { x, y: bottom + 17 }, &text)
}

fn put_each_label(
    alloc: Global,
    out: &mut Vec<u8>,
    page: &Page,
    bottom: u128,
    ticks: &[u64],
) -> Result<(), AllocError>
    requires left { page.now.left < 2 ^ 80 }
    requires bottom { bottom < 2 ^ 80 }
    ensures { OnOk result (out.new.items ≡ out.old.items ++ flat_map (told.label_text page.now bottom) ticks.now) }
{
    for tick in ticks {
        put_label(alloc, out, page, bottom, *tick)?;
    }
    Ok(())
}

#[tactic(auto, unfolding(crate::specs::Axis::labels_text))]
fn put_labels(alloc: Global, out: &mut Vec<u8>, page: &Page, bottom: u128) -> Result<(), AllocError>
    requires left { page.now.left < 2 ^ 80 }
    requires bottom { bottom < 2 ^ 80 }
    ensures { OnOk result (out.new.items ≡ out.old.items ++ told.labels_text page.now bottom) }
{
    let ticks = labels(alloc, &page.scale)?;
    put_each_label(alloc, out, page, bottom, &ticks)
}

#[tactic(auto, unfolding(crate::specs::Axis::left_heads))]
fn put_left_heads(out: &mut Vec<u8>, page: &Page) -> Result<(), AllocError>
    ensures { OnOk result (out.new.items ≡ out.old.items ++ told.left_heads page.now) }
{
    put_text(out, b"m", Spot { x: 10, y: 100 }, b"name")?;
    put_text(
        out,
        b"m",
        Spot {
            x: page.seat,
            y: 100,
        },
        head_of(Heading::Seat),
    )?;
    put_text(
        out,
        b"m",
        Spot {
            x: page.guarantee,
            y: 100,
        },
        head_of(Heading::Guarantee),
    )
}

#[tactic(auto, unfolding(crate::specs::Axis::number_heads))]
fn put_number_heads(out: &mut Vec<u8>, page: &Page) -> Result<(), AllocError>
    ensures { OnOk result (out.new.items ≡ out.old.items ++ told.number_heads page.now) }
{
    put_text(
        out,
        b"m e",
        Spot {
            x: page.served,
            y: 100,
        },
        head_of(Heading::Served),
    )?;
    put_text(
        out,
        b"m e",
        Spot {
            x: page.ready,
            y: 100,
        },
        head_of(Heading::Ready),
    )?;
    put_text(
        out,
        b"m e",
        Spot {
            x: page.spare,
            y: 100,
        },
        head_of(Heading::Spare),
    )
}

/// Appends the axis.
///
/// # Errors
/// Returns `AllocError` for want of memory.
#[tactic(auto, unfolding(crate::specs::Axis::axis_text))]
pub fn put_axis(
    alloc: Global,
    out: &mut Vec<u8>,
    page: &Page,
    bottom: u128,
) -> Result<(), AllocError>
    requires left { page.now.left < 2 ^ 80 }
    requires bottom { bottom < 2 ^ 80 }
    ensures { OnOk result (out.new.items ≡ out.old.items ++ told.axis_text page.now bottom) }
{
    put_grid(alloc, out, page, bottom)?;
    put_labels(alloc, out, page, bottom)?;
    put_left_heads(out, page)?;
    put_number_heads(out, page)
}
