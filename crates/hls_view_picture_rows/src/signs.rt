// The bars and marks of a row.
ghost use Rattle.std.specs.Prelude.{◌≡◌, ◌<◌, ◌^◌, ◌++◌, OnOk};
ghost use Rattle.hls_view_picture_rows.specs.RowTexts as told;

use crate::picture::{PictureRow, Stretch};
use crate::rows::{class_name, faint_name};
use crate::words::put_words;
use hls_view_marks::{Bars, Page, Shapes, put_bars, put_marks, row_top, tick_x};
use hls_view_pieces::Piece::{Number, Text};
use hls_view_pieces::put_pieces;
use std::alloc::{AllocError, Global};

fn full_of(is_leaf: bool) -> u32
    ensures { result ≡ told.full_of is_leaf }
{
    if is_leaf { 14 } else { 8 }
}

fn foot_of(is_leaf: bool) -> u128
    ensures is { result ≡ told.foot_of is_leaf }
    ensures within { result < 20 }
{
    if is_leaf { 17 } else { 14 }
}

#[tactic(auto, unfolding(crate::specs::RowTexts::row_bars))]
fn put_row_bars(
    alloc: Global,
    out: &mut Vec<u8>,
    page: &Page,
    top: u128,
    row: &PictureRow,
) -> Result<(), AllocError>
    requires left { page.now.left < 2 ^ 80 }
    requires top { top < 2 ^ 80 }
    ensures { OnOk result (out.new.items ≡ out.old.items ++ told.row_bars page.now top row.now) }
{
    let full = full_of(row.is_leaf);
    let base = top + foot_of(row.is_leaf);
    let ready = Bars {
        class: faint_name(row.class),
        counts: &row.ready,
        full,
        base,
    };
    put_bars(alloc, out, page, &ready)?;
    let served = Bars {
        class: class_name(row.class),
        counts: &row.served,
        full,
        base,
    };
    put_bars(alloc, out, page, &served)
}

fn is_roomy(page: &Page) -> bool
    ensures { result ≡ told.is_roomy page.now }
{
    5 <= page.scale.wide
}

#[tactic(auto, unfolding(crate::specs::RowTexts::wakes_text))]
fn put_wakes(
    alloc: Global,
    out: &mut Vec<u8>,
    page: &Page,
    top: u128,
    columns: &[u32],
) -> Result<(), AllocError>
    requires left { page.now.left < 2 ^ 80 }
    requires top { top < 2 ^ 80 }
    ensures { OnOk result (out.new.items ≡ out.old.items ++ told.wakes_text page.now top columns.now) }
{
    let down = top + 4;
    if is_roomy(page) {
        let wakes = Shapes {
            class: b"k",
            columns,
            back: 0,
            down,
            shape: b"l-3-4h6z",
        };
        return put_marks(alloc, out, page, &wakes);
    }
    let wakes = Shapes {
        class: b"k q",
        columns,
        back: 0,
        down,
        shape: b"v-3h1v3z",
    };
    put_marks(alloc, out, page, &wakes)
}

#[tactic(auto, unfolding(crate::specs::RowTexts::drops_text))]
fn put_drops(
    alloc: Global,
    out: &mut Vec<u8>,
    page: &Page,
    top: u128,
    columns: &[u32],
) -> Result<(), AllocError>
    requires left { page.now.left < 2 ^ 80 }
    requires top { top < 2 ^ 80 }
    ensures { OnOk result (out.new.items ≡ out.old.items ++ told.drops_text page.now top columns.now) }
{
    if is_roomy(page) {
        let drops = Shapes {
            class: b"o",
            columns,
            back: 3,
            down: top + 7,
            shape: b"l6 6m0-6l-6 6",
        };
        return put_marks(alloc, out, page, &drops);
    }
    let drops = Shapes {
        class: b"k",
        columns,
        back: 0,
        down: top + 15,
        shape: b"v-8h1v8z",
    };
    put_marks(alloc, out, page, &drops)
}

#[tactic(auto, unfolding(crate::specs::RowTexts::row_marks))]
fn put_row_marks(
    alloc: Global,
    out: &mut Vec<u8>,
    page: &Page,
    top: u128,
    row: &PictureRow,
) -> Result<(), AllocError>
    requires left { page.now.left < 2 ^ 80 }
    requires top { top < 2 ^ 80 }
    ensures { OnOk result (out.new.items ≡ out.old.items ++ told.row_marks page.now top row.now) }
{
    let begins = Shapes {
        class: b"l",
        columns: &row.begins,
        back: 0,
        down: top,
        shape: b"v20",
    };
    put_marks(alloc, out, page, &begins)?;
    put_wakes(alloc, out, page, top, &row.wakes)?;
    put_drops(alloc, out, page, top, &row.drops)
}

#[tactic(auto, unfolding(crate::specs::RowTexts::bracket_of))]
fn put_bracket_of(
    out: &mut Vec<u8>,
    page: &Page,
    top: u128,
    ticks: Stretch,
) -> Result<(), AllocError>
    requires left { page.now.left < 2 ^ 80 }
    requires top { top < 2 ^ 80 }
    ensures { OnOk result (out.new.items ≡ out.old.items ++ told.bracket_of page.now top ticks) }
{
    let from = tick_x(page, u64::from(ticks.first));
    let until = tick_x(page, u64::from(ticks.last) + 1);
    put_pieces(
        out,
        &[
            Text(b"<path class=\"t\" d=\"M"),
            Number(from),
            Text(b" "),
            Number(top + 17),
            Text(b"v2h"),
            Number(until.saturating_sub(from).max(1)),
            Text(b"v-2\"/>\n"),
        ],
    )
}

fn put_bracket(
    out: &mut Vec<u8>,
    page: &Page,
    top: u128,
    bracket: Option<Stretch>,
) -> Result<(), AllocError>
    requires left { page.now.left < 2 ^ 80 }
    requires top { top < 2 ^ 80 }
    ensures { OnOk result (out.new.items ≡ out.old.items ++ told.bracket_text page.now top bracket) }
{
    match bracket {
        None => Ok(()),
        Some(ticks) => put_bracket_of(out, page, top, ticks),
    }
}

#[tactic(auto, unfolding(crate::specs::RowTexts::signs_text))]
fn put_signs(
    alloc: Global,
    out: &mut Vec<u8>,
    page: &Page,
    top: u128,
    row: &PictureRow,
) -> Result<(), AllocError>
    requires left { page.now.left < 2 ^ 80 }
    requires top { top < 2 ^ 80 }
    ensures { OnOk result (out.new.items ≡ out.old.items ++ told.signs_text page.now top row.now) }
{
    put_row_bars(alloc, out, page, top, row)?;
    put_row_marks(alloc, out, page, top, row)?;
    put_bracket(out, page, top, row.bracket)
}

fn put_row(
    alloc: Global,
    out: &mut Vec<u8>,
    page: &Page,
    place: usize,
    row: &PictureRow,
) -> Result<(), AllocError>
    requires { page.now.left < 2 ^ 80 }
    ensures { OnOk result (out.new.items ≡ out.old.items ++ told.row_text page.now place row.now) }
{
    let top = row_top(place);
    put_words(alloc, out, page, top, row)?;
    put_signs(alloc, out, page, top, row)
}

/// Appends the rows, from the top.
///
/// # Errors
/// Returns `AllocError` for want of memory.
#[tactic(auto, unfolding(crate::specs::RowTexts::rows_text))]
pub fn put_rows(
    alloc: Global,
    out: &mut Vec<u8>,
    page: &Page,
    rows: &[PictureRow],
) -> Result<(), AllocError>
    requires { page.now.left < 2 ^ 80 }
    ensures { OnOk result (out.new.items ≡ out.old.items ++ told.rows_text page.now rows.now) }
{
    for (place, row) in rows.iter().enumerate() {
        put_row(alloc, out, page, place, row)?;
    }
    Ok(())
}
