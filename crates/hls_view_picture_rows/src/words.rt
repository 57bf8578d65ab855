// What is printed at the left of a row.
ghost use Rattle.std.specs.Prelude.{◌≡◌, ◌<◌, ◌^◌, ◌++◌, OnOk};
ghost use Rattle.hls_view_picture_rows.specs.RowTexts as told;

use crate::picture::PictureRow;
use crate::rows::{class_name, number_text, ready_text, total};
use hls_view_marks::{Area, Page, Spot, put_area_path, put_text};
use std::alloc::{AllocError, Global};

#[tactic(auto, unfolding(crate::specs::RowTexts::name_class))]
fn name_class(is_leaf: bool) -> &'static [u8]
    ensures { result.now ≡ told.name_class is_leaf }
{
    if is_leaf { b"" } else { b"b" }
}

fn name_x(row: &PictureRow) -> u128
    ensures is { result ≡ told.name_x row.now }
    ensures within { result < 2 ^ 40 }
{
    10 + 14 * u128::from(row.depth)
}

#[tactic(auto, unfolding(crate::specs::RowTexts::names_text))]
fn put_names(out: &mut Vec<u8>, page: &Page, top: u128, row: &PictureRow) -> Result<(), AllocError>
    requires { top < 2 ^ 80 }
    ensures { OnOk result (out.new.items ≡ out.old.items ++ told.names_text page.now top row.now) }
{
    let x = name_x(row);
    let y = top + 14;
    put_text(out, name_class(row.is_leaf), Spot { x, y }, &row.name)?;
    let behind = x + 7 * (row.name.len() as u128 + 1);
    put_text(out, b"m", Spot { x: behind, y }, &row.config)?;
    put_text(out, b"m", Spot { x: page.seat, y }, &row.terms)
}

fn put_stroke(out: &mut Vec<u8>, page: &Page, top: u128, row: &PictureRow) -> Result<(), AllocError>
    requires { top < 2 ^ 80 }
    ensures { OnOk result (out.new.items ≡ out.old.items ++ told.stroke_text page.now top row.now) }
{
    if row.guarantee.is_empty() {
        return Ok(());
    }
    put_area_path(
        out,
        class_name(row.class),
        Area {
            x: page.guarantee.saturating_sub(6),
            y: top + 4,
            wide: 3,
            high: 12,
        },
    )
}

#[tactic(auto, unfolding(crate::specs::RowTexts::promise_text))]
fn put_promise(
    out: &mut Vec<u8>,
    page: &Page,
    top: u128,
    row: &PictureRow,
) -> Result<(), AllocError>
    requires { top < 2 ^ 80 }
    ensures { OnOk result (out.new.items ≡ out.old.items ++ told.promise_text page.now top row.now) }
{
    put_stroke(out, page, top, row)?;
    let spot = Spot {
        x: page.guarantee,
        y: top + 14,
    };
    put_text(out, b"", spot, &row.guarantee)
}

#[tactic(auto, unfolding(crate::specs::RowTexts::numbers_text))]
fn put_numbers(
    alloc: Global,
    out: &mut Vec<u8>,
    page: &Page,
    top: u128,
    row: &PictureRow,
) -> Result<(), AllocError>
    requires { top < 2 ^ 80 }
    ensures { OnOk result (out.new.items ≡ out.old.items ++ told.numbers_text page.now top row.now) }
{
    let y = top + 14;
    let served = number_text(alloc, total(&row.served))?;
    put_text(out, b"e", Spot { x: page.served, y }, &served)?;
    let ready = ready_text(alloc, row)?;
    put_text(out, b"e", Spot { x: page.ready, y }, &ready)?;
    put_text(out, b"b e", Spot { x: page.spare, y }, &row.spare)
}

/// Appends what is printed at the left of a row with this top.
#[tactic(auto, unfolding(crate::specs::RowTexts::words_text))]
pub(crate) fn put_words(
    alloc: Global,
    out: &mut Vec<u8>,
    page: &Page,
    top: u128,
    row: &PictureRow,
) -> Result<(), AllocError>
    requires { top < 2 ^ 80 }
    ensures { OnOk result (out.new.items ≡ out.old.items ++ told.words_text page.now top row.now) }
{
    put_names(out, page, top, row)?;
    put_promise(out, page, top, row)?;
    put_numbers(alloc, out, page, top, row)
}
