// Bars and marks in rows.
ghost use Rattle.std.specs.Prelude.{◌≡◌, ◌<◌, ◌^◌, ◌++◌, OnOk, flat_map};
ghost use Rattle.hls_view_marks.specs.Marks.{bar_text, bars_text, grounds_text, shape_text, marks_text};

use crate::elements::put_path;
use crate::page::Page;
use crate::places::column_x;
use hls_view_pieces::Piece::{Number, Text};
use hls_view_pieces::put_pieces;
use hls_view_scale::{Bar, bars_of, grounds_of};
use std::alloc::{AllocError, Global};

/// Bars of a class, which stand on a line.
#[derive(Clone, Copy)]
pub struct Bars<'a> {
    pub class: &'a [u8],
    pub counts: &'a [u32],
    /// How high a full bar is.
    pub full: u32,
    /// How far down the line is.
    pub base: u128,
}

/// One mark in each of some columns: its shape, and where it begins to the left of the column and from the top.
#[derive(Clone, Copy)]
pub struct Shapes<'a> {
    pub class: &'a [u8],
    pub columns: &'a [u32],
    pub back: u128,
    pub down: u128,
    pub shape: &'a [u8],
}

#[tactic(auto, unfolding(crate::specs::Marks::bar_text))]
fn put_bar(way: &mut Vec<u8>, page: &Page, base: u128, bar: &Bar) -> Result<(), AllocError>
    requires { page.now.left < 2 ^ 80 }
    ensures { OnOk result (way.new.items ≡ way.old.items ++ bar_text page.now base bar.now) }
{
    let columns = (u128::from(bar.last) + 1).saturating_sub(u128::from(bar.first));
    put_pieces(
        way,
        &[
            Text(b"M"),
            Number(column_x(page, bar.first)),
            Text(b" "),
            Number(base),
            Text(b"v-"),
            Number(u128::from(bar.high)),
            Text(b"h"),
            Number(columns * u128::from(page.scale.wide)),
            Text(b"v"),
            Number(u128::from(bar.high)),
            Text(b"z"),
        ],
    )
}

fn put_each_bar(way: &mut Vec<u8>, page: &Page, base: u128, bars: &[Bar]) -> Result<(), AllocError>
    requires { page.now.left < 2 ^ 80 }
    ensures { OnOk result (way.new.items ≡ way.old.items ++ flat_map (bar_text page.now base) bars.now) }
{
    for bar in bars {
        put_bar(way, page, base, bar)?;
    }
    Ok(())
}

/// Appends bars, as high as their parts of the columns.
#[tactic(auto, unfolding(crate::specs::Marks::bars_text))]
pub fn put_bars(
    alloc: Global,
    out: &mut Vec<u8>,
    page: &Page,
    bars: &Bars,
) -> Result<(), AllocError>
    requires { page.now.left < 2 ^ 80 }
    ensures { OnOk result (out.new.items ≡ out.old.items
        ++ bars_text page.now bars.now.class.now bars.now.counts.now bars.now.full bars.now.base) }
{
    let mut way = Vec::new(alloc);
    let found = bars_of(alloc, &page.scale, bars.counts, bars.full)?;
    put_each_bar(&mut way, page, bars.base, &found)?;
    put_path(out, bars.class, &way)
}

/// Appends bars of one height above the columns that have a count.
#[tactic(auto, unfolding(crate::specs::Marks::grounds_text))]
pub fn put_grounds(
    alloc: Global,
    out: &mut Vec<u8>,
    page: &Page,
    bars: &Bars,
) -> Result<(), AllocError>
    requires { page.now.left < 2 ^ 80 }
    ensures { OnOk result (out.new.items ≡ out.old.items
        ++ grounds_text page.now bars.now.class.now bars.now.counts.now bars.now.full bars.now.base) }
{
    let mut way = Vec::new(alloc);
    let found = grounds_of(alloc, &page.scale, bars.counts, u64::from(bars.full))?;
    put_each_bar(&mut way, page, bars.base, &found)?;
    put_path(out, bars.class, &way)
}

#[tactic(auto, unfolding(crate::specs::Marks::shape_text))]
fn put_shape(way: &mut Vec<u8>, page: &Page, shapes: &Shapes, column: u32) -> Result<(), AllocError>
    requires { page.now.left < 2 ^ 80 }
    ensures { OnOk result (way.new.items ≡ way.old.items
        ++ shape_text page.now shapes.now.back shapes.now.down shapes.now.shape.now column) }
{
    let x = column_x(page, u64::from(column));
    put_pieces(
        way,
        &[
            Text(b"M"),
            Number(x.saturating_sub(shapes.back)),
            Text(b" "),
            Number(shapes.down),
            Text(shapes.shape),
        ],
    )
}

fn put_each_shape(way: &mut Vec<u8>, page: &Page, shapes: &Shapes) -> Result<(), AllocError>
    requires { page.now.left < 2 ^ 80 }
    ensures { OnOk result (way.new.items ≡ way.old.items
        ++ flat_map (shape_text page.now shapes.now.back shapes.now.down shapes.now.shape.now)
        shapes.now.columns.now) }
{
    for column in shapes.columns {
        put_shape(way, page, shapes, *column)?;
    }
    Ok(())
}

/// Appends a mark in each of some columns.
#[tactic(auto, unfolding(crate::specs::Marks::marks_text))]
pub fn put_marks(
    alloc: Global,
    out: &mut Vec<u8>,
    page: &Page,
    shapes: &Shapes,
) -> Result<(), AllocError>
    requires { page.now.left < 2 ^ 80 }
    ensures { OnOk result (out.new.items ≡ out.old.items
        ++ marks_text page.now shapes.now.class.now shapes.now.columns.now shapes.now.back shapes.now.down
        shapes.now.shape.now) }
{
    let mut way = Vec::new(alloc);
    put_each_shape(&mut way, page, shapes)?;
    put_path(out, shapes.class, &way)
}
