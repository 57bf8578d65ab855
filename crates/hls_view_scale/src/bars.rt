// Bars above columns.
ghost use Rattle.std.specs.Prelude.{◌≡◌, ◌≤◌, ◌+◌, ◌==◌, ◌&&◌, IfOk, OnOk, map, take};
ghost use Rattle.hls_view_scale.specs.Heights.{heights};
ghost use Rattle.hls_view_scale.specs.Bars.{touches, one_wide, with_column, bars_above, bars_of};
ghost use Rattle.hls_view_scale.specs.Bars.{if_any, grounds_of};

use crate::heights::heights;
use crate::scale::Scale;
use std::alloc::{AllocError, Global};

/// A bar above neighbouring columns of one height.
#[derive(Clone, Copy, Debug, PartialEq, Eq)]
pub struct Bar {
    /// The first column.
    pub first: u64,
    /// The last column.
    pub last: u64,
    /// How high it is.
    pub high: u64,
}

/// Whether a bar goes on in a column of a height.
fn touches(bar: &Bar, at: u64, high: u64) -> bool
    ensures { result ≡ touches bar.now at high }
{
    u128::from(bar.last) + 1 == u128::from(at) && bar.high == high
}

fn one_wide(at: u64, high: u64) -> Bar
    ensures { result ≡ one_wide at high }
{
    Bar {
        first: at,
        last: at,
        high,
    }
}

/// Sets a bar above a column, which lies behind all that have one.
#[tactic(auto, using(crate::proofs::Behind::with_high_behind))]
fn add_column(bars: &mut Vec<Bar>, at: u64, high: u64) -> Result<(), AllocError>
    ensures { OnOk result (bars.new.items ≡ with_column bars.old.items at high) }
{
    if high == 0 {
        return Ok(());
    }
    let Some(bar) = bars.pop() else {
        bars.push(one_wide(at, high))?;
        return Ok(());
    };
    if touches(&bar, at, high) {
        bars.push(Bar {
            first: bar.first,
            last: at,
            high,
        })?;
        return Ok(());
    }
    bars.push(bar)?;
    bars.push(one_wide(at, high))?;
    Ok(())
}

fn bars_above(alloc: Global, heights: &[u64]) -> Result<Vec<Bar>, AllocError>
    ensures { IfOk result (λ bars. bars.items ≡ bars_above heights.now) }
{
    let mut bars = Vec::new(alloc);
    for (at, high) in heights.iter().enumerate() {
        add_column(&mut bars, at as u64, *high)?;
    }
    Ok(bars)
}

/// The bars above columns, from the left, of which each is as high as the part of the column's ticks. A column is
/// counted from 0, and of counts beyond the last one nothing is shown.
///
/// # Errors
/// Returns `AllocError` for want of memory.
pub fn bars_of(
    alloc: Global,
    scale: &Scale,
    counts: &[u32],
    full: u32,
) -> Result<Vec<Bar>, AllocError>
    ensures { IfOk result (λ bars. bars.items ≡ bars_of scale.now full counts.now) }
{
    let shown = counts.len().min(scale.columns as usize);
    bars_above(alloc, &heights(alloc, scale, &counts[..shown], full)?)
}

fn if_any(high: u64, count: u32) -> u64
    ensures { result ≡ if_any high count }
{
    if count == 0 { 0 } else { high }
}

fn even_heights(alloc: Global, counts: &[u32], high: u64) -> Result<Vec<u64>, AllocError>
    ensures { IfOk result (λ heights. heights.items ≡ map (if_any high) counts.now) }
{
    let mut heights = Vec::new(alloc);
    for count in counts {
        heights.push(if_any(high, *count))?;
    }
    Ok(heights)
}

/// The bars of one height above the columns that have a count, from the left. Of counts beyond the last column
/// nothing is shown.
///
/// # Errors
/// Returns `AllocError` for want of memory.
pub fn grounds_of(
    alloc: Global,
    scale: &Scale,
    counts: &[u32],
    high: u64,
) -> Result<Vec<Bar>, AllocError>
    ensures { IfOk result (λ bars. bars.items ≡ grounds_of scale.now high counts.now) }
{
    let shown = counts.len().min(scale.columns as usize);
    bars_above(alloc, &even_heights(alloc, &counts[..shown], high)?)
}
