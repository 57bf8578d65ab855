// The columns that have a tick in which something happens.
ghost use Rattle.hls_chron.specs.Ranges.{longest_horizon};
ghost use Rattle.std.specs.Prelude.{◌≡◌, ◌≤◌, ◌<◌, ◌+◌, ◌==◌, ◌||◌, ℕ, IfOk, OnOk, filter};
ghost use Rattle.std.specs.List.{range_with_len};
ghost use Rattle.hls_view_signs.specs.Inside.Found.{column_of, is_found};

use hls_view_scale::Scale;
use std::alloc::{AllocError, Global};

/// The column of a tick, from 0.
pub(crate) fn column_of(scale: &Scale, tick: u32) -> u32
    ensures { result ≡ column_of scale.now tick }
{
    let ticks = u64::from(tick.saturating_sub(scale.from));
    (ticks / scale.ticks) as u32
}

/// How many columns there are.
fn column_count(scale: &Scale) -> u32
    requires { scale.now.to < longest_horizon }
    ensures { result ≡ scale.now.columns }
{
    column_of(scale, scale.to) + 1
}

/// Puts a column behind others, unless it is the last of them.
pub(crate) fn put_column(found: &mut Vec<u32>, column: u32) -> Result<(), AllocError>
    ensures { OnOk result ((k : ℕ) → is_found found.new.items k ≡ (is_found found.old.items k || (column == k))) }
{
    if let Some(last) = found.last().copied() {
        if last == column {
            return Ok(());
        }
    }
    found.push(column)?;
    Ok(())
}

fn is_found(found: &[u32], column: u32) -> bool
    ensures { result ≡ is_found found.now column }
{
    found.iter().any(|other| *other == column)
}

/// Of all columns those that were found, from the left.
///
/// # Errors
/// Returns `AllocError` for want of memory.
pub(crate) fn in_order(alloc: Global, scale: &Scale, found: &[u32]) -> Result<Vec<u32>, AllocError>
    requires { scale.now.to < longest_horizon }
    ensures { IfOk result (λ columns. columns.items
        ≡ filter (is_found found.now) (range_with_len 0 scale.now.columns)) }
{
    let mut columns = Vec::new(alloc);
    for column in 0..column_count(scale) {
        if is_found(found, column) {
            columns.push(column)?;
        }
    }
    Ok(columns)
}
