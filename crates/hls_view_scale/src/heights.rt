// How high bars are.
ghost use Rattle.std.specs.Prelude.{◌≡◌, ◌≤◌, ◌<◌, IfOk, length};
ghost use Rattle.hls_view_scale.specs.Heights.{height, heights};

use crate::scale::Scale;
use std::alloc::{AllocError, Global};

/// How high the bar of a fact is that holds at some of a column's ticks: nothing for none of them, full for all, and
/// something for any.
pub fn height(some: u32, all: u64, full: u32) -> u64
    requires { 0 < all }
    ensures { result ≡ height some all full }
{
    if some == 0 {
        return 0;
    }
    (u64::from(some) * u64::from(full) / all).max(1)
}

/// How high the bars are above the columns, from the first.
pub fn heights(
    alloc: Global,
    scale: &Scale,
    counts: &[u32],
    full: u32,
) -> Result<Vec<u64>, AllocError>
    requires { length counts.now ≤ scale.now.columns }
    ensures { IfOk result (λ high. high.items ≡ heights scale.now full counts.now) }
{
    let mut high = Vec::new(alloc);
    for (at, count) in counts.iter().enumerate() {
        high.push(height(*count, scale.ticks_in(at as u64), full))?;
    }
    Ok(high)
}
