// The first tick at which a guarantee is not kept, or its cap is not.
ghost use Rattle.hls_chron.specs.Ranges.{longest_horizon};
ghost use Rattle.std.specs.Prelude.{◌≡◌, ◌≤◌, [], IfOk, length};
ghost use Rattle.hls_guarantee.specs.Limits.{IsValid};
ghost use Rattle.hls_audit_watch.specs.First.{FirstAt};
ghost use Rattle.hls_audit_watch.specs.Shortages.{IsShort, IsOver};

use crate::kept::KeptWatch;
use crate::over::{find_over_blocks, find_over_windows};
use hls_guarantee::Guarantee;
use std::alloc::{AllocError, Global};

/// The first tick of a list in which a thread is ready, and the longest window that ends with it does not have what
/// is guaranteed. `ready` tells in which ticks it is ready, `served` in which it is served.
///
/// # Errors
/// Returns `AllocError` where there is no memory for the watch.
pub fn first_short(
    alloc: Global,
    kept: &Guarantee,
    ready: &[bool],
    served: &[bool],
) -> Result<Option<usize>, AllocError>
    requires valid { IsValid kept.now }
    requires same { length ready.now ≡ length served.now }
    requires few { length served.now ≤ longest_horizon }
    ensures { IfOk result (FirstAt (IsShort kept.now ready.now served.now)) }
{
    let mut watch = KeptWatch::new(alloc, kept, served.len() as u32)?;
    Ok(find_short(&mut watch, ready, served))
}

/// The first tick that is short, with a watch to which nothing is told yet.
fn find_short(watch: &mut KeptWatch, ready: &[bool], served: &[bool]) -> Option<usize>
    requires none { watch.old.list ≡ [] }
    requires room { watch.old.ticks ≡ length served.now }
    requires same { length ready.now ≡ length served.now }
    ensures { FirstAt (IsShort watch.old.guarantee ready.now served.now) result }
{
    for at in 0..served.len() {
        if !ready[at] {
            watch.restart();
            continue;
        }
        watch.push(served[at]);
        if !watch.kept() {
            return Some(at);
        }
    }
    None
}

/// The first tick of a list in which a thread is served, and the ticks up to it exceed the cap of a guarantee. Takes
/// no memory.
///
/// # Errors
/// Returns none.
pub fn first_over(
    alloc: Global,
    kept: &Guarantee,
    served: &[bool],
) -> Result<Option<usize>, AllocError>
    requires valid { IsValid kept.now }
    requires few { length served.now ≤ longest_horizon }
    ensures { IfOk result (FirstAt (IsOver kept.now served.now)) }
{
    Ok(find_over(kept, served))
}

/// The first tick that is over.
fn find_over(kept: &Guarantee, served: &[bool]) -> Option<usize>
    requires valid { IsValid kept.now }
    ensures { FirstAt (IsOver kept.now served.now) result }
{
    match *kept {
        Guarantee::Resb { hard: true, x, y } => find_over_blocks(x, y, served),
        Guarantee::Resc { hard: true, x, y } => find_over_windows(x, y, served),
        _ => None,
    }
}
