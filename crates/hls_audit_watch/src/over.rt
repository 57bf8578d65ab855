// The first tick at which the service of a whole list is more than a cap. The list itself is the ring.
ghost use Rattle.std.specs.Prelude.{◌≡◌, ◌+◌, ◌<◌, ◌≤◌, Bool, true, length};
ghost use Rattle.hls_guarantee.specs.declared.Guarantee.TheVariants.{Resb, Resc};
ghost use Rattle.hls_guarantee.specs.Limits.{IsReservation};
ghost use Rattle.hls_guarantee.specs.Service.{schedule_of, service_before};
ghost use Rattle.hls_audit_watch.specs.First.{FirstAt};
ghost use Rattle.hls_audit_watch.specs.Shortages.{IsOver};

use crate::capping::{Excess, most_excess};
use crate::recent::service;
use hls_chron::parts;

/// The first tick that is over, by hard blocks.
pub(crate) fn find_over_blocks(x: u32, y: u32, served: &[bool]) -> Option<usize>
    requires range { IsReservation x y }
    ensures { FirstAt (IsOver (Resb true x y) served.now) result }
{
    let most = most_excess(x);
    let rate = parts(x, y);
    let mut excess = Excess { rate, had: 0 };
    for at in 0..served.len() {
        if !excess.stays_within(most, served[at]) {
            return Some(at);
        }
    }
    None
}

/// The service of the last `y` ticks, one tick further.
fn slide(y: u32, served: &[bool], at: usize, got: u32) -> u32
    requires there { at < length served.now }
    requires got { got ≡ service_before (schedule_of served.now) y at }
    requires few { y ≤ 20000 }
    ensures { result ≡ service_before (schedule_of served.now) y (at + 1) }
{
    let now = service(served[at]);
    let ticks = y as usize;
    if at < ticks {
        return got + now;
    }
    let left = service(served[at - ticks]);
    got + now - left
}

/// The first tick that is over, by hard windows.
pub(crate) fn find_over_windows(x: u32, y: u32, served: &[bool]) -> Option<usize>
    requires range { IsReservation x y }
    ensures { FirstAt (IsOver (Resc true x y) served.now) result }
{
    let mut got = 0;
    for at in 0..served.len() {
        got = slide(y, served, at, got);
        if x < got {
            return Some(at);
        }
    }
    None
}
