// All that is lent to a seat.
ghost use Rattle.std.specs.Prelude.{◌≡◌, ◌++◌, ◌↔◌, Contains, IfOk, IsTrue, option_to_list};
ghost use Rattle.hls_offer_best.specs.Best.{CanAsk};
ghost use Rattle.hls_offer_lines.specs.Inside.Listing.{AreLent};

use hls_guarantee::Guarantee;
use hls_offer_best::Seat;
use hls_offer_laws::lent_of;
use std::alloc::{AllocError, Global};

/// What is lent to the seat through its ports, where it is more than nothing, in their order.
pub fn all_lent(alloc: Global, seat: &Seat<'_>) -> Result<Vec<Guarantee>, AllocError>
    requires { CanAsk seat.now }
    ensures { IfOk result (λ all. AreLent seat.now all.items) }
{
    let mut all = Vec::new(alloc);
    for have in seat.haves {
        push_some(&mut all, lent_of(&seat.place, have))?;
    }
    Ok(all)
}

/// Puts a guarantee behind the others, if there is one.
pub fn push_some(all: &mut Vec<Guarantee>, more: Option<Guarantee>) -> Result<(), AllocError>
    ensures { IfOk result (λ _. all.new.items ≡ all.old.items ++ option_to_list more) }
{
    if let Some(more) = more {
        all.push(more)?;
    }
    Ok(())
}

/// Whether a guarantee stands in a list.
pub fn lists(all: &[Guarantee], g: &Guarantee) -> bool
    ensures { IsTrue result ↔ Contains all.now g.now }
{
    for other in all {
        if is_same(other, g) {
            return true;
        }
    }
    false
}

fn is_same(g: &Guarantee, other: &Guarantee) -> bool
    ensures { IsTrue result ↔ (g.now ≡ other.now) }
{
    *g == *other
}
