// The order of surpluses.
ghost use Rattle.std.specs.Prelude.{◌↔◌, IsTrue};
ghost use Rattle.hls_view_tights.specs.Surpluses.{IsNoMore};

use crate::fractions::is_fraction_at_most;
use hls_view_margins::Distance;

/// Whether a surplus is at most another.
pub(crate) fn is_no_more(one: &Distance, other: &Distance) -> bool
    ensures { IsTrue result ↔ IsNoMore one.now other.now }
{
    match (one, other) {
        (Distance::Above(f), Distance::Above(g)) => is_fraction_at_most(f, g),
        (Distance::Above(f), Distance::Below(g)) => f.num == 0 && g.num == 0,
        (Distance::Below(_), Distance::Above(_)) => true,
        (Distance::Below(f), Distance::Below(g)) => is_fraction_at_most(g, f),
    }
}
