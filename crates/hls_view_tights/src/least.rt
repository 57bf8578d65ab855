// The first with the least surplus.
ghost use Rattle.std.specs.Prelude.{◌++◌, ◌∷◌, [], List};
ghost use Rattle.hls_view_tights.specs.declared.tights.Tight as tights;
ghost use Rattle.hls_view_tights.specs.Surpluses.{IsFirstLeast, IsLeastOf};
ghost use Rattle.hls_view_tights.specs.Inside.Sightings.{seen_in};

use crate::sightings::Sighting;
use crate::surpluses::is_no_more;
use crate::tights::Tight;
use hls_view_tale::Label;

/// The one with the lesser surplus of the least so far, if there is one, and the next.
fn tighter(least: Option<Tight>, next: Tight) -> Tight
    ensures { (all : List tights.Tight) → IsLeastOf all least → IsFirstLeast (all ++ next ∷ []) result }
{
    match least {
        Some(least) => {
            if is_no_more(&least.surplus, &next.surplus) {
                least
            } else {
                next
            }
        }
        None => next,
    }
}

/// The first with the least surplus of the stays that have a row.
pub(crate) fn tightest(sightings: &[Sighting], row: &[Label]) -> Option<Tight>
    ensures { IsLeastOf (seen_in row.now sightings.now) result }
{
    let mut least = None;
    for sighting in sightings {
        if sighting.has(row) {
            least = Some(tighter(least, sighting.tight));
        }
    }
    least
}
