// The part that has the least surplus, and of those the one that comes first.
ghost use Rattle.std.specs.Prelude.{◌≡◌, ◌↔◌, IsTrue};
ghost use Rattle.hls_view_margins.specs.First.{IsLess};
ghost use Rattle.hls_view_margins.specs.Inside.Sooner.{IsSoonerOf};

use crate::margin::Part;
use crate::scale::Scale;

/// Whether a part has less surplus than another.
pub(crate) fn is_less(scale: &Scale, one: &Part, other: &Part) -> bool
    ensures { IsTrue result ↔ IsLess scale.now one.now other.now }
{
    scale.has.at(one.ticks, one.got) + scale.wants.at(other.ticks, other.got)
        < scale.has.at(other.ticks, other.got) + scale.wants.at(one.ticks, one.got)
}

/// Of a first part and another, which ends later, the one that has less surplus, or else the first.
pub(crate) fn sooner(scale: &Scale, first: Option<Part>, later: Option<Part>) -> Option<Part>
    ensures { IsSoonerOf scale.now first later result }
{
    match (first, later) {
        (None, _) => later,
        (Some(_), None) => first,
        (Some(a), Some(b)) => {
            if is_less(scale, &b, &a) {
                Some(b)
            } else {
                Some(a)
            }
        }
    }
}
