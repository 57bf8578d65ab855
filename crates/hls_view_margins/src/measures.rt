// The scales by which guarantees and caps are measured.
ghost use Rattle.std.specs.Prelude.{◌≤◌, ◌^◌, ◌*◌};
ghost use Rattle.hls_chron.specs.Parts.{all_parts, parts as parts_of};
ghost use Rattle.hls_frac.specs.Frac.{IsQuotient};
ghost use Rattle.hls_guarantee.specs.Limits.{IsReservation, IsShare, IsValid};
ghost use Rattle.hls_view_margins.specs.Scales.{IsLine, IsScale, MeasuresSpare};
ghost use Rattle.hls_view_margins.specs.Distances.{IsDistance, IsRoundedDown};

use crate::margin::{Distance, Part};
use crate::scale::{Line, Scale};
use hls_chron::{ALL_PARTS, parts};
use hls_frac::Frac;
use hls_guarantee::Guarantee;

/// A line of small numbers.
fn line(base: u32, tick: u32, got: u32) -> Line
    ensures { IsLine result base tick got }
{
    Line {
        base: u128::from(base),
        tick: u128::from(tick),
        got: u128::from(got),
    }
}

/// By which the service of a share is measured.
#[tactic(auto, using(crate::proofs::Products::share_small))]
fn share_scale(s: &Frac, d: &Frac) -> Scale
    requires { IsShare (10 ^ 13) (10 ^ 8) s.now d.now }
    ensures { MeasuresSpare (Guarantee.Psbe s.now d.now) result }
{
    Scale {
        has: Line {
            base: d.num * s.den,
            tick: 0,
            got: s.den * d.den,
        },
        wants: Line {
            base: 0,
            tick: s.num * d.den,
            got: 0,
        },
        unit: s.den * d.den,
    }
}

/// By which what a guarantee promises is measured.
pub(crate) fn spare_scale(kept: &Guarantee) -> Scale
    requires { IsValid kept.now }
    ensures { MeasuresSpare kept.now result }
{
    match *kept {
        Guarantee::All => Scale {
            has: line(0, 0, 1),
            wants: line(0, 1, 0),
            unit: 1,
        },
        Guarantee::Null => Scale {
            has: line(0, 0, 0),
            wants: line(0, 0, 0),
            unit: 1,
        },
        Guarantee::Resb { x, y, .. } | Guarantee::Resc { x, y, .. } => Scale {
            has: line(y, 0, 1),
            wants: line(x, 1, 0),
            unit: 1,
        },
        Guarantee::Psbe { s, d } => share_scale(&s, &d),
    }
}

/// By which the cap of a hard reservation by windows is measured.
pub(crate) fn window_scale(x: u32) -> Scale
    ensures { IsScale result (λ l. IsLine l x 0 0) (λ l. IsLine l 0 0 1) 1 }
{
    Scale {
        has: line(x, 0, 0),
        wants: line(0, 0, 1),
        unit: 1,
    }
}

/// By which the cap of a hard reservation by blocks is measured.
#[tactic(auto, using(crate::proofs::Products::share_small))]
pub(crate) fn block_scale(x: u32, y: u32) -> Scale
    requires { IsReservation x y }
    ensures { IsScale result (λ l. IsLine l (2 * x * all_parts) (parts_of x y) 0) (λ l. IsLine l 0 0 all_parts)
        all_parts }
{
    let whole = u128::from(ALL_PARTS);
    Scale {
        has: Line {
            base: 2 * u128::from(x) * whole,
            tick: parts(x, y),
            got: 0,
        },
        wants: Line {
            base: 0,
            tick: 0,
            got: whole,
        },
        unit: whole,
    }
}

/// A quotient.
fn quotient(num: u128, den: u128) -> Frac
    requires { 1 ≤ den }
    ensures { IsQuotient result num den }
{
    match Frac::make(num, den) {
        Some(quotient) => quotient,
        None => unreachable!(),
    }
}

/// How far a part is above what it wants, or below it.
pub(crate) fn distance_of(scale: &Scale, part: &Part) -> Distance
    ensures { IsDistance scale.now part.now result }
{
    let has = scale.has.at(part.ticks, part.got);
    let wants = scale.wants.at(part.ticks, part.got);
    if wants <= has {
        Distance::Above(quotient(has - wants, scale.unit))
    } else {
        Distance::Below(quotient(wants - has, scale.unit))
    }
}

/// How many whole units a part is above what it wants, or below it, rounded down.
pub(crate) fn whole_distance(scale: &Scale, part: &Part) -> Distance
    ensures { IsRoundedDown scale.now part.now result }
{
    let has = scale.has.at(part.ticks, part.got);
    let wants = scale.wants.at(part.ticks, part.got);
    if wants <= has {
        Distance::Above(quotient((has - wants) / scale.unit, 1))
    } else {
        Distance::Below(quotient((wants - has + (scale.unit - 1)) / scale.unit, 1))
    }
}
