// How much service could have been taken away from a stay.
ghost use Rattle.std.specs.Prelude.{◌≡◌, ◌-◌, ◌≤◌, ◌<◌, ◌↔◌, ℕ, Bool, IsTrue, min};
ghost use Rattle.hls_audit_spans.specs.Spans.{Tell};
ghost use Rattle.hls_guarantee.specs.Limits.{IsValid};
ghost use Rattle.hls_view_margins.specs.Scales.{MeasuresSpare};
ghost use Rattle.hls_view_margins.specs.Judged.{IsSpare, IsSpareBy};
ghost use Rattle.hls_view_margins.specs.Inside.Worst.{IsWorstOf, IsNull, IsSpareOf};

use crate::best::best_piece;
use crate::cuts::{Blocks, Window};
use crate::first::sooner;
use crate::margin::{Part, Spare};
use crate::measures::{distance_of, spare_scale};
use crate::parts::{least_of_all, least_of_length};
use crate::rows::turn;
use crate::scale::Scale;
use hls_audit_spans::Spans;
use hls_guarantee::Guarantee;

/// Of the parts by which a guarantee is judged in a window, the first that has the least surplus; `None` where nothing
/// is guaranteed, or no cut is allowed.
fn worst_part(kept: &Guarantee, scale: &Scale, served: &Spans, window: &Window) -> Option<Part>
    requires { IsValid kept.now }
    ensures { (f : ℕ → Bool) (end : ℕ) → Tell f served.now.spans.items end → window.now.hi ≤ end →
        IsWorstOf kept.now scale.now f window.now.lo window.now.hi result }
{
    let lo = window.lo;
    let hi = window.hi;
    match *kept {
        Guarantee::All => least_of_length(scale, served, lo, hi, 1),
        Guarantee::Null => None,
        Guarantee::Resb { hard, x, y } => {
            let blocks = Blocks {
                hard,
                most: x,
                period: y,
            };
            best_piece(scale, served, window, &blocks)
        }
        Guarantee::Resc { y, .. } => least_of_length(scale, served, lo, hi, y.min(hi - lo)),
        Guarantee::Psbe { .. } => least_of_all(scale, served, lo, hi),
    }
}

/// Of the parts of all windows, the first that has the least surplus, and this surplus; or whether one is over.
fn judge(kept: &Guarantee, scale: &Scale, ready: &Spans, served: &Spans, stay: &Window) -> Spare
    requires valid { IsValid kept.now }
    requires some { IsNull kept.now → ⊥ }
    ensures { (f g : ℕ → Bool) (end : ℕ) → Tell f ready.now.spans.items end → Tell g served.now.spans.items end →
        stay.now.hi ≤ end → IsSpareBy kept.now scale.now f g stay.now.lo stay.now.hi result }
{
    let mut least = None;
    let mut from = turn(ready, true, stay.lo, stay.hi);
    while from < stay.hi {
        let until = turn(ready, false, from + 1, stay.hi);
        let worst = worst_part(
            kept,
            scale,
            served,
            &Window {
                lo: from,
                hi: until,
            },
        );
        if worst.is_none() {
            return Spare::Over;
        }
        least = sooner(scale, least, worst);
        from = turn(ready, true, until, stay.hi);
    }
    spare_by(scale, least)
}

/// The least surplus, of the part that has it.
fn spare_by(scale: &Scale, least: Option<Part>) -> Spare
    ensures { IsSpareOf scale.now least result }
{
    match least {
        None => Spare::Unjudged,
        Some(part) => Spare::Least {
            part,
            surplus: distance_of(scale, &part),
        },
    }
}

/// Whether a guarantee promises nothing.
fn is_null(kept: &Guarantee) -> bool
    ensures { IsTrue result ↔ IsNull kept.now }
{
    match *kept {
        Guarantee::Null => true,
        Guarantee::All | Guarantee::Resb { .. } | Guarantee::Resc { .. } | Guarantee::Psbe { .. } =>
            false,
    }
}

/// How many ticks of service could have been taken away from a stay, wherever they lie, with its guarantee still kept.
pub(crate) fn spare_of(kept: &Guarantee, ready: &Spans, served: &Spans, stay: &Window) -> Spare
    requires { IsValid kept.now }
    ensures { (f g : ℕ → Bool) (end : ℕ) → Tell f ready.now.spans.items end → Tell g served.now.spans.items end →
        stay.now.hi ≤ end → IsSpare kept.now f g stay.now.lo stay.now.hi result }
{
    let scale = spare_scale(kept);
    if is_null(kept) {
        return Spare::Unjudged;
    }
    judge(kept, &scale, ready, served, stay)
}
