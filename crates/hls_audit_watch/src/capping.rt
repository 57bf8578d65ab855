// What one tick more makes of a cap that is kept so far.
ghost use Rattle.std.specs.Prelude.{◌≡◌, ◌+◌, ◌-◌, ◌*◌, ◌^◌, ◌<◌, ◌≤◌, ◌↔◌, IsTrue, [], ◌∷◌, ◌++◌, length};
ghost use Rattle.hls_chron.specs.Parts.{all_parts};
ghost use Rattle.hls_chron.specs.Ticks.{one_if};
ghost use Rattle.hls_guarantee.specs.Cap.{ListKeepsCap};
ghost use Rattle.hls_guarantee.specs.Limits.{IsValid};
ghost use Rattle.hls_audit_watch.specs.Inside.Carried.{HasRate, IsCapCarried};
ghost use Rattle.hls_audit_watch.specs.Inside.Periods.{IsCapPeriodOf};

use crate::keeping::last_window;
use crate::recent::Recent;
use hls_chron::ALL_PARTS;
use hls_guarantee::Guarantee;

/// What is had beyond what each tick pays, and what it pays.
#[derive(Clone, Copy)]
pub(crate) struct Excess {
    pub(crate) rate: u128,
    pub(crate) had: u128,
}

/// The most that hard blocks of `x` ticks may have beyond what is paid.
pub(crate) fn most_excess(x: u32) -> u128
    requires { x ≤ 20000 }
    ensures most { result ≡ 2 * x * all_parts }
    ensures few { result < 2 ^ 80 }
{
    2 * u128::from(x) * u128::from(ALL_PARTS)
}

impl Excess {
    /// Whether it stays within what is allowed, after a tick.
    pub(crate) fn stays_within(&mut self, most: u128, served: bool) -> bool
        requires bound { most < 2 ^ 80 }
        requires small { self.old.had ≤ most }
        ensures rate { self.new.rate ≡ self.old.rate }
        ensures had { self.new.had ≡ self.old.had + all_parts * one_if served - self.old.rate }
        ensures within { IsTrue result ↔ (self.new.had ≤ most) }
    {
        if served {
            self.had += u128::from(ALL_PARTS);
        }
        self.had = self.had.saturating_sub(self.rate);
        self.had <= most
    }
}

/// Whether a cap that is kept so far is kept with one tick more.
fn stays_capped(g: &Guarantee, recent: &Recent, excess: &mut Excess, served: bool) -> bool
    requires valid { IsValid g.now }
    requires period { IsCapPeriodOf g.now recent.now.period (length recent.now.list + 1) }
    requires rate { HasRate g.now excess.old.rate }
    requires capped { ListKeepsCap g.now recent.now.list }
    requires carried { IsCapCarried g.now excess.old.had recent.now.list }
    ensures rate { excess.new.rate ≡ excess.old.rate }
    ensures capped { IsTrue result ↔ ListKeepsCap g.now (recent.now.list ++ served ∷ []) }
    ensures carried { IsTrue result → IsCapCarried g.now excess.new.had (recent.now.list ++ served ∷ []) }
{
    match *g {
        Guarantee::Resb { hard: true, x, .. } => excess.stays_within(most_excess(x), served),
        Guarantee::Resc { hard: true, x, y } => last_window(y, recent, served).got <= x,
        _ => true,
    }
}

/// Whether a cap is kept with one tick more, from whether it is kept so far.
pub(crate) fn is_capped(
    was: bool,
    g: &Guarantee,
    recent: &Recent,
    excess: &mut Excess,
    served: bool,
) -> bool
    requires valid { IsValid g.now }
    requires period { IsCapPeriodOf g.now recent.now.period (length recent.now.list + 1) }
    requires rate { HasRate g.now excess.old.rate }
    requires capped { IsTrue was ↔ ListKeepsCap g.now recent.now.list }
    requires carried { IsTrue was → IsCapCarried g.now excess.old.had recent.now.list }
    ensures rate { excess.new.rate ≡ excess.old.rate }
    ensures capped { IsTrue result ↔ ListKeepsCap g.now (recent.now.list ++ served ∷ []) }
    ensures carried { IsTrue result → IsCapCarried g.now excess.new.had (recent.now.list ++ served ∷ []) }
{
    was && stays_capped(g, recent, excess, served)
}
