// What one tick more makes of a guarantee that is kept so far.
ghost use Rattle.std.specs.Prelude.{◌≡◌, ◌+◌, ◌-◌, ◌*◌, ◌%◌, ◌^◌, ◌≤◌, ◌↔◌, IsTrue, [], ◌∷◌, ◌++◌, length, min};
ghost use Rattle.hls_chron.specs.Ticks.{one_if};
ghost use Rattle.hls_guarantee.specs.Limits.{IsShare, IsValid};
ghost use Rattle.hls_guarantee.specs.Satisfaction.{ListSatisfies};
ghost use Rattle.hls_guarantee.specs.Service.{schedule_of, service_before};
ghost use Rattle.hls_audit_watch.specs.Inside.Carried.{HasPlaces, IsCarried};
ghost use Rattle.hls_audit_watch.specs.Inside.Periods.{IsPeriod, IsPeriodOf};

use crate::cuts::Cuts;
use crate::recent::{Recent, service};
use crate::reservation::Reservation;
use hls_frac::Frac;
use hls_guarantee::Guarantee;

/// The last ticks, and the service in them.
#[derive(Drop)]
pub(crate) struct Window {
    pub(crate) ticks: u32,
    pub(crate) got: u32,
}

/// The place of the first tick of a window that ends with the tick that comes next.
fn first_place(recent: &Recent, start: u32) -> u32
    requires { start ≡ length recent.now.list + 1 - recent.now.period }
    ensures { result ≡ start % recent.now.period }
{
    if start == 0 { 0 } else { recent.next_place() }
}

/// The last `y` ticks, or as many as there are, the one that comes next among them.
pub(crate) fn last_window(y: u32, recent: &Recent, served: bool) -> Window
    requires { IsPeriod y recent.now.period (length recent.now.list + 1) }
    ensures ticks { result.ticks ≡ min y (length recent.now.list + 1) }
    ensures got { result.got ≡
        service_before (schedule_of (recent.now.list ++ served ∷ [])) y (length recent.now.list + 1) }
{
    let end = recent.len() + 1;
    let start = end.saturating_sub(recent.period());
    let place = first_place(recent, start);
    Window {
        ticks: end - start,
        got: recent.since(start, place) + service(served),
    }
}

/// Whether the debt stays within what is allowed, after a tick.
fn owes(s: &Frac, d: &Frac, debt: &mut u128, served: bool) -> bool
    requires share { IsShare (10 ^ 13) (10 ^ 8) s.now d.now }
    requires small { debt.old ≤ d.now.num * s.now.den }
    ensures debt { debt.new ≡ debt.old + s.now.num * d.now.den - d.now.den * s.now.den * one_if served }
    ensures within { IsTrue result ↔ (debt.new ≤ d.now.num * s.now.den) }
{
    *debt += s.num * d.den;
    if served {
        *debt = debt.saturating_sub(d.den * s.den);
    }
    *debt <= d.num * s.den
}

/// Whether a guarantee that is kept so far is kept with one tick more.
fn stays_kept(
    g: &Guarantee,
    recent: &Recent,
    debt: &mut u128,
    cuts: &mut Cuts,
    served: bool,
) -> bool
    requires valid { IsValid g.now }
    requires period { IsPeriodOf g.now recent.now.period (length recent.now.list + 1) }
    requires room { HasPlaces g.now recent.now.period (length cuts.old.broken.items) }
    requires placed { cuts.old.place ≡ cuts.old.from % recent.now.period }
    requires kept { ListSatisfies g.now recent.now.list }
    requires carried { IsCarried g.now recent.now.period debt.old cuts.old recent.now.list }
    ensures kept { IsTrue result ↔ ListSatisfies g.now (recent.now.list ++ served ∷ []) }
    ensures room { HasPlaces g.now recent.now.period (length cuts.new.broken.items) }
    ensures placed { cuts.new.place ≡ cuts.new.from % recent.now.period }
    ensures carried { IsTrue result →
        IsCarried g.now recent.now.period debt.new cuts.new (recent.now.list ++ served ∷ []) }
{
    match *g {
        Guarantee::All => served,
        Guarantee::Null => true,
        Guarantee::Resb { hard, x, y } => cuts.push(&Reservation { hard, x, y }, recent, served),
        Guarantee::Resc { hard, x, y } => {
            let last = last_window(y, recent, served);
            Reservation { hard, x, y }.is_met(last.ticks, last.got)
        }
        Guarantee::Psbe { s, d } => owes(&s, &d, debt, served),
    }
}

/// Whether a guarantee is kept with one tick more, from whether it is kept so far.
pub(crate) fn is_kept(
    was: bool,
    g: &Guarantee,
    recent: &Recent,
    debt: &mut u128,
    cuts: &mut Cuts,
    served: bool,
) -> bool
    requires valid { IsValid g.now }
    requires period { IsPeriodOf g.now recent.now.period (length recent.now.list + 1) }
    requires room { HasPlaces g.now recent.now.period (length cuts.old.broken.items) }
    requires placed { cuts.old.place ≡ cuts.old.from % recent.now.period }
    requires kept { IsTrue was ↔ ListSatisfies g.now recent.now.list }
    requires carried { IsTrue was → IsCarried g.now recent.now.period debt.old cuts.old recent.now.list }
    ensures kept { IsTrue result ↔ ListSatisfies g.now (recent.now.list ++ served ∷ []) }
    ensures room { HasPlaces g.now recent.now.period (length cuts.new.broken.items) }
    ensures placed { cuts.new.place ≡ cuts.new.from % recent.now.period }
    ensures carried { IsTrue result →
        IsCarried g.now recent.now.period debt.new cuts.new (recent.now.list ++ served ∷ []) }
{
    was && stays_kept(g, recent, debt, cuts, served)
}
