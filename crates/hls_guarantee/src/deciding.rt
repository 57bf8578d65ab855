//! Whether a list of served and unserved ticks satisfies a guarantee.

ghost use Rattle.hls_chron.specs.Ranges.{longest_horizon};
ghost use Rattle.std.specs.Prelude.{
  ◌≡◌,
  ℕ,
  ◌+◌,
  ◌-◌,
  ◌*◌,
  ◌^◌,
  ◌<◌,
  ◌≤◌,
  ◌↔◌,
  IsTrue,
  min,
  true,
  false,
  length,
  slice_index_or,
  slice_set,
  if◌then◌else◌,
};
ghost use Rattle.hls_chron.specs.Ticks.{one_if, count};
ghost use Rattle.hls_guarantee.specs.Service.{schedule_of, service_before, EveryPartOf};
ghost use Rattle.hls_guarantee.specs.Satisfaction.{IsReserved, InPiece, HasShare, ListSatisfies};
ghost use Rattle.hls_guarantee.specs.Limits.{IsReservation, IsShare, IsValid};

use crate::Guarantee;
use hls_frac::Frac;

/// The most `y` of a reservation.
const MOST_TICKS: usize = 20_000;

/// Whether a list of served and unserved ticks, of at most a million, satisfies a guarantee.
pub fn holds(g: &Guarantee, list: &[bool]) -> bool
    requires valid { IsValid g.now }
    requires few { length list.now ≤ longest_horizon }
    ensures { IsTrue result ↔ ListSatisfies g.now list.now }
{
    match g {
        Guarantee::All => serves_all(list),
        Guarantee::Null => true,
        Guarantee::Resb { hard, x, y } => blocks_hold(*hard, *x, *y, list),
        Guarantee::Resc { hard, x, y } => windows_hold(*hard, *x, *y, list),
        Guarantee::Psbe { s, d } => share_holds(s, d, list),
    }
}

fn serves_all(list: &[bool]) -> bool
    ensures { IsTrue result ↔ ListSatisfies Guarantee.All list.now }
{
    list.iter().all(|served| *served)
}

/// Whether every part has its share.
fn share_holds(s: &Frac, d: &Frac, list: &[bool]) -> bool
    requires { IsShare (10 ^ 13) (10 ^ 8) s.now d.now }
    ensures { IsTrue result ↔ EveryPartOf (λ i n got. HasShare s.now d.now n got) list.now }
{
    debt_stays(s.num * d.den, d.den * s.den, d.num * s.den, list)
}

/// Whether no part is owed more than `most`: each tick owes `rate`, and a served one pays `whole`.
fn debt_stays(rate: u128, whole: u128, most: u128, list: &[bool]) -> bool
    requires rate { rate ≤ 10 ^ 21 }
    requires whole { whole ≤ 10 ^ 21 }
    requires most { most ≤ 10 ^ 21 }
    ensures { IsTrue result ↔
        EveryPartOf (λ i n got. rate * n ≤ whole * got + most) list.now }
{
    let mut debt = 0;
    for served in list {
        debt = debt_after(debt + rate, whole, *served);
        if most < debt {
            return false;
        }
    }
    true
}

/// What is owed after a tick.
fn debt_after(debt: u128, whole: u128, served: bool) -> u128
    ensures { result ≡ debt - whole * one_if served }
{
    if served {
        debt.saturating_sub(whole)
    } else {
        debt
    }
}

/// Whether of `n` ticks, so many of them served, enough are, and where it is hard not too many.
fn is_reserved(hard: bool, x: u32, y: u32, n: u32, got: u32) -> bool
    requires range { IsReservation x y }
    requires n { n ≤ 20000 }
    requires got { got ≤ 20000 }
    ensures { IsTrue result ↔ IsReserved hard x y n got }
{
    x + n <= y + got && (!hard || got <= x)
}

/// 1 where the tick at an index is served; past the end none is.
fn service_at(list: &[bool], at: usize) -> u32
    ensures { result ≡ one_if (schedule_of list.now at) }
{
    u32::from(at < list.len() && list[at])
}

/// The service of the `width` ticks that end with the one at an index, from that of the ticks one earlier.
pub(crate) fn next_service(list: &[bool], width: usize, at: usize, before: u32) -> u32
    requires some { 1 ≤ width }
    requires few { width ≤ 20000 }
    requires before { before ≡ service_before (schedule_of list.now) width at }
    ensures { result ≡ service_before (schedule_of list.now) width (at + 1) }
{
    let more = before + service_at(list, at);
    if width <= at {
        more - service_at(list, at - width)
    } else {
        more
    }
}

/// Whether every part of at most `y` ticks keeps the reservation.
fn windows_hold(hard: bool, x: u32, y: u32, list: &[bool]) -> bool
    requires { IsReservation x y }
    ensures { IsTrue result ↔
        EveryPartOf (λ i n got. n ≤ y → IsReserved hard x y n got) list.now }
{
    let width = y as usize;
    let mut got = 0;
    for at in 0..list.len() {
        got = next_service(list, width, at, got);
        let n = width.min(at + 1) as u32;
        if !is_reserved(hard, x, y, n, got) {
            return false;
        }
    }
    true
}

/// Whether there is an offset at which every piece keeps the reservation.
fn blocks_hold(hard: bool, x: u32, y: u32, list: &[bool]) -> bool
    requires range { IsReservation x y }
    requires few { length list.now ≤ longest_horizon }
    ensures { IsTrue result ↔
        ((e : ℕ) × (e < y) ×
        EveryPartOf (λ i n got. InPiece e y i n → IsReserved hard x y n got) list.now) }
{
    let mut broken = none_broken();
    mark_broken(hard, x, y, list, &mut broken);
    has_unbroken(&broken, y as usize)
}

fn none_broken() -> [bool; MOST_TICKS]
    ensures wide { length result ≡ 20000 }
    ensures blank { (r : ℕ) → slice_index_or result r false ≡ false }
{
    [false; MOST_TICKS]
}

/// Marks each offset at which some piece does not keep the reservation. The pieces are taken by their ends.
fn mark_broken(hard: bool, x: u32, y: u32, list: &[bool], broken: &mut [bool])
    requires range { IsReservation x y }
    requires few { length list.now ≤ longest_horizon }
    requires wide { y ≤ length broken.old }
    requires blank { (r : ℕ) → slice_index_or broken.old r false ≡ false }
    ensures { (e : ℕ) → e < y →
        (slice_index_or broken.new e false ≡ false) ↔
        EveryPartOf (λ i n got. InPiece e y i n → IsReserved hard x y n got) list.now }
{
    let width = y as usize;
    let mut got = 0;
    for at in 0..list.len() + width - 1 {
        got = next_service(list, width, at, got);
        let n = piece_len(at + 1, list.len(), width);
        let kept = is_reserved(hard, x, y, n, got);
        mark(broken, (at + 1) % width, kept);
    }
}

/// How many ticks of a list of this length the piece has that would end before a tick.
fn piece_len(end: usize, len: usize, width: usize) -> u32
    requires end { end < len + width }
    requires width { width ≤ 20000 }
    ensures { result ≡ min end len - (end - width) }
{
    (end.min(len) - end.saturating_sub(width)) as u32
}

fn mark(broken: &mut [bool], at: usize, kept: bool)
    requires { at < length broken.old }
    ensures { broken.new ≡ (if kept then broken.old else slice_set broken.old at true) }
{
    if !kept {
        broken[at] = true;
    }
}

/// Whether one of the first offsets is not marked.
fn has_unbroken(broken: &[bool], width: usize) -> bool
    requires { width ≤ length broken.now }
    ensures { IsTrue result ↔ ((e : ℕ) × (e < width) × (slice_index_or broken.now e false ≡ false)) }
{
    for e in 0..width {
        if !broken[e] {
            return true;
        }
    }
    false
}
