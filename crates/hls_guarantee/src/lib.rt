//! What a guarantee promises, and its text.
#![tactic(auto)]

ghost use Rattle.std.specs.Prelude.{◌≤◌, ◌↔◌, IsTrue};
ghost use Rattle.hls_frac.specs.Frac.{IsWithin};
ghost use Rattle.hls_guarantee.specs.Limits.{IsReservation, IsLimited, IsValid, IsNarrow};

use hls_frac::Frac;

mod capping;
pub mod conversion_laws;
mod deciding;
pub mod laws;
mod reading;
mod rule;
pub mod step_laws;
mod writing;

pub use capping::keeps_cap;
pub use deciding::holds;
pub use reading::read_guarantee;
pub use rule::RuleName;
pub use writing::write_guarantee;

/// What a seat is promised of each window in which it is ready. Ticks are counted in whole ticks.
#[derive(Clone, Copy, Debug, PartialEq, Eq)]
pub enum Guarantee {
    /// Every tick.
    All,
    /// Nothing.
    Null,
    /// By blocks: `x` ticks of every `y`, cut at some tick and every `y` ticks before and after it.
    /// A hard one gets no more.
    Resb { hard: bool, x: u32, y: u32 },
    /// By sliding windows: `x` of any `y` ticks in a row. A hard one gets no more.
    Resc { hard: bool, x: u32, y: u32 },
    /// A share with a bounded error: of any `p` ticks in a row at least `s * p - d`.
    Psbe { s: Frac, d: Frac },
}

/// Whether the numbers of a guarantee are within the limits of derivations.
pub fn valid(g: &Guarantee) -> bool
    ensures { IsTrue result ↔ IsValid g.now }
{
    is_limited(g, 10_000_000_000_000, 100_000_000)
}

/// Whether the numbers of a guarantee are within the limits of a scenario.
pub fn narrow(g: &Guarantee) -> bool
    ensures { IsTrue result ↔ IsNarrow g.now }
{
    is_limited(g, 10_000_000_000, 1_000_000)
}

fn is_limited(g: &Guarantee, most_num: u128, most_den: u128) -> bool
    ensures { IsTrue result ↔ IsLimited most_num most_den g.now }
{
    match g {
        Guarantee::All | Guarantee::Null => true,
        Guarantee::Resb { x, y, .. } | Guarantee::Resc { x, y, .. } => is_reservation(*x, *y),
        Guarantee::Psbe { s, d } => {
            is_share(s) && is_within(s, most_num, most_den) && is_within(d, most_num, most_den)
        }
    }
}

fn is_reservation(x: u32, y: u32) -> bool
    ensures { IsTrue result ↔ IsReservation x y }
{
    1 <= x && x <= y && y <= 20_000
}

fn is_share(s: &Frac) -> bool
    ensures { IsTrue result ↔ ((1 ≤ s.now.num) × (s.now.num ≤ s.now.den)) }
{
    1 <= s.num && s.num <= s.den
}

fn is_within(f: &Frac, most_num: u128, most_den: u128) -> bool
    ensures { IsTrue result ↔ IsWithin f.now most_num most_den }
{
    f.num <= most_num && f.den <= most_den
}
