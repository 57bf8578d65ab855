// In how many ready ticks in a row a guarantee promises so many.
ghost use Rattle.std.specs.Prelude.{◌≡◌, ◌≤◌, ◌-◌, ◌*◌, Some};
ghost use Rattle.hls_guarantee.specs.Limits.{IsReservation, IsValid};
ghost use Rattle.hls_view_jobs.specs.Bounds.{periods_and, promised_in};

use hls_guarantee::Guarantee;

/// Full periods, and what the rest takes behind them.
fn periods_and(x: u32, y: u32, missed: u32, asked: u32) -> u128
    requires reservation { IsReservation x y }
    requires some { 1 ≤ asked }
    requires few { asked ≤ 100000 }
    requires missed { missed ≤ 2 * y }
    ensures { result ≡ periods_and x y missed asked }
{
    let before = u128::from(asked - 1);
    let x = u128::from(x);
    before / x * u128::from(y) + u128::from(missed) + (before % x + 1)
}

/// In how many ready ticks in a row a guarantee promises so many.
pub(crate) fn promised_in(kept: &Guarantee, asked: u32) -> Option<u128>
    requires valid { IsValid kept.now }
    requires some { 1 ≤ asked }
    requires few { asked ≤ 100000 }
    ensures { result ≡ promised_in kept.now asked }
{
    match *kept {
        Guarantee::All => Some(u128::from(asked)),
        Guarantee::Null => None,
        Guarantee::Resc { x, y, .. } => Some(periods_and(x, y, y - x, asked)),
        Guarantee::Resb { x, y, .. } => Some(periods_and(x, y, 2 * (y - x), asked)),
        Guarantee::Psbe { s, d } => {
            let wanted = (u128::from(asked - 1) * d.den + d.num) * s.den;
            Some(wanted / (s.num * d.den) + 1)
        }
    }
}
