// What the rules for longer windows conclude.
ghost use Rattle.std.specs.Prelude.{◌≡◌, ◌*◌, ◌-◌, ◌<◌, ◌≤◌, ◌↔◌, IsTrue, IfSome, IsNone, false};
ghost use Rattle.hls_guarantee.specs.Limits.{IsValid, IsReservation};
ghost use Rattle.hls_guarantee.specs.Conversions.{HasTimes, Leads};

use hls_guarantee::{Guarantee, RuleName};

/// Whether blocks always hold windows of so few of their ticks.
pub fn slides_sooner(g: &Guarantee, h: &Guarantee) -> bool
    requires from { IsValid g.now }
    requires to { IsValid h.now }
    ensures { IsTrue result ↔ Leads RuleName.R10 g.now h.now }
{
    match (*g, *h) {
        (
            Guarantee::Resb { x, y, .. },
            Guarantee::Resc {
                hard: false,
                x: fewer,
                y: longer,
            },
        ) => fewer <= x && 2 * y + fewer <= 2 * x + longer,
        _ => false,
    }
}

/// Whether windows always hold longer ones of so many periods.
pub fn repeats(g: &Guarantee, h: &Guarantee) -> bool
    requires from { IsValid g.now }
    requires to { IsValid h.now }
    ensures { IsTrue result ↔ Leads RuleName.R11 g.now h.now }
{
    match (*g, *h) {
        (
            Guarantee::Resc { x, y, .. },
            Guarantee::Resc {
                hard: false,
                x: fewer,
                y: longer,
            },
        ) => has_times(x, y, fewer, longer),
        _ => false,
    }
}

/// Whether for some number of times, so many times `x` are `fewer` or more, and so many times `y` are `longer` or less.
fn has_times(x: u32, y: u32, fewer: u32, longer: u32) -> bool
    requires from { IsReservation x y }
    requires to { IsReservation fewer longer }
    ensures { IsTrue result ↔ HasTimes x y fewer longer }
{
    let times = longer / y;
    1 <= times && fewer <= times * x
}

/// The shortest soft windows of one tick that blocks always hold, where the blocks have no more than one.
pub fn windows_of_one(x: u32, y: u32) -> Option<Guarantee>
    requires { IsReservation x y }
    ensures some { IfSome result (λ h. (h ≡ Guarantee.Resc false 1 (2 * y - 1)) × (x ≡ 1) × (y ≤ 10000)) }
    ensures none { IsNone result → x ≡ 1 → 10000 < y }
{
    if x != 1 || y > 10_000 {
        return None;
    }
    Some(Guarantee::Resc {
        hard: false,
        x: 1,
        y: 2 * y - 1,
    })
}

/// The windows themselves, soft, where twice their length is beyond the limits.
pub fn windows_once(x: u32, y: u32) -> Option<Guarantee>
    requires { IsReservation x y }
    ensures some { IfSome result (λ h. (h ≡ Guarantee.Resc false x y) × (20000 < 2 * y)) }
    ensures none { IsNone result → 2 * y ≤ 20000 }
{
    if 2 * y <= 20_000 {
        return None;
    }
    Some(Guarantee::Resc { hard: false, x, y })
}
