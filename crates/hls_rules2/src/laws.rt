//! What holds of the answers of the rules for longer windows: each function's contract is a law, and its body does
//! nothing.

ghost use Rattle.std.specs.Prelude.{◌≡◌, ◌*◌, ◌-◌, ◌<◌, ◌≤◌, ◌↔◌, false};
ghost use Rattle.hls_guarantee.specs.Limits.{IsReservation};
ghost use Rattle.hls_derive.specs.Answers.{IsStrongest};

use hls_guarantee::{Guarantee, RuleName};

/// From blocks `R10` has a strongest conclusion exactly where they have one tick, and twice their length is within the
/// limits.
pub fn strongest_windows_of_blocks(hard: bool, x: u32, y: u32, h: Guarantee)
    requires { IsReservation x y }
    ensures { IsStrongest RuleName.R10 (Guarantee.Resb hard x y) h ↔
        ((x ≡ 1) × (y ≤ 10000) × (h ≡ Guarantee.Resc false 1 (2 * y - 1))) }
{}

/// From windows `R11` has one exactly where twice their length is beyond the limits.
pub fn strongest_windows_of_windows(hard: bool, x: u32, y: u32, h: Guarantee)
    requires { IsReservation x y }
    ensures { IsStrongest RuleName.R11 (Guarantee.Resc hard x y) h ↔
        ((20000 < 2 * y) × (h ≡ Guarantee.Resc false x y)) }
{}
