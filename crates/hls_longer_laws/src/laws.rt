//! What holds of conversions to longer windows: each function's contract is a law, and its body does nothing.

ghost use Rattle.std.specs.Prelude.{ℕ, ◌*◌, ◌/◌, ◌≤◌, ◌↔◌, false};
ghost use Rattle.hls_guarantee.specs.Limits.{IsReservation};
ghost use Rattle.hls_guarantee.specs.Conversions.{HasTimes, Leads};
ghost use Rattle.hls_longer_laws.specs.Implies.{Implies};
ghost use Rattle.hls_longer_laws.specs.Least.{least_of_windows, least_of_blocks};
ghost use Rattle.hls_longer_laws.specs.Shares.{IsShareOf};

use hls_frac::Frac;
use hls_guarantee::{Guarantee, RuleName};

/// `R10` reaches what `R3` reaches, and more.
pub fn blocks_lead_further(g: Guarantee, h: Guarantee)
    ensures { Leads RuleName.R3 g h → Leads RuleName.R10 g h }
{}

/// `R11` reaches all windows that `R1` reaches from soft windows: those of one times the budget and the period.
pub fn windows_lead_further(x: u32, y: u32, less: u32, longer: u32)
    ensures { Leads RuleName.R1 (Guarantee.Resc false x y) (Guarantee.Resc false less longer) →
        Leads RuleName.R11 (Guarantee.Resc false x y) (Guarantee.Resc false less longer) }
{}

/// The most that `R11` reaches is by the whole periods of the longer window.
pub fn multiples_are_whole_periods(x: u32, y: u32, less: u32, longer: u32)
    requires { 1 ≤ y }
    ensures { HasTimes x y less longer ↔ ((1 ≤ longer / y) × (less ≤ longer / y * x)) }
{}

/// From blocks, no windows of at most their budget follow but by `R10`: there are ticks that satisfy the blocks, and no
/// shorter windows.
pub fn blocks_lead_no_further(hard: bool, x: u32, y: u32, less: u32, longer: u32)
    requires from { IsReservation x y }
    requires to { IsReservation less longer }
    requires within { less ≤ x }
    ensures { Implies (Guarantee.Resb hard x y) (Guarantee.Resc false less longer) →
        Leads RuleName.R10 (Guarantee.Resb hard x y) (Guarantee.Resc false less longer) }
{}

/// From windows, no windows of so many whole periods follow but by `R11`: there are ticks that satisfy the windows, and
/// of so many periods have their budget just as many times.
pub fn windows_lead_no_further(hard: bool, x: u32, y: u32, less: u32, times: u32)
    requires from { IsReservation x y }
    requires some { 1 ≤ times }
    ensures { Implies (Guarantee.Resc hard x y) (Guarantee.Resc false less (times * y)) →
        Leads RuleName.R11 (Guarantee.Resc hard x y) (Guarantee.Resc false less (times * y)) }
{}

/// From windows exactly those windows follow that ask for no more than windows of their length have at least: a budget
/// for each whole period, and of the rest all but what a period may miss.
pub fn windows_give_exactly(hard: bool, x: u32, y: u32, less: u32, longer: u32)
    requires from { IsReservation x y }
    requires to { IsReservation less longer }
    ensures { Implies (Guarantee.Resc hard x y) (Guarantee.Resc false less longer) ↔
        (less ≤ least_of_windows x y longer) }
{}

/// And from blocks, those that ask for no more than windows have at least that are shorter by what a block may miss.
pub fn blocks_give_exactly(hard: bool, x: u32, y: u32, less: u32, longer: u32)
    requires from { IsReservation x y }
    requires to { IsReservation less longer }
    ensures { Implies (Guarantee.Resb hard x y) (Guarantee.Resc false less longer) ↔
        (less ≤ least_of_blocks x y longer) }
{}

/// From windows exactly those shares follow whose rate is at most `x / y`, and whose error is at least what they have
/// of as many ticks as a period may miss.
pub fn windows_give_shares_exactly(hard: bool, x: u32, y: u32, s: Frac, d: Frac)
    requires { IsReservation x y }
    ensures { Implies (Guarantee.Resc hard x y) (Guarantee.Psbe s d) ↔ IsShareOf 1 x y s d }
{}

/// And from blocks, those whose error is at least twice that.
pub fn blocks_give_shares_exactly(hard: bool, x: u32, y: u32, s: Frac, d: Frac)
    requires { IsReservation x y }
    ensures { Implies (Guarantee.Resb hard x y) (Guarantee.Psbe s d) ↔ IsShareOf 2 x y s d }
{}
