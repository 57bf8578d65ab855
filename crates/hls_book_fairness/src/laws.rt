//! What holds of fair queueing: each function's contract is a law, and its body does nothing.

ghost use Rattle.hls_chron.specs.Kinds.{by_shares};
ghost use Rattle.hls_chron.specs.Ledger.{Ledger};
ghost use Rattle.hls_kinds.specs.Made.{IsMade};
ghost use Rattle.hls_book_fairness.specs.Fairness.{ServesAlike};
ghost use Rattle.hls_book_fairness.specs.Work.{LosesNoTick};
ghost use Rattle.hls_book_fairness.specs.Delays.{KeepsDelays};

use hls_chron::Sharing;

/// While two seats ask, the ticks that each has, by its weight, differ by at most one quantum of each by its weight.
/// This is the bound of start-time fair queueing (after Goyal, Guo and Vin 1996), in whole ticks, over any run.
pub fn two_seats_are_served_alike(sharing: Sharing)
    ensures { (b : Ledger) → IsMade (by_shares sharing) b → ServesAlike sharing.quantum b }
{}

/// The scheduler asks while a seat does, and each tick that it is given serves one seat, which asks.
pub fn no_given_tick_is_lost(sharing: Sharing)
    ensures { (b : Ledger) → IsMade (by_shares sharing) b → LosesNoTick sharing b }
{}

/// A seat that asks has its n-th tick by the time that the scheduler was given
/// `total * (n + quantum - 1) / weight + (most - 1) * quantum - (quantum - 1)` ticks, rounded down, counted from any
/// tick on. Where its start tag was the virtual time in that tick, it has it by
/// `total * (n - 1) / weight + (most - 1) * quantum + 1` ticks, the delay bound of start-time fair queueing (after the
/// same). Where the scheduler is given each tick in which it asks, it is given all of them.
pub fn seats_have_their_ticks_in_time(sharing: Sharing)
    ensures { (b : Ledger) → IsMade (by_shares sharing) b → KeepsDelays sharing b }
{}
