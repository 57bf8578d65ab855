//! What holds of round robin: each function's contract is a law, and its body does nothing.

ghost use Rattle.hls_chron.specs.Ledger.{Ledger};
ghost use Rattle.hls_chron.specs.Ranges.{IsWithin};
ghost use Rattle.hls_kinds.specs.Made.{IsMade};
ghost use Rattle.hls_book_turns.specs.Waits.{PassesNoSeatOver, ServesAlike, KeepsDelays};
ghost use Rattle.hls_book_turns.specs.Shares.{KeepsPart, KeepsTurnPromise};
ghost use Rattle.hls_book_turns.specs.Reached.{WaitsLongest};

use hls_chron::Config;

/// While a seat asks, whoever comes, leaves or blocks meanwhile, each other slot has at most a quantum before the
/// seat's first tick, and one more for each quantum that the seat has had.
pub fn no_seat_is_passed_over(quantum: u32)
    ensures { (b : Ledger) → IsMade (Config.Rr quantum) b → PassesNoSeatOver quantum b }
{}

/// So while two seats ask, the ticks that they have differ by at most a quantum.
pub fn two_seats_are_served_alike(quantum: u32)
    ensures { (b : Ledger) → IsMade (Config.Rr quantum) b → ServesAlike quantum b }
{}

/// A seat that asks has its n-th tick, however many others there are, by the time that the scheduler was given `n`
/// ticks, 31 quanta, and 31 more for each quantum that the seat had before.
pub fn seats_have_their_turns_in_time(quantum: u32)
    ensures { (b : Ledger) → IsMade (Config.Rr quantum) b → KeepsDelays quantum b }
{}

/// Of the ticks that the scheduler is given it has one in 32, all but 31 quanta.
pub fn seats_have_their_part(quantum: u32)
    ensures { (b : Ledger) → IsMade (Config.Rr quantum) b → KeepsPart quantum b }
{}

/// So each seat has a part of what the scheduler is supplied with in the ticks in which it asks: of a share the 32nd
/// part, and of windows those ticks that come to it in time of as many given ones, whoever else sits there.
pub fn turns_are_supplied(quantum: u32)
    ensures { (b : Ledger) → IsMade (Config.Rr quantum) b → KeepsTurnPromise quantum b }
{}

/// The bound on a wait is reached: for each number of ticks of its own there are a book and a run in which a seat has
/// so many, and each of 31 other slots has as many as it may.
pub fn waits_are_as_long_as_they_may_be(quantum: u32, own: u32)
    requires { IsWithin 1 100 quantum }
    ensures { WaitsLongest quantum own }
{}
