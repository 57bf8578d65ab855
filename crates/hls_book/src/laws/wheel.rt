//! What holds of frames: each function's contract is a law, and its body does nothing.

ghost use Rattle.hls_chron.specs.Ledger.{Ledger};
ghost use Rattle.hls_kinds.specs.Discipline.{KeepsDiscipline};
ghost use Rattle.hls_book.specs.Admission.{KeepsAdmission};
ghost use Rattle.hls_book.specs.Promise.{KeepsPromise};
ghost use Rattle.hls_book.specs.Places.{KeepsPlaces};

use hls_chron::Config;

/// A frame of slots keeps its promise by its discipline, by how its seats are admitted and by the
/// places that they own: what is given every tick in which it asks serves a seat of `k` places in
/// `k` of any ticks of a frame in which the seat asks, and it never gets more.
pub fn wheels_promise(frame: u32)
    ensures { (b : Ledger) → KeepsAdmission (Config.Wheel frame) b → KeepsDiscipline (Config.Wheel frame) b →
        KeepsPlaces frame b → KeepsPromise (Config.Wheel frame) b }
{}
