//! What holds of the lines of an offer: each function's contract is a law, and its body does nothing.

ghost use Rattle.std.specs.Prelude.{◌≢◌, ℕ, AllPairs, Contains, List, Option};
ghost use Rattle.hls_guarantee.specs.declared.Guarantee.{Guarantee};
ghost use Rattle.hls_guarantee.specs.Limits.{IsNarrow};
ghost use Rattle.hls_offer_best.specs.Best.{CanAsk, Offers};
ghost use Rattle.hls_offer_lines.specs.Lines.{AreOffers, IsRising};

use hls_chron::Config;
use hls_offer_best::Seat;

/// Each line can be promised to a seat of a scheduler, also where it is nothing, and is within the limits of a
/// scenario.
pub fn lines_are_offered(seat: &Seat<'_>)
    requires can { CanAsk seat.now }
    requires loaded { seat.now.place.config ≢ Config.Cpu }
    ensures { (list : Option (List ℕ)) (lines : List Guarantee) → AreOffers seat.now list lines → (g : Guarantee) →
        Contains lines g → Offers seat.now g × IsNarrow g }
{}

/// No line stands twice, where the periods of a list rise.
pub fn lines_stand_once(seat: &Seat<'_>)
    ensures { (list : Option (List ℕ)) (lines : List Guarantee) → AreOffers seat.now list lines → IsRising list →
        AllPairs (λ g h. g ≢ h) lines }
{}
