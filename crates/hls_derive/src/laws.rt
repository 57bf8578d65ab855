//! What holds of derivations: each function's contract is a law, and its body does nothing.

ghost use Rattle.std.specs.Prelude.{◌≡◌, List};
ghost use Rattle.hls_guarantee.specs.Limits.{IsValid};
ghost use Rattle.hls_derive.specs.Derivation.{IsWithinGrammar, AreValid};
ghost use Rattle.hls_derive.specs.DerivationText.{derivation_text};
ghost use Rattle.hls_derive.specs.Derives.{IsDerivation};

use crate::{Derivation, Place};
use hls_guarantee::Guarantee;

/// One text is of at most one derivation.
pub fn text_is_injective()
    ensures { (d e : Derivation) → IsWithinGrammar d → IsWithinGrammar e →
        derivation_text d ≡ derivation_text e → d ≡ e }
{}

/// Each guarantee of a derivation is within the limits of derivations.
pub fn derivations_are_valid(place: Place, want: Guarantee)
    ensures { (haves : List Guarantee) (d : Derivation) → IsDerivation place haves want d →
        IsValid d.from × AreValid d.before × IsValid d.sched.to × AreValid d.after × IsValid want }
{}
