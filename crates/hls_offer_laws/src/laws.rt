//! What holds of offers: each function's contract is a law, and its body does nothing.

ghost use Rattle.std.specs.Prelude.{◌≡◌, ◌≢◌, ◌≤◌, ◌⊎◌, ℕ, Bool, All, Some, true, false, length, slice_get};
ghost use Rattle.hls_frac.specs.declared.Frac.{Frac};
ghost use Rattle.hls_chron.specs.Ranges.{TermsInRange};
ghost use Rattle.hls_chron.specs.Ledger.{Ledger};
ghost use Rattle.hls_kinds.specs.Faults.{Applies};
ghost use Rattle.hls_kinds.specs.Room.{room_asked};
ghost use Rattle.hls_guarantee.specs.declared.Guarantee.{Guarantee};
ghost use Rattle.hls_guarantee.specs.Conversions.{Converts};
ghost use Rattle.hls_guarantee.specs.Limits.{IsNarrow};
ghost use Rattle.hls_offer_laws.specs.Offered.{CanOffer, IsLent, IsOffered, IsShareOf};
ghost use Rattle.hls_offer_laws.specs.Candidates.{IsSize, IsWait, IsWindow, reservation};

use hls_chron::{Config, Terms};
use hls_derive::Place;
use hls_guarantee::{Guarantee, RuleName};
use hls_kinds::SeatFault;

/// More than nothing is offered only where something is lent.
pub fn offers_need_lending(place: &Place, haves: &[Guarantee], depth: u8)
    requires { CanOffer place.now haves.now }
    ensures { (wanted : Guarantee) → IsNarrow wanted → wanted ≢ Guarantee.Null →
        IsOffered place.now haves.now depth wanted → (lent : Guarantee) × IsLent place.now haves.now lent }
{}

/// Every tick and hard reservations are offered only where they are lent, hard blocks also where hard windows of
/// the same numbers are.
pub fn hard_offers_are_lent(place: &Place, haves: &[Guarantee], depth: u8)
    requires { CanOffer place.now haves.now }
    ensures all { IsOffered place.now haves.now depth Guarantee.All → IsLent place.now haves.now Guarantee.All }
    ensures blocks { (x y : ℕ) → IsOffered place.now haves.now depth (Guarantee.Resb true x y) →
        IsLent place.now haves.now (Guarantee.Resb true x y) ⊎ IsLent place.now haves.now (Guarantee.Resc true x y) }
    ensures windows { (x y : ℕ) → IsOffered place.now haves.now depth (Guarantee.Resc true x y) →
        IsLent place.now haves.now (Guarantee.Resc true x y) }
{}

/// What is offered of a window or a block is no more than one of the candidates, which is offered too.
pub fn windows_have_candidates(place: &Place, haves: &[Guarantee], depth: u8)
    requires { CanOffer place.now haves.now }
    ensures blocks { (x y : ℕ) → IsOffered place.now haves.now depth (Guarantee.Resb false x y) →
        (lent : Guarantee) × (best : ℕ) × IsLent place.now haves.now lent × IsWindow lent best y × (x ≤ best) ×
        IsOffered place.now haves.now depth (Guarantee.Resb false best y) }
    ensures windows { (x y : ℕ) → IsOffered place.now haves.now depth (Guarantee.Resc false x y) →
        (lent : Guarantee) × (best : ℕ) × IsLent place.now haves.now lent × IsWindow lent best y × (x ≤ best) ×
        IsOffered place.now haves.now depth (Guarantee.Resc false best y) }
{}

/// One tick is offered within no shorter a time than one of the candidates, within which it is offered too.
pub fn waits_have_candidates(place: &Place, haves: &[Guarantee], depth: u8)
    requires { CanOffer place.now haves.now }
    ensures { (wait : ℕ) → IsOffered place.now haves.now depth (Guarantee.Resc false 1 wait) →
        (lent : Guarantee) × (best : ℕ) × IsLent place.now haves.now lent × IsWait lent best × (best ≤ wait) ×
        IsOffered place.now haves.now depth (Guarantee.Resc false 1 best) }
{}

/// A share that is offered is that of something lent, or follows from it by `R1`, and that share is offered too.
pub fn shares_have_candidates(place: &Place, haves: &[Guarantee], depth: u8)
    requires { CanOffer place.now haves.now }
    ensures { (s d : Frac) → IsNarrow (Guarantee.Psbe s d) →
        IsOffered place.now haves.now depth (Guarantee.Psbe s d) →
        (lent share : Guarantee) × IsLent place.now haves.now lent × IsShareOf lent share ×
        ((share ≡ Guarantee.Psbe s d) ⊎ Converts RuleName.R1 share (Guarantee.Psbe s d)) ×
        IsOffered place.now haves.now depth share }
{}

/// Where there may be two conversions, the share of what is lent is offered, and all that follows from it by `R1`.
pub fn lesser_shares_are_offered(place: &Place, haves: &[Guarantee], depth: u8)
    requires can { CanOffer place.now haves.now }
    requires two { 2 ≤ depth }
    ensures share { (lent share : Guarantee) → IsLent place.now haves.now lent → IsShareOf lent share →
        IsOffered place.now haves.now depth share }
    ensures lesser { (lent share lesser : Guarantee) → IsLent place.now haves.now lent → IsShareOf lent share →
        Converts RuleName.R1 share lesser → IsOffered place.now haves.now depth lesser }
{}

/// What is offered for a reservation, but hard blocks, is offered for a soft one of no more ticks in the same period,
/// which is one of the sizes; hard blocks are offered for themselves alone.
pub fn reservations_have_sizes(haves: &[Guarantee], depth: u8)
    requires one { length haves.now ≡ 1 }
    requires each_have { All IsNarrow haves.now }
    ensures soft { (hard : Bool) (x y : ℕ) (wanted : Guarantee) → TermsInRange (Terms.Res hard x y) →
        IsNarrow wanted → ((ticks period : ℕ) → wanted ≢ Guarantee.Resb true ticks period) →
        IsOffered (reservation hard x y) haves.now depth wanted →
        (size : ℕ) × IsSize wanted size y × (size ≤ x) ×
        IsOffered (reservation false size y) haves.now depth wanted }
    ensures hard { (hard : Bool) (x y ticks period : ℕ) → TermsInRange (Terms.Res hard x y) →
        IsOffered (reservation hard x y) haves.now depth (Guarantee.Resb true ticks period) →
        (hard ≡ true) × (x ≡ ticks) × (y ≡ period) }
{}

/// Of every tick, a reservation of one of the sizes is enough where there may be two conversions, and a hard one for
/// itself.
pub fn sizes_are_enough(haves: &[Guarantee], depth: u8)
    requires one { length haves.now ≡ 1 }
    requires each_have { All IsNarrow haves.now }
    requires whole { slice_get haves.now 0 ≡ Some Guarantee.All }
    ensures soft { 2 ≤ depth → (x y : ℕ) (wanted : Guarantee) → TermsInRange (Terms.Res false x y) →
        IsNarrow wanted → IsSize wanted x y → IsOffered (reservation false x y) haves.now depth wanted }
    ensures hard { (x y : ℕ) → TermsInRange (Terms.Res true x y) →
        IsOffered (reservation true x y) haves.now depth (Guarantee.Resb true x y) }
{}

/// A full scheduler is full for all terms, and one that lacks room for some terms lacks it for all that ask for no
/// less.
pub fn dearer_terms_find_no_room(config: Config, terms: Terms, dearer: Terms)
    requires { room_asked config terms ≤ room_asked config dearer }
    ensures full { (b : Ledger) (seats : ℕ) → Applies config b terms (SeatFault.Full seats) →
        Applies config b dearer (SeatFault.Full seats) }
    ensures room { (b : Ledger) (free asked : ℕ) → Applies config b terms (SeatFault.NoRoom free asked) →
        Applies config b dearer (SeatFault.NoRoom free (room_asked config dearer)) }
{}
