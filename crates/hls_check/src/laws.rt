//! What holds of derivations that are checked: each function's contract is a law, and its body does nothing.

ghost use Rattle.std.specs.Prelude.{◌≡◌, ℕ, ◌↔◌, Bool, List, Some, slice_get};
ghost use Rattle.hls_chron.specs.Ledger.{Ledger, now_of};
ghost use Rattle.hls_chron.specs.Seats.{asked, served};
ghost use Rattle.hls_kinds.specs.declared.tenant.Tenant.TheVariants.{Sits};
ghost use Rattle.hls_kinds.specs.Tenants.{tenant_at, settled_at};
ghost use Rattle.hls_guarantee.specs.Supply.{Supplies};
ghost use Rattle.hls_book.specs.Promise.{given, asked_by, HasPorts, KeepsPromise};
ghost use Rattle.hls_derive.specs.Derives.{IsDerivation};
ghost use Rattle.hls_check.specs.Checking.{StepHolds};

use hls_chron::Config;
use hls_derive::{Derivation, Place};
use hls_guarantee::Guarantee;

/// A derivation carries supply from a scheduler to a seat. Take any book that keeps its promise, and in it a
/// seat on the terms of the place. Where the derivation's port has supplied the guarantee with which the
/// derivation begins since the start or the last settling, the seat has been supplied with the guarantee in
/// which it ends, since then or since its seating if that is later.
pub fn derivations_carry_supply(place: Place, have: Guarantee, want: Guarantee)
    ensures { (haves : List Guarantee) (d : Derivation) (b : Ledger) (slot since : ℕ) →
        IsDerivation place haves want d → slice_get haves d.sched.port ≡ Some have →
        KeepsPromise place.config b → HasPorts place.config b →
        tenant_at b slot ≡ Sits place.terms since →
        Supplies have (given b d.sched.port) (asked_by place.config b) (settled_at b) (now_of b) →
        Supplies want (served b slot) (asked b slot) since (now_of b) }
{}

/// The processor, which has no book, lends its ticks as they are: what supplies the guarantee with which a
/// derivation at the processor begins supplies the one in which it ends.
pub fn processor_carries_supply(place: Place, have: Guarantee, want: Guarantee)
    requires { place.config ≡ Config.Cpu }
    ensures { (haves : List Guarantee) (d : Derivation) (ticks asks : ℕ → Bool) (lo hi : ℕ) →
        IsDerivation place haves want d → slice_get haves d.sched.port ≡ Some have →
        Supplies have ticks asks lo hi → Supplies want ticks asks lo hi }
{}

/// A derivation is one exactly where each of its steps holds.
pub fn derivations_hold_step_by_step(place: Place, want: Guarantee)
    ensures { (haves : List Guarantee) (d : Derivation) →
        IsDerivation place haves want d ↔ ((step : ℕ) → StepHolds place haves want d step) }
{}
