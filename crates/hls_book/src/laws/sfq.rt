//! What holds of fair queueing: each function's contract is a law, and its body does nothing.

ghost use Rattle.std.specs.Prelude.{◌≡◌, ℕ, ◌+◌, ◌-◌, ◌*◌, ◌≤◌};
ghost use Rattle.hls_chron.specs.declared.plain.Terms.TheVariants.{Weight};
ghost use Rattle.hls_chron.specs.Kinds.{by_shares};
ghost use Rattle.hls_chron.specs.Ledger.{Ledger, now_of};
ghost use Rattle.hls_chron.specs.Ranges.{IsWithin};
ghost use Rattle.hls_kinds.specs.declared.tenant.Tenant.TheVariants.{Sits};
ghost use Rattle.hls_kinds.specs.Tenants.{tenant_then};
ghost use Rattle.hls_kinds.specs.Tags.{unit_tag, tag_step, time_by, start_tag};
ghost use Rattle.hls_kinds.specs.Shares.{KeepsSharesByWeight};
ghost use Rattle.hls_kinds.specs.Discipline.{KeepsDiscipline};
ghost use Rattle.hls_book.specs.Promise.{KeepsPromise};
ghost use Rattle.hls_book.specs.ShareBook.{KeepsShareBook};

use hls_chron::Sharing;

/// The start tag of a seat is never behind the virtual time, and at most a quantum's steps of its
/// weight ahead of it.
pub fn start_tags_are_near_virtual_time(sharing: Sharing)
    ensures { (b : Ledger) → KeepsShareBook sharing b → (t slot weight since : ℕ)
        → b.start ≤ t → t ≤ now_of b → tenant_then b slot t ≡ Sits (Weight weight) since
        → IsWithin (time_by sharing.quantum b (start_tag sharing.quantum b) t)
        (time_by sharing.quantum b (start_tag sharing.quantum b) t + sharing.quantum * tag_step weight)
        (start_tag sharing.quantum b t slot) }
{}

/// A start tag grows by at most a quantum of units for each tick since the start, so it fits 128 bits.
pub fn start_tags_are_small(sharing: Sharing)
    ensures { (b : Ledger) → KeepsShareBook sharing b → (t slot weight since : ℕ)
        → b.start ≤ t → t ≤ now_of b → tenant_then b slot t ≡ Sits (Weight weight) since
        → start_tag sharing.quantum b t slot ≤ (t - b.start + 1) * (sharing.quantum * unit_tag) }
{}

/// Two seats that ask side by side are served alike, each by its weight.
pub fn seats_are_served_by_weight(sharing: Sharing)
    ensures { (b : Ledger) → KeepsShareBook sharing b → KeepsSharesByWeight sharing.quantum b }
{}

/// Fair queueing keeps its discipline, by how it chooses and how its seats are admitted alone.
pub fn fair_queueing_keeps_discipline(sharing: Sharing)
    ensures { (b : Ledger) → KeepsShareBook sharing b → KeepsDiscipline (by_shares sharing) b }
{}

/// And it keeps its promise, whichever seats come and go: each seat has the share of its weight.
pub fn fair_queueing_promises(sharing: Sharing)
    ensures { (b : Ledger) → KeepsShareBook sharing b → KeepsPromise (by_shares sharing) b }
{}
