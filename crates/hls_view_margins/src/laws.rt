//! What margins tell: each function's contract is a law, and its body does nothing.

ghost use Rattle.std.specs.Prelude.{◌<◌, ◌↔◌, ℕ, Bool, Option};
ghost use Rattle.hls_guarantee.specs.declared.Guarantee.{Guarantee};
ghost use Rattle.hls_guarantee.specs.Limits.{IsValid};
ghost use Rattle.hls_guarantee.specs.Cap.{KeepsCap};
ghost use Rattle.hls_view_margins.specs.declared.margin.Room.{Room};
ghost use Rattle.hls_view_margins.specs.declared.margin.Spare.{Spare};
ghost use Rattle.hls_view_margins.specs.Judged.{IsSpare};
ghost use Rattle.hls_view_margins.specs.Rooms.{IsRoomOf};
ghost use Rattle.hls_view_margins.specs.Kept.{IsFine, IsRoomy, IsSpared, KeepsWindows, LacksAtMost};

/// A stay keeps its cap exactly where its room is not negative.
pub fn room_tells_whether_the_cap_is_kept()
    ensures { (kept : Guarantee) (served : ℕ → Bool) (lo hi : ℕ) (room : Option Room) → IsValid kept → lo < hi →
        IsRoomOf kept served lo hi room → (IsRoomy room ↔ KeepsCap kept served lo hi) }
{}

/// A stay that keeps its cap keeps its guarantee in every window exactly where its spare is not over and not negative.
pub fn spare_tells_whether_the_guarantee_is_kept()
    ensures { (kept : Guarantee) (ready served : ℕ → Bool) (lo hi : ℕ) (spare : Spare) → IsValid kept →
        IsSpare kept ready served lo hi spare → KeepsCap kept served lo hi →
        (IsFine spare ↔ KeepsWindows kept ready served lo hi) }
{}

/// Where a stay keeps its cap, and no part of it lacks more than what is to spare, it keeps its guarantee in every
/// window.
pub fn what_is_to_spare_may_be_taken_away()
    ensures { (kept : Guarantee) (ready served left : ℕ → Bool) (lo hi taken : ℕ) (spare : Spare) → IsValid kept →
        IsSpare kept ready served lo hi spare → KeepsCap kept served lo hi → IsSpared spare taken →
        LacksAtMost taken served left lo hi → KeepsWindows kept ready left lo hi }
{}
