//! A worked run of fair queueing, with a move: each function's contract is a fact about it, and its body does
//! nothing.

ghost use Rattle.std.specs.Prelude.{◌≡◌, ◌≢◌, ℕ, List, [], ◌∷◌, map, Some, Bool};
ghost use Rattle.hls_machine.specs.Hierarchy.{start};
ghost use Rattle.hls_machine.specs.Steps.{Elapse, Path, state};
ghost use Rattle.hls_machine.specs.Legal.{Can, IsLegal};
ghost use Rattle.hls_machine.specs.Supplied.{KeepsStays, accounts, ready_ticks, served_ticks};
ghost use Rattle.hls_test_runs.specs.Shared.{shared, shared_ticks, shared_stays, before_ticks, moved, lighter};

/// Two threads of weights 1 and 2, ready throughout, share four ticks, and the lighter moves onto the
/// same terms after the first. Its share begins anew then, so the heavier is served once more before
/// it. Each stay is kept, as in every legal run.
pub fn the_shares_are_legal()
    ensures legal { IsLegal start shared }
    ensures ticks { map (λ (t : ℕ). ((state start shared).past t).to) (0 ∷ 1 ∷ 2 ∷ 3 ∷ []) ≡ shared_ticks }
    ensures stays { (state start shared).stays ≡ shared_stays }
    ensures accounts { accounts (state start shared) ≡ shared_stays }
    ensures ready { map (ready_ticks (state start shared)) shared_stays ≡ (1 ∷ 4 ∷ 3 ∷ []) }
    ensures served { map (served_ticks (state start shared)) shared_stays ≡ (0 ∷ 3 ∷ 1 ∷ []) }
    ensures kept { KeepsStays (state start shared) }
{}

/// No share starts at tag zero: else the lighter thread, in the least slot, would be served in the
/// first tick, and again as soon as it has moved.
pub fn no_share_starts_at_zero()
    ensures first { (asking : ℕ → Bool) (masks : ℕ → ℕ) (path : Path) →
        Can (state start before_ticks) (Elapse asking masks (Some path)) → path.thread ≢ lighter }
    ensures moved { (asking : ℕ → Bool) (masks : ℕ → ℕ) (path : Path) →
        Can (state start moved) (Elapse asking masks (Some path)) → path.thread ≢ lighter }
{}
