//! A worked run of a reservation: each function's contract is a fact about it, and its body does nothing.

ghost use Rattle.std.specs.Prelude.{◌≡◌, ℕ, List, [], ◌∷◌, ◌++◌, map, Some, Bool};
ghost use Rattle.hls_machine.specs.Hierarchy.{start};
ghost use Rattle.hls_machine.specs.Steps.{Admit, Elapse, Path, state};
ghost use Rattle.hls_machine.specs.Legal.{Can, IsLegal};
ghost use Rattle.hls_machine.specs.Supplied.{KeepsStays, ready_ticks, served_ticks};
ghost use Rattle.hls_test_runs.specs.Reserved.{reserved, reserved_ticks, reserved_stay, used_up, withdrawn, expired};
ghost use Rattle.hls_test_runs.specs.Reserved.{larger_seat, admit_larger};

/// A hard reservation of 2 ticks in every 4, whose thread is ready in all of five ticks, is served in
/// the first two and in the last, at its deadline. The stay is kept, as in every legal run.
pub fn the_reservation_is_legal()
    ensures legal { IsLegal start reserved }
    ensures ticks { map (λ (t : ℕ). ((state start reserved).past t).to) (0 ∷ 1 ∷ 2 ∷ 3 ∷ 4 ∷ []) ≡
        reserved_ticks }
    ensures stays { (state start reserved).stays ≡ (reserved_stay ∷ []) }
    ensures ready { ready_ticks (state start reserved) reserved_stay ≡ 5 }
    ensures served { served_ticks (state start reserved) reserved_stay ≡ 3 }
    ensures kept { KeepsStays (state start reserved) }
{}

/// Once its budget is used up, no tick serves the thread before its deadline, although nobody else
/// asks.
pub fn no_budget_is_served()
    ensures { (asking : ℕ → Bool) (masks : ℕ → ℕ) (path : Path) →
        ¬ Can (state start used_up) (Elapse asking masks (Some path)) }
{}

/// The parts of a reservation that is withdrawn are held to its deadline: another that needs them may
/// not be admitted before, in whichever slot, and may then.
pub fn withdrawn_parts_are_held()
    ensures held { (k : ℕ) (name : List ℕ) (slot : ℕ) →
        ¬ Can (state start withdrawn) (Admit k name (larger_seat slot)) }
    ensures expired { IsLegal start (expired ++ admit_larger ∷ []) }
{}
