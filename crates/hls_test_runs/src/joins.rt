//! A worked run with a join: each function's contract is a fact about it, and its body does nothing.

ghost use Rattle.std.specs.Prelude.{◌≡◌, ℕ, List, [], ◌∷◌, map};
ghost use Rattle.hls_machine.specs.Hierarchy.{start};
ghost use Rattle.hls_machine.specs.Steps.{state};
ghost use Rattle.hls_machine.specs.Legal.{IsLegal};
ghost use Rattle.hls_machine.specs.Supplied.{KeepsStays, accounts, ready_ticks, served_ticks};
ghost use Rattle.hls_test_runs.specs.Joined.{joining, joining_ticks, joining_stays};

/// A join has a parent in reservations and one in round robin. Its thread gets the ticks of the
/// reservation first, and then turns, one about with another thread. Each stay is kept, as in every
/// legal run.
pub fn the_join_is_legal()
    ensures legal { IsLegal start joining }
    ensures ticks { map (λ (t : ℕ). ((state start joining).past t).to) (0 ∷ 1 ∷ 2 ∷ 3 ∷ []) ≡ joining_ticks }
    ensures stays { (state start joining).stays ≡ joining_stays }
    ensures accounts { accounts (state start joining) ≡ joining_stays }
    ensures ready { map (ready_ticks (state start joining)) joining_stays ≡ (4 ∷ 4 ∷ []) }
    ensures served { map (served_ticks (state start joining)) joining_stays ≡ (3 ∷ 1 ∷ []) }
    ensures kept { KeepsStays (state start joining) }
{}
