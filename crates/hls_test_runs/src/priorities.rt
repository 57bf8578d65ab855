//! Worked runs of fixed priority: each function's contract is a fact about one, and its body does nothing.

ghost use Rattle.std.specs.Prelude.{◌≡◌, ◌≢◌, ℕ, List, [], ◌∷◌, map, Bool};
ghost use Rattle.hls_chron.specs.declared.plain.Config.TheVariants.{Fp};
ghost use Rattle.hls_chron.specs.declared.plain.Terms.TheVariants.{Prio};
ghost use Rattle.hls_guarantee.specs.declared.Guarantee.{Guarantee};
ghost use Rattle.hls_guarantee.specs.declared.Guarantee.TheVariants.{All, Null};
ghost use Rattle.hls_machine.specs.Derived.{Follows};
ghost use Rattle.hls_machine.specs.Hierarchy.{start};
ghost use Rattle.hls_machine.specs.Steps.{state};
ghost use Rattle.hls_machine.specs.Legal.{MayTake, CanMove, IsLegal};
ghost use Rattle.hls_machine.specs.Supplied.{accounts, ready_ticks, served_ticks};
ghost use Rattle.hls_test_runs.specs.Example.{example, example_ticks, first_stay, second_stay};
ghost use Rattle.hls_test_runs.specs.Moves.{moves, moves_ticks, moves_stays, branch, branch_seat};
ghost use Rattle.hls_test_runs.specs.Moves.{later_branch_seat, behind_helper, before_first, before_second};

/// The example is a legal run: two ticks serve the player, before and after its move, and its burst
/// is used up then.
pub fn the_example_is_legal()
    ensures legal { IsLegal start example }
    ensures ticks { map (λ (t : ℕ). ((state start example).past t).to) (0 ∷ 1 ∷ 2 ∷ []) ≡ example_ticks }
    ensures stays { (state start example).stays ≡ (first_stay ∷ second_stay ∷ []) }
{}

/// Moves below fixed priority are a legal run: a thread moves to a later seat, and then the scheduler
/// below which it sits does, with the thread on it. Each tick serves whom the seats of that tick put
/// first, and each move ends a stay of the thread and begins the next.
///
/// Before its own move the thread has every tick. So the scheduler may not move behind the other
/// thread: neither as one that goes on to have every tick, nor as one that has nothing, although it
/// may take that seat.
pub fn the_moves_are_legal()
    ensures legal { IsLegal start moves }
    ensures ticks { map (λ (t : ℕ). ((state start moves).past t).to) (0 ∷ 1 ∷ 2 ∷ 3 ∷ 4 ∷ 5 ∷ []) ≡
        moves_ticks }
    ensures stays { (state start moves).stays ≡ moves_stays }
    ensures accounts { accounts (state start moves) ≡ moves_stays }
    ensures ready { map (ready_ticks (state start moves)) moves_stays ≡ (4 ∷ 6 ∷ 1 ∷ 1 ∷ []) }
    ensures served { map (served_ticks (state start moves)) moves_stays ≡ (4 ∷ 1 ∷ 1 ∷ 0 ∷ []) }
    ensures first_refusal { (slot : ℕ) (below : ℕ → Bool) →
        ¬ CanMove (state start before_first) branch (behind_helper slot All) below }
    ensures second_refusal { (slot : ℕ) (below : ℕ → Bool) →
        ¬ CanMove (state start before_second) branch (behind_helper slot Null) below }
    ensures takes { MayTake (state start before_second) (branch_seat ∷ []) later_branch_seat }
{}

/// What the two refused moves lack: a seat behind another does not give every tick, and a scheduler
/// that is given nothing gives no seat every tick.
pub fn refused_moves_lack_derivations()
    ensures behind { (haves : List Guarantee) (priority : ℕ) → priority ≢ 0 →
        ¬ Follows Fp (Prio priority) haves All }
    ensures from_nothing { (priority : ℕ) → ¬ Follows Fp (Prio priority) (Null ∷ []) All }
{}
