//! What holds of the read calls: each function's contract is a law, and its body does nothing.

ghost use Rattle.hls_chron.specs.Ranges.{most_slots};
ghost use Rattle.std.specs.Prelude.{◌≡◌, ℕ, List, length, is_some};
ghost use Rattle.hls_chron.specs.Seats.{terms_at};
ghost use Rattle.hls_chron.specs.Ticks.{count};
ghost use Rattle.hls_machine.specs.Hierarchy.{start};
ghost use Rattle.hls_machine.specs.Steps.{Step, state};
ghost use Rattle.hls_machine.specs.Legal.{IsLegal};
ghost use Rattle.hls_machine.specs.Linked.{book_at};
ghost use Rattle.hls_tree.specs.Reads.{taken_on};

/// Where a legal run leads, the book of a scheduler has as many slots taken as there are seats on it in the list of the
/// tree: `slots_taken`, by which a refusal goes, and `seats_taken` are one number.
pub fn legal_runs_take_as_many_slots_as_seats()
    ensures { (steps : List Step) → IsLegal start steps → (k : ℕ) →
        count (λ slot. is_some (terms_at (book_at (state start steps) k) slot)) 0 most_slots
        ≡ length (taken_on (state start steps) k) }
{}
