//! What holds of answers and of books: each function's contract is a law, and its body does nothing.

ghost use Rattle.std.specs.Prelude.{◌≡◌, ℕ, ◌⊎◌, List, Option, Some, slice_get};
ghost use Rattle.hls_guarantee.specs.Limits.{IsValid};
ghost use Rattle.hls_guarantee.specs.Conversions.{Converts};
ghost use Rattle.hls_derive.specs.Answers.{Answers, IsStrongest};
ghost use Rattle.hls_rules.specs.Book.{EachOnce};

use crate::RULES;
use hls_guarantee::{Guarantee, RuleName};

/// A rule has one answer.
pub fn rules_have_one_answer(rule: RuleName, g: Guarantee, wanted: Guarantee)
    requires from { IsValid g }
    requires to { IsValid wanted }
    ensures { (first second : Option Guarantee) → Answers rule g wanted first →
        Answers rule g wanted second → first ≡ second }
{}

/// What a rule answers it concludes, and where it has a strongest conclusion it answers that, or concludes
/// what is wanted.
pub fn answers_are_conclusions(rule: RuleName, g: Guarantee, wanted: Guarantee, h: Guarantee)
    requires from { IsValid g }
    requires to { IsValid wanted }
    ensures sound { Answers rule g wanted (Some h) → Converts rule g h }
    ensures strongest { (answer : Option Guarantee) → Answers rule g wanted answer → IsStrongest rule g h →
        Converts rule g wanted ⊎ (answer ≡ Some h) }
{}

/// In the names of a book's rules each name stands at one place.
pub fn books_name_each_rule_at_one_place(name: RuleName)
    ensures { (names : List RuleName) → EachOnce names → (at : ℕ) × (slice_get names at ≡ Some name) ×
        ((other : ℕ) → slice_get names other ≡ Some name → other ≡ at) }
{}

/// The rules that there are name each of `R1` to `R11` once.
#[tactic(auto, using(crate::proofs::Eleven::each_once))]
pub fn rules_are_named_once()
    ensures { EachOnce RULES }
{}
