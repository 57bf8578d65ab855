//! What holds of chains of conversions: each function's contract is a law, and its body does nothing.

ghost use Rattle.std.specs.Prelude.{◌≡◌, ◌≢◌, ◌≤◌, ◌⊎◌, ℕ, true, List, length};
ghost use Rattle.hls_guarantee.specs.declared.rule.RuleName.{RuleName};
ghost use Rattle.hls_guarantee.specs.Limits.{IsValid};
ghost use Rattle.hls_guarantee.specs.Satisfaction.{IsSoft};
ghost use Rattle.hls_guarantee.specs.Conversions.{Converts};
ghost use Rattle.hls_derive.specs.declared.derivation.Step.{Step};
ghost use Rattle.hls_derive.specs.Derivation.{end_of};
ghost use Rattle.hls_derive.specs.Derives.{FollowsBy};
ghost use Rattle.hls_search_laws.specs.Rates.{IsFaster, IsNoBetter};
ghost use Rattle.hls_search_laws.specs.Words.{rules_of, Reaches, IsWord, IsFound, IsNeeded};

use hls_frac::Frac;
use hls_guarantee::Guarantee;

/// A derivation's conversions are a chain by their rules, and each chain of conversions is a derivation's.
pub fn derivations_have_such_chains(g: Guarantee, h: Guarantee)
    ensures chain { (steps : List Step) → FollowsBy g steps → Reaches (rules_of steps) g (end_of g steps) }
    ensures derivation { (chain : List RuleName) → Reaches chain g h → (steps : List Step) ×
        (rules_of steps ≡ chain) × FollowsBy g steps × (end_of g steps ≡ h) }
{}

/// Conversions raise no rate and shorten no delay, but where they end in nothing.
pub fn conversions_gain_nothing(g: Guarantee)
    requires { IsValid g }
    ensures { (steps : List Step) → FollowsBy g steps → end_of g steps ≢ Guarantee.Null →
        IsNoBetter (end_of g steps) g }
{}

/// No conversions lead to a higher rate than there is.
pub fn conversions_reach_no_higher_rate(g: Guarantee)
    requires { IsValid g }
    ensures { (steps : List Step) → FollowsBy g steps → IsFaster (end_of g steps) g → ⊥ }
{}

/// Every tick and hard windows are reached from themselves alone, and hard blocks also from hard windows of the same
/// numbers; from nothing only nothing is reached.
pub fn hard_promises_are_kept(g: Guarantee)
    ensures nothing { (chain : List RuleName) → Reaches chain Guarantee.Null g → g ≡ Guarantee.Null }
    ensures all { (chain : List RuleName) → Reaches chain g Guarantee.All → g ≡ Guarantee.All }
    ensures windows { (chain : List RuleName) (x y : ℕ) → Reaches chain g (Guarantee.Resc true x y) →
        g ≡ Guarantee.Resc true x y }
    ensures blocks { (chain : List RuleName) (x y : ℕ) → Reaches chain g (Guarantee.Resb true x y) →
        (g ≡ Guarantee.Resb true x y) ⊎ (g ≡ Guarantee.Resc true x y) }
{}

/// What a chain reaches from what more service never breaks, more service never breaks.
pub fn chains_keep_soft_promises(g: Guarantee, h: Guarantee)
    requires { IsSoft g }
    ensures { (chain : List RuleName) → Reaches chain g h → IsSoft h }
{}

/// What a chain of conversions reaches, one of the eighteen words reaches with no more of them.
pub fn words_reach_what_chains_reach(g: Guarantee)
    requires { IsValid g }
    ensures { (steps : List Step) → FollowsBy g steps → (word : List RuleName) × IsWord word ×
        (length word ≤ length steps) × Reaches word g (end_of g steps) }
{}

/// The answers of the rules of such a word lead there, each but the last asked for the windows of the wanted blocks.
pub fn answers_reach_what_chains_reach(g: Guarantee)
    requires { IsValid g }
    ensures { (steps : List Step) → FollowsBy g steps → IsFound (length steps) g (end_of g steps) }
{}

/// What chains reach from a share, one conversion reaches from each share that gives it by `R1`.
pub fn better_shares_reach_as_much(s: Frac, d: Frac, rate: Frac, error: Frac, h: Guarantee)
    requires { Converts RuleName.R1 (Guarantee.Psbe s d) (Guarantee.Psbe rate error) }
    ensures { (chain : List RuleName) → Reaches chain (Guarantee.Psbe rate error) h →
        IsFound 1 (Guarantee.Psbe s d) h }
{}

/// No word has more than two rules: what chains reach, two conversions reach.
pub fn words_have_at_most_two_rules()
    ensures { (word : List RuleName) → IsWord word → length word ≤ 2 }
{}

/// Each word is needed: somewhere no other word of at most so many rules leads from the same guarantee to the same.
pub fn each_word_is_needed()
    ensures { (word : List RuleName) → IsWord word → IsNeeded word }
{}
