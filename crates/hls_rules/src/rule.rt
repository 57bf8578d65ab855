// Rules, each kept beside what its calls answer.
ghost use Rattle.std.specs.Prelude.{◌≡◌, IfSome, false};
ghost use Rattle.hls_guarantee.specs.Limits.{IsValid};
ghost use Rattle.hls_guarantee.specs.Conversions.{Converts};
ghost use Rattle.hls_derive.specs.Answers.{Answers};
ghost use Rattle.hls_rules.specs.Book.{is_longer};

use crate::{converts, strongest};
use hls_guarantee::{Guarantee, RuleName};

/// What the rule of that name, one of `R1` to `R9`, answers to `have` where `want` is wanted: `want` where the rule
/// concludes it; else the strongest of its conclusions, which equals or gives by `R1` every other one; else `None`.
pub fn answer(name: RuleName, have: Guarantee, want: Guarantee) -> Option<Guarantee>
    requires name { is_longer name ≡ false }
    requires have { IsValid have }
    requires want { IsValid want }
    ensures exact { Answers name have want result }
    ensures sound { IfSome result (λ h. Converts name have h) }
{
    if converts(name, &have, &want) {
        Some(want)
    } else {
        strongest(name, &have)
    }
}

/// The rules that there are.
pub const RULES: [RuleName; 11] = [
    RuleName::R1,
    RuleName::R2,
    RuleName::R3,
    RuleName::R4,
    RuleName::R5,
    RuleName::R6,
    RuleName::R7,
    RuleName::R8,
    RuleName::R9,
    RuleName::R10,
    RuleName::R11,
];

/// What a rule calls: with a guarantee, and one that is wanted.
pub type Conclude = Box<dyn Fn(Guarantee, Guarantee) -> Option<Guarantee>>;

/// A rule, beside the facts that it may be called on every two valid guarantees, and that these calls
/// answer what the rule of its name answers.
#[derive(Drop)]
pub struct Rule {
    pub name: RuleName,
    pub step: Conclude,
    pub ghost callable: { (have want : _) → IsValid have → IsValid want → Conclude.pre step have want },
    pub ghost answers: { (have want : _) (result : _) → IsValid have → IsValid want →
        Conclude.post step have want result → Answers name have want result },
}

impl Rule {
    /// The rule of that name that is called so.
    pub fn new(name: RuleName, step: Conclude) -> Self
        requires callable { (have want : _) → IsValid have → IsValid want → Conclude.pre step have want }
        requires answers { (have want : _) (result : _) → IsValid have → IsValid want →
            Conclude.post step have want result → Answers name have want result }
        ensures named { result.name ≡ name }
        ensures called { result.step ≡ step }
    {
        Rule { name, step }
    }

    /// What the rule answers to `have` where `want` is wanted.
    pub fn call(&self, have: Guarantee, want: Guarantee) -> Option<Guarantee>
        requires have { IsValid have }
        requires want { IsValid want }
        ensures exact { Answers self.now.name have want result }
        ensures sound { IfSome result (λ h. Converts self.now.name have h) }
    {
        self.told(have, want)
    }

    fn told(&self, have: Guarantee, want: Guarantee) -> Option<Guarantee>
        requires have { IsValid have }
        requires want { IsValid want }
        ensures { Answers self.now.name have want result }
    {
        (self.step)(have, want)
    }
}
