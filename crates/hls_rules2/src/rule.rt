// What the rules for longer windows answer.
ghost use Rattle.std.specs.Prelude.{◌≡◌, IfSome, true};
ghost use Rattle.hls_guarantee.specs.Limits.{IsValid};
ghost use Rattle.hls_guarantee.specs.Conversions.{Converts};
ghost use Rattle.hls_derive.specs.Answers.{Answers};
ghost use Rattle.hls_rules.specs.Book.{is_longer};

use hls_guarantee::{Guarantee, RuleName};
use hls_rules::{answer, converts, strongest};

/// What the rule of that name, `R10` or `R11`, answers to `have` where `want` is wanted: `want` where the rule
/// concludes it; else the strongest of its conclusions, which equals or gives by `R1` every other one; else `None`.
pub fn answer2(name: RuleName, have: Guarantee, want: Guarantee) -> Option<Guarantee>
    requires name { is_longer name ≡ true }
    requires have { IsValid have }
    requires want { IsValid want }
    ensures exact { Answers name have want result }
    ensures sound { IfSome result (λ h. Converts name have h) }
{
    if converts(name, &have, &want) {
        Some(want)
    } else {
        strongest(name, &have)
    }
}

/// What the rule of that name, whichever it is, answers: by `answer`, or by `answer2`.
pub fn answer_of(name: RuleName, have: Guarantee, want: Guarantee) -> Option<Guarantee>
    requires have { IsValid have }
    requires want { IsValid want }
    ensures exact { Answers name have want result }
    ensures sound { IfSome result (λ h. Converts name have h) }
{
    match name {
        RuleName::R10 | RuleName::R11 => answer2(name, have, want),
        RuleName::R1
        | RuleName::R2
        | RuleName::R3
        | RuleName::R4
        | RuleName::R5
        | RuleName::R6
        | RuleName::R7
        | RuleName::R8
        | RuleName::R9 => answer(name, have, want),
    }
}
