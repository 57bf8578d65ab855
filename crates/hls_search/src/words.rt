// The words of rules that are asked for a conversion.
ghost use Rattle.std.specs.Prelude.{◌≡◌, ℕ, ◌≤◌, ◌↔◌, IfSome, IsNone, IsTrue, All, length, map};
ghost use Rattle.hls_guarantee.specs.Limits.{IsValid};
ghost use Rattle.hls_guarantee.specs.Conversions.{Converts};
ghost use Rattle.hls_derive.specs.Answers.{Answers};
ghost use Rattle.hls_search_laws.specs.Words as law;
ghost use Rattle.hls_search_laws.specs.Words.{Walks, IsFound};
ghost use Rattle.hls_search.specs.Inside.Chains.{LeadsTo};

use crate::chain::Chain;
use crate::rates::is_faster;
use hls_derive::Step;
use hls_guarantee::{Guarantee, RuleName};
use hls_rules::{Rule, RuleBook};

/// Rules that are asked one after the other. What conversions reach at all, one of these words reaches with
/// no more of them. `R10` concludes all that `R3` does, which stands before it so that derivations name the
/// older rule where they can.
const WORDS: [&[RuleName]; 19] = [
    &[],
    &[RuleName::R1],
    &[RuleName::R2],
    &[RuleName::R3],
    &[RuleName::R4],
    &[RuleName::R5],
    &[RuleName::R6],
    &[RuleName::R7],
    &[RuleName::R8],
    &[RuleName::R9],
    &[RuleName::R10],
    &[RuleName::R11],
    &[RuleName::R2, RuleName::R1],
    &[RuleName::R4, RuleName::R1],
    &[RuleName::R4, RuleName::R6],
    &[RuleName::R5, RuleName::R1],
    &[RuleName::R5, RuleName::R6],
    &[RuleName::R10, RuleName::R7],
    &[RuleName::R11, RuleName::R7],
];

/// At most `room` conversions from one guarantee to another: the first word that leads there. No rule is asked
/// where what is wanted comes at a higher rate.
pub fn convert(book: &RuleBook, from: &Guarantee, want: &Guarantee, room: usize) -> Option<Chain>
    requires from { IsValid from.now }
    requires want { IsValid want.now }
    ensures found { IfSome result (λ chain. LeadsTo room from.now want.now chain) }
    ensures none { IsNone result → IsFound room from.now want.now → ⊥ }
{
    if is_faster(want, from) {
        return None;
    }
    first_walk(book, &WORDS, from, want, room)
}

/// The conversions of the first of these words, of at most `room` rules, that leads to what is wanted.
fn first_walk(
    book: &RuleBook,
    words: &[&[RuleName]],
    from: &Guarantee,
    want: &Guarantee,
    room: usize,
) -> Option<Chain>
    requires short { All (λ (word : _). length word.now ≤ 2) words.now }
    requires from { IsValid from.now }
    requires want { IsValid want.now }
    ensures found { IfSome result (λ chain. LeadsTo room from.now want.now chain) }
    ensures none { IsNone result → All (λ (word : _). length word ≤ room → Walks word from.now want.now → ⊥)
        (map (λ (word : _). word.now) words.now) }
{
    for word in words {
        if word.len() <= room
            && let Some(chain) = walk(book, word, from, want)
        {
            return Some(chain);
        }
    }
    None
}

/// The conversions of a word, where its rules lead to what is wanted.
fn walk(book: &RuleBook, word: &[RuleName], from: &Guarantee, want: &Guarantee) -> Option<Chain>
    requires short { length word.now ≤ 2 }
    requires from { IsValid from.now }
    requires want { IsValid want.now }
    ensures found { IfSome result (λ chain. LeadsTo (length word.now) from.now want.now chain) }
    ensures none { IsNone result → Walks word.now from.now want.now → ⊥ }
{
    let mut chain = Chain::none();
    let mut reached = *from;
    let mut left = word;
    while let Some((rule, rest)) = left.split_first() {
        let to = ask(book, *rule, &reached, &asked_before(rest, want))?;
        chain.push(Step { rule: *rule, to });
        reached = to;
        left = rest;
    }
    if is_same(&reached, want) {
        Some(chain)
    } else {
        None
    }
}

/// What a rule is asked for that these rules follow.
fn asked_before(rest: &[RuleName], want: &Guarantee) -> Guarantee
    requires { IsValid want.now }
    ensures same { result ≡ law.asked_before rest.now want.now }
    ensures valid { IsValid result }
{
    match *want {
        Guarantee::Resb { hard: false, x, y } if !rest.is_empty() => {
            Guarantee::Resc { hard: false, x, y }
        }
        other => other,
    }
}

/// What the rule of that name answers to `have` where `want` is wanted.
pub fn ask(book: &RuleBook, name: RuleName, have: &Guarantee, want: &Guarantee) -> Option<Guarantee>
    requires have { IsValid have.now }
    requires want { IsValid want.now }
    ensures exact { Answers name have.now want.now result }
    ensures sound { IfSome result (λ h. Converts name have.now h) }
{
    rule_of(book, name).call(*have, *want)
}

/// The rule of that name.
fn rule_of(book: &RuleBook, name: RuleName) -> &Rule
    ensures { result.now.name ≡ name }
{
    for at in 0..book.len() {
        let rule = book.rule(at);
        if is_named(rule, name) {
            return rule;
        }
    }
    unreachable!()
}

fn is_named(rule: &Rule, name: RuleName) -> bool
    ensures { IsTrue result ↔ (rule.now.name ≡ name) }
{
    rule.name == name
}

fn is_same(g: &Guarantee, h: &Guarantee) -> bool
    ensures { IsTrue result ↔ (g.now ≡ h.now) }
{
    g == h
}
