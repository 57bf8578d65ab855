//! The eleven rules, stored as closures, and what they answer.
ghost use Rattle.std.specs.Prelude.{IfOk};
ghost use Rattle.hls_guarantee.specs.Limits.{IsValid};

use hls_guarantee::{Guarantee, RuleName, read_guarantee};
use hls_rules::{RULES, Rule, RuleBook};
use hls_rules2::answer_of;
use std::process::Abort;
use std::test::Fail;

/// The guarantee of that text.
fn read(text: &str) -> Result<Guarantee, Fail>
    ensures { IfOk result (λ g. IsValid g) }
{
    Ok(read_guarantee(text.as_bytes()).ok_or("a guarantee")?)
}

/// The place of the stored rule of that name.
fn place_of(book: &RuleBook, name: RuleName) -> Option<usize> {
    for at in 0..book.len() {
        if book.rule(at).name == name {
            return Some(at);
        }
    }
    None
}

/// What the stored rule at that place answers, if there is one.
fn told_at(book: &RuleBook, at: usize, have: Guarantee, want: Guarantee) -> Option<Guarantee>
    requires have { IsValid have }
    requires want { IsValid want }
{
    if at < book.len() {
        return book.rule(at).call(have, want);
    }
    None
}

/// What the stored rule of that name answers.
fn told(
    book: &RuleBook,
    name: RuleName,
    have: &str,
    want: &str,
) -> Result<Option<Guarantee>, Fail> {
    match place_of(book, name) {
        Some(at) => Ok(told_at(book, at, read(have)?, read(want)?)),
        None => Ok(None),
    }
}

/// A rule, what is there, what is wanted, and the answer, which is empty for none.
type Case = (RuleName, &'static str, &'static str, &'static str);

const CASES: [Case; 30] = [
    (RuleName::R1, "RESCS 3 17", "RESCS 2 20", "RESCS 2 20"),
    (RuleName::R1, "RESCS 3 17", "RESCS 4 20", "RESCS 3 17"),
    (RuleName::R1, "ALL", "ALL", ""),
    (RuleName::R2, "RESBH 3 10", "RESBS 2 10", "RESBS 3 10"),
    (RuleName::R3, "RESBS 3 10", "RESCS 3 20", "RESCS 3 20"),
    (RuleName::R3, "RESBS 3 10", "RESCS 3 16", "RESCS 3 17"),
    (RuleName::R3, "RESBS 3 20000", "NULL", ""),
    (
        RuleName::R4,
        "RESBH 3 10",
        "PSBE 1/5 14/5",
        "PSBE 3/10 21/5",
    ),
    (RuleName::R5, "RESCS 3 10", "NULL", "PSBE 3/10 21/10"),
    (RuleName::R6, "PSBE 3/10 21/5", "RESCS 4 28", "RESCS 4 28"),
    (RuleName::R6, "PSBE 3/10 21/5", "RESCS 5 28", ""),
    (RuleName::R7, "RESCH 2 5", "NULL", "RESBH 2 5"),
    (RuleName::R8, "ALL", "PSBE 1 0", "PSBE 1 0"),
    (RuleName::R8, "ALL", "RESBH 1 2", ""),
    (RuleName::R9, "RESCH 2 5", "RESCH 2 5", "NULL"),
    (RuleName::R9, "ALL", "NULL", "NULL"),
    (RuleName::R10, "RESBS 3 10", "RESCS 2 16", "RESCS 2 16"),
    (RuleName::R10, "RESBS 3 10", "RESCS 2 15", ""),
    (RuleName::R10, "RESBH 3 10", "RESBS 2 16", ""),
    (RuleName::R10, "RESBH 1 2", "NULL", "RESCS 1 3"),
    (RuleName::R10, "RESBS 1 10000", "NULL", "RESCS 1 19999"),
    (RuleName::R10, "RESBS 1 10001", "NULL", ""),
    (RuleName::R10, "RESCS 1 2", "RESCS 1 3", ""),
    (RuleName::R11, "RESCH 2 5", "RESCS 4 10", "RESCS 4 10"),
    (RuleName::R11, "RESCH 2 5", "RESCS 4 14", "RESCS 4 14"),
    (RuleName::R11, "RESCH 2 5", "RESCS 5 14", ""),
    (RuleName::R11, "RESCS 2 5", "RESCS 1 4", ""),
    (RuleName::R11, "RESCH 3 10001", "NULL", "RESCS 3 10001"),
    (RuleName::R11, "RESCH 3 10000", "NULL", ""),
    (RuleName::R11, "ALL", "RESCS 1 2", ""),
];

/// The guarantee of that text, and none for an empty one.
fn expected(answer: &str) -> Result<Option<Guarantee>, Fail> {
    if answer.is_empty() {
        return Ok(None);
    }
    Ok(Some(read(answer)?))
}

/// Compares what the stored rules answer in all these cases.
fn all_answer(rt: &impl Abort, book: &RuleBook, cases: &[Case]) -> Result<(), Fail> {
    for at in 0..cases.len() {
        let (rule, have, want, answer) = cases[at];
        let answered = told(book, rule, have, want)?;
        assert_eq!(rt; answered, expected(answer)?, "{rule:?} {have} {want}");
    }
    Ok(())
}

#[test]
fn stored_rules_answer(rt: HostRuntime) -> Result<(), Fail> {
    let alloc = rt.alloc();
    let mut rules = Vec::new(alloc);
    for name in RULES {
        let step = Box::new(
            alloc,
            move |have: Guarantee, want: Guarantee| -> Option<Guarantee>
                requires have { IsValid have }
                requires want { IsValid want }
            { answer_of(name, have, want) },
        )?;
        rules.push(Rule::new(name, step))?;
    }
    let book = RuleBook::new(rules);
    all_answer(&rt, &book, &CASES)
}
