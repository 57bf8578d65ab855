// What is found of the text of a report.
ghost use Rattle.hls_guarantee.specs.Limits.{IsValid};
ghost use Rattle.hls_report_text.specs.WellFormed.{IsWellFormed};

use crate::ways::first_other_path;
use hls_guarantee::Guarantee;
use hls_report::{Report, read_report, write_report};
use hls_rules::{RULES, Rule, RuleBook};
use hls_rules2::answer_of;
use hls_test_accounts::{accounts_of, idle_of};
use hls_test_answers::first_other_answer;
use std::alloc::{AllocError, Global};

/// The longest text that is judged.
const LONGEST: usize = 1_000_000;

/// How many boxes of each kind there were in a run that is judged.
const BOXES: u32 = 64;

/// The most ticks of a report whose paths are looked at, which takes long.
const TICKS: u32 = 500;

/// What is found of a report: the first thing in this order that is not as it should be.
#[derive(Clone, Copy, PartialEq, Eq)]
pub enum Finding {
    AsTold,
    NoReport,
    OtherAnswer,
    OtherPath,
    OtherAccounts,
    OtherText,
}

impl Finding {
    /// What is found, in words.
    pub fn words(self) -> &'static str {
        match self {
            Finding::AsTold => "as told",
            Finding::NoReport => "no report",
            Finding::OtherAnswer => "another answer",
            Finding::OtherPath => "another path",
            Finding::OtherAccounts => "other accounts",
            Finding::OtherText => "another text",
        }
    }
}

/// Whether the accounts and the idle ticks are those that the commands and runs give.
fn tells_its_accounts(alloc: Global, report: &Report) -> Result<bool, AllocError> {
    let accounts = accounts_of(alloc, report)?;
    Ok(accounts.as_slice() == report.accounts.items() && idle_of(report) == report.idle)
}

/// Whether the processor goes along the choices of the schedulers in each tick, where there are not too many.
fn tells_its_paths(alloc: Global, report: &Report) -> Result<bool, AllocError> {
    Ok(report.horizon > TICKS || first_other_path(alloc, report)?.is_none())
}

/// What is found of a report that was read from a text.
fn found(
    alloc: Global,
    rules: &RuleBook,
    report: &Report,
    text: &[u8],
) -> Result<Finding, AllocError>
    requires { IsWellFormed report.now }
{
    if first_other_answer(alloc, rules, BOXES, report)?.is_some() {
        return Ok(Finding::OtherAnswer);
    }
    if !tells_its_paths(alloc, report)? {
        return Ok(Finding::OtherPath);
    }
    if !tells_its_accounts(alloc, report)? {
        return Ok(Finding::OtherAccounts);
    }
    let again = write_report(alloc, report)?;
    if again.as_slice() == text {
        Ok(Finding::AsTold)
    } else {
        Ok(Finding::OtherText)
    }
}

/// What is found of a text, which tells of a run with 64 boxes of each kind and the eleven rules.
///
/// # Errors
///
/// Want of memory.
pub fn judged(alloc: Global, text: &[u8]) -> Result<Finding, AllocError> {
    let mut rules = Vec::new(alloc);
    for name in RULES {
        let step = Box::new(
            alloc,
            move |have: Guarantee, want: Guarantee| -> Option<Guarantee>
                requires have { IsValid have }
                requires want { IsValid want }
            { answer_of(name, have, want) },
        )?;
        rules.push(Rule::new(name, step))?;
    }
    let book = RuleBook::new(rules);
    if text.len() > LONGEST {
        return Ok(Finding::NoReport);
    }
    match read_report(alloc, text) {
        Ok(report) => found(alloc, &book, &report, text),
        Err(_) => Ok(Finding::NoReport),
    }
}
