// Commands that are carried out, once more where memory was wanting.
ghost use Rattle.std.specs.Prelude.{◌<◌, ◌≤◌, ◌-◌, IfOk, OnOk, OnErr};
ghost use Rattle.std.specs.List.{AllByRecursion};
ghost use Rattle.hls_scenario.specs.Grammar.{IsCommand};
ghost use Rattle.hls_sched.specs.GoodKit.{IsGood};
ghost use Rattle.hls_sched.specs.Boxed.{boxed};
ghost use Rattle.hls_tree.specs.Trees.{Stands, Any};
ghost use Rattle.hls_test_manager.specs.Standing.{MayCarry};

use crate::showing::shown;
use hls_chron::List;
use hls_manager::{admit, shift, withdraw};
use hls_report_text::{Answer, put_refusal};
use hls_rules::RuleBook;
use hls_scenario::{Command, Item, print_command};
use hls_sched::{Kit, Scheduler};
use hls_text::put;
use hls_tree::Tree;
use std::alloc::{AllocError, Global};

/// How many conversions a derivation may have.
const DEPTH: u8 = 3;

/// How many commands there may be.
const COMMANDS: u32 = 64;

/// The version of the language whose commands are carried out, which has those of version 1 too.
const VERSION: u8 = 2;

/// Carries a command out, the next of so many that are left. Wakes and blocks are no calls of the manager.
fn carry_out(
    alloc: Global,
    tree: &mut Tree,
    kit: &mut Kit,
    rules: &RuleBook,
    left: u32,
    command: &Command,
) -> Result<Answer, AllocError>
    requires command { IsCommand 2 command.now }
    requires some { 0 < left }
    requires few { left ≤ 64 }
    requires kit { IsGood (boxed seen) kit.old }
    requires stands { Stands seen tree.old (MayCarry left) }
    ensures carried { IfOk result (λ _. Stands seen tree.new (MayCarry (left - 1))) }
    ensures unchanged { OnErr result (Stands seen tree.new (MayCarry left)) }
    ensures good { IsGood (boxed seen) kit.new }
{
    match command {
        Command::Load { .. } | Command::Thread { .. } => {
            admit(alloc, tree, kit, rules, DEPTH, COMMANDS, command)
        }
        Command::End { .. } | Command::Unload { .. } => Ok(withdraw(alloc, tree, command)),
        Command::Move { .. } => shift(alloc, tree, rules, DEPTH, command),
        _ => Ok(Answer::Done(List::of(Vec::new(alloc)))),
    }
}

/// Carries a command out, once more where memory was wanting, and says where tree or kit were then not as before.
fn carry_anyway(
    alloc: Global,
    tree: &mut Tree,
    kit: &mut Kit,
    rules: &RuleBook,
    left: u32,
    command: &Command,
    text: &mut Vec<u8>,
) -> Result<Answer, AllocError>
    requires command { IsCommand 2 command.now }
    requires some { 0 < left }
    requires few { left ≤ 64 }
    requires kit { IsGood (boxed seen) kit.old }
    requires stands { Stands seen tree.old (MayCarry left) }
    ensures carried { IfOk result (λ _. Stands seen tree.new (MayCarry (left - 1))) }
    ensures good { IsGood (boxed seen) kit.new }
{
    let before = shown(alloc, tree, kit)?;
    match carry_out(alloc, tree, kit, rules, left, command) {
        Ok(answer) => Ok(answer),
        Err(_) => {
            let after = shown(alloc, tree, kit)?;
            if after != before {
                put(text, b"not as before: ")?;
            }
            carry_out(alloc, tree, kit, rules, left, command)
        }
    }
}

/// Tells a command and its answer.
fn tell(
    alloc: Global,
    command: &Command,
    answer: &Answer,
    text: &mut Vec<u8>,
) -> Result<(), AllocError>
    requires { IsCommand 2 command.now }
{
    let words = print_command(alloc, VERSION, command)?;
    put(text, &words)?;
    match answer {
        Answer::Done(_) => put(text, b"\n= done\n"),
        Answer::Refused(refusal) => {
            put(text, b"\n= refused ")?;
            put_refusal(text, refusal)?;
            put(text, b"\n")
        }
    }
}

/// Carries a command out, and tells of it.
fn carry_and_tell(
    alloc: Global,
    tree: &mut Tree,
    kit: &mut Kit,
    rules: &RuleBook,
    left: u32,
    command: &Command,
    text: &mut Vec<u8>,
) -> Result<(), AllocError>
    requires command { IsCommand 2 command.now }
    requires some { 0 < left }
    requires few { left ≤ 64 }
    requires kit { IsGood (boxed seen) kit.old }
    requires stands { Stands seen tree.old (MayCarry left) }
    ensures carried { OnOk result (Stands seen tree.new (MayCarry (left - 1))) }
    ensures good { IsGood (boxed seen) kit.new }
{
    let answer = carry_anyway(alloc, tree, kit, rules, left, command, text)?;
    tell(alloc, command, &answer, text)
}

/// Carries commands out, and tells of each.
pub fn carry_all(
    alloc: Global,
    tree: &mut Tree,
    kit: &mut Kit,
    rules: &RuleBook,
    items: &[Item],
    text: &mut Vec<u8>,
) -> Result<(), AllocError>
    requires commands { AllByRecursion (λ item. IsCommand 2 item.command) items.now }
    requires kit { IsGood (boxed seen) kit.old }
    requires stands { Stands seen tree.old (MayCarry 64) }
    ensures { OnOk result (Stands seen tree.new Any) }
{
    let mut left = COMMANDS;
    for item in items {
        if left == 0 {
            return Ok(());
        }
        carry_and_tell(alloc, tree, kit, rules, left, &item.command, text)?;
        left -= 1;
    }
    Ok(())
}
