// What a request would be answered, of which nothing is carried out.
ghost use Rattle.std.specs.Prelude.{◌≡◌, ◌≤◌, IfOk};
ghost use Rattle.hls_scenario.specs.declared.scenario.Command.TheVariants.{Thread, Move};
ghost use Rattle.hls_scenario.specs.Grammar.{IsCommand};
ghost use Rattle.hls_report_text.specs.WellFormed.{MayAnswer as IsWellFormed};
ghost use Rattle.hls_machine.specs.Legal.{IsReached};
ghost use Rattle.hls_legal.specs.Moment.{Moment};
ghost use Rattle.hls_legal.specs.Answers.{IsAnswer};
ghost use Rattle.hls_tree.specs.Trees.{IsTreeOf, Stands};
ghost use Rattle.hls_manager.specs.Inside.Told.{IsToldBy};
ghost use Rattle.hls_manager.specs.Outcomes.{IsRequest};

use crate::derivations::derive;
use crate::rederiving::Rederived;
use crate::settling::settle;
use crate::shifting::place;
use crate::threads::{done_with, offer};
use hls_chron::Name;
use hls_report_text::{Answer, Refusal};
use hls_rules::RuleBook;
use hls_scenario::{Command, Perch};
use hls_sched::Scheduler;
use hls_tree::Tree;
use std::alloc::{AllocError, Global};

/// What an admission of a thread, or a move, would be answered as the tree stands. Nothing is carried out.
///
/// # Errors
/// Returns `AllocError` for want of memory.
pub fn ask(
    alloc: Global,
    tree: &Tree,
    rules: &RuleBook,
    depth: u8,
    command: &Command,
) -> Result<Answer, AllocError>
    requires kind { IsRequest command.now }
    requires command { IsCommand 2 command.now }
    requires depth { depth ≤ 6 }
    requires stands { Stands seen tree.now IsReached }
    ensures is { IfOk result (λ answer. (m : Moment) → m.depth ≡ depth → IsTreeOf seen tree.now m.hierarchy →
        IsReached m.hierarchy → IsAnswer m command.now answer) }
    ensures formed { IfOk result (λ answer. IsWellFormed command.now answer) }
{
    match command {
        Command::Thread { name, perch } => ask_thread(alloc, tree, rules, depth, name, perch),
        Command::Move { name, perch } => ask_move(alloc, tree, rules, depth, name, perch),
        _ => unreachable!(),
    }
}

/// What the admission of a thread would be answered.
fn ask_thread(
    alloc: Global,
    tree: &Tree,
    rules: &RuleBook,
    depth: u8,
    name: &Name,
    perch: &Perch,
) -> Result<Answer, AllocError>
    requires command { IsCommand 2 (Thread name.now perch.now) }
    requires depth { depth ≤ 6 }
    requires stands { Stands seen tree.now IsReached }
    ensures is { IfOk result (λ answer. (m : Moment) → m.depth ≡ depth → IsTreeOf seen tree.now m.hierarchy →
        IsReached m.hierarchy → IsAnswer m (Thread name.now perch.now) answer) }
    ensures formed { IfOk result (λ answer. IsWellFormed (Thread name.now perch.now) answer) }
{
    let seat = match offer(tree, name, perch) {
        Ok(seat) => seat,
        Err(refusal) => return Ok(Answer::Refused(refusal)),
    };
    match derive(alloc, tree, rules, depth, &seat)? {
        Some(derivation) => done_with(alloc, name, derivation),
        None => Ok(Answer::Refused(Refusal::NoDerivation { name: *name, depth })),
    }
}

/// What a move would be answered.
fn ask_move(
    alloc: Global,
    tree: &Tree,
    rules: &RuleBook,
    depth: u8,
    name: &Name,
    perch: &Perch,
) -> Result<Answer, AllocError>
    requires command { IsCommand 2 (Move name.now perch.now) }
    requires depth { depth ≤ 6 }
    requires stands { Stands seen tree.now IsReached }
    ensures is { IfOk result (λ answer. (m : Moment) → m.depth ≡ depth → IsTreeOf seen tree.now m.hierarchy →
        IsReached m.hierarchy → IsAnswer m (Move name.now perch.now) answer) }
    ensures formed { IfOk result (λ answer. IsWellFormed (Move name.now perch.now) answer) }
{
    match place(tree, name, perch) {
        Err(refusal) => Ok(Answer::Refused(refusal)),
        Ok((id, seat)) => match settle(alloc, tree, rules, depth, name, id, &seat) {
            Ok(told) => Ok(answer_of(depth, told)),
            Err(error) => Err(error),
        },
    }
}

/// The answer that what is found for the seats of a move comes to.
fn answer_of(depth: u8, told: Rederived) -> Answer
    ensures { IsToldBy depth told result }
{
    match told {
        Rederived::All(seats) => Answer::Done(seats),
        Rederived::Lacks { name } => Answer::Refused(Refusal::NoDerivation { name, depth }),
    }
}
