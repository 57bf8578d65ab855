// Threads and schedulers that are moved.
ghost use Rattle.std.specs.Prelude.{◌≡◌, ◌≤◌, ℕ, IfOk, IfErr, OnErr};
ghost use Rattle.hls_scenario.specs.declared.scenario.Command.TheVariants.{Move};
ghost use Rattle.hls_scenario.specs.Grammar.{IsCommand};
ghost use Rattle.hls_report_text.specs.WellFormed.{MayAnswer as IsWellFormed, IsRefusal};
ghost use Rattle.hls_machine.specs.Hierarchy.{Hierarchy};
ghost use Rattle.hls_legal.specs.Moment.{Moment};
ghost use Rattle.hls_legal.specs.Answers.{IsRefused};
ghost use Rattle.hls_tree.specs.Offers.{MayMove};
ghost use Rattle.hls_tree.specs.Trees.{IsTreeOf, Stands, IsAsBefore, Moves};
ghost use Rattle.hls_manager.specs.Inside.Shifts.{IsMovable};
ghost use Rattle.hls_manager.specs.Inside.Told.{IsTakenBy};
ghost use Rattle.hls_machine.specs.Legal.{IsReached};
ghost use Rattle.hls_manager.specs.Outcomes.{CarriesOut, HasMarkRoom, IsMove};

use crate::aiming::aim;
use crate::hindrances::hindrance;
use crate::rederiving::Rederived;
use crate::settling::settle;
use hls_chron::Name;
use hls_report_text::{Answer, Refusal};
use hls_rules::RuleBook;
use hls_scenario::{Command, Perch};
use hls_sched::Scheduler;
use hls_tree::{NodeId, Seat, Tree};
use std::alloc::{AllocError, Global};

/// Moves a thread, or a scheduler that is no join, to another seat, and answers. What is done tells the moved
/// seat first, and then the seats on it in the order in which they were taken.
///
/// # Errors
/// Returns `AllocError` for want of memory, and then the tree is as before.
pub fn shift(
    alloc: Global,
    tree: &mut Tree,
    rules: &RuleBook,
    depth: u8,
    command: &Command,
) -> Result<Answer, AllocError>
    requires kind { IsMove command.now }
    requires command { IsCommand 2 command.now }
    requires depth { depth ≤ 6 }
    requires stands { Stands seen tree.old (λ h. IsReached h × HasMarkRoom h) }
    ensures carried { IfOk result (λ answer. (m : Moment) (commands : ℕ) → m.depth ≡ depth →
        IsTreeOf seen tree.old m.hierarchy → IsReached m.hierarchy →
        CarriesOut seen tree.old tree.new m commands command.now answer) }
    ensures formed { IfOk result (λ answer. IsWellFormed command.now answer) }
    ensures unchanged { OnErr result (IsAsBefore seen tree.old tree.new) }
    ensures horizon { tree.new.horizon ≡ tree.old.horizon }
{
    match command {
        Command::Move { name, perch } => shift_to(alloc, tree, rules, depth, name, perch),
        _ => unreachable!(),
    }
}

/// Moves the node of a name to the seat that a perch asks for, and answers.
fn shift_to(
    alloc: Global,
    tree: &mut Tree,
    rules: &RuleBook,
    depth: u8,
    name: &Name,
    perch: &Perch,
) -> Result<Answer, AllocError>
    requires command { IsCommand 2 (Move name.now perch.now) }
    requires depth { depth ≤ 6 }
    requires stands { Stands seen tree.old (λ h. IsReached h × HasMarkRoom h) }
    ensures carried { IfOk result (λ answer. (m : Moment) (commands : ℕ) → m.depth ≡ depth →
        IsTreeOf seen tree.old m.hierarchy → IsReached m.hierarchy →
        CarriesOut seen tree.old tree.new m commands (Move name.now perch.now) answer) }
    ensures formed { IfOk result (λ answer. IsWellFormed (Move name.now perch.now) answer) }
    ensures unchanged { OnErr result (IsAsBefore seen tree.old tree.new) }
    ensures horizon { tree.new.horizon ≡ tree.old.horizon }
{
    match place(tree, name, perch) {
        Err(refusal) => Ok(Answer::Refused(refusal)),
        Ok((id, seat)) => match settle(alloc, tree, rules, depth, name, id, &seat) {
            Ok(told) => Ok(take(tree, depth, id, seat, told)),
            Err(error) => Err(error),
        },
    }
}

/// Moves a node to the seat that is wanted, where no derivation is wanting, and answers.
fn take(tree: &mut Tree, depth: u8, id: NodeId, seat: Seat, told: Rederived) -> Answer
    requires { Stands seen tree.old (λ h. MayMove h id seat) }
    ensures taken { IsTakenBy depth told result (tree.new ≡ tree.old)
        ((h : Hierarchy) → IsTreeOf seen tree.old h → Moves seen tree.old tree.new h id seat) }
    ensures horizon { tree.new.horizon ≡ tree.old.horizon }
{
    match told {
        Rederived::All(seats) => {
            tree.relocate(id, seat);
            Answer::Done(seats)
        }
        Rederived::Lacks { name } => Answer::Refused(Refusal::NoDerivation { name, depth }),
    }
}

/// What is to be moved, and the seat that is wanted for it, which only the want of a derivation can still refuse.
pub(crate) fn place(tree: &Tree, name: &Name, perch: &Perch) -> Result<(NodeId, Seat), Refusal>
    requires command { IsCommand 2 (Move name.now perch.now) }
    requires stands { Stands seen tree.now IsReached }
    ensures placed { IfOk result (λ placed. (h : Hierarchy) → IsTreeOf seen tree.now h → IsReached h →
        IsMovable h name.now perch.now placed.0 placed.1) }
    ensures refused { IfErr result (λ refusal. (m : Moment) → IsTreeOf seen tree.now m.hierarchy →
        IsReached m.hierarchy → IsRefused m (Move name.now perch.now) refusal) }
    ensures formed { IfErr result (λ refusal. IsRefusal refusal) }
{
    match aim(tree, name, perch) {
        Err(refusal) => Err(refusal),
        Ok((id, seat)) => match hindrance(tree, name, perch, id, &seat) {
            Some(refusal) => Err(refusal),
            None => Ok((id, seat)),
        },
    }
}
