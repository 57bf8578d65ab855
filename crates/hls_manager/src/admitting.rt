// Threads that are admitted, and schedulers that are loaded.
ghost use Rattle.std.specs.Prelude.{◌≡◌, ◌≤◌, IfOk, OnErr};
ghost use Rattle.hls_scenario.specs.Grammar.{IsCommand};
ghost use Rattle.hls_report_text.specs.WellFormed.{MayAnswer as IsWellFormed};
ghost use Rattle.hls_sched.specs.GoodKit.{IsGood};
ghost use Rattle.hls_machine.specs.Hierarchy.{Hierarchy};
ghost use Rattle.hls_legal.specs.Kit.{boxes_after};
ghost use Rattle.hls_sched.specs.Boxed.{boxed};
ghost use Rattle.hls_tree.specs.Kits.{IsSameKit};
ghost use Rattle.hls_tree.specs.Trees.{IsTreeOf, Stands, IsAsBefore};
ghost use Rattle.hls_machine.specs.Legal.{IsReached};
ghost use Rattle.hls_manager.specs.Outcomes.{CarriesOut, HasMarkRoom, IsAdmission, boxes_in, moment};

use crate::loading::load;
use crate::threads::admit_thread;
use hls_report_text::Answer;
use hls_rules::RuleBook;
use hls_scenario::Command;
use hls_sched::{Kit, Scheduler};
use hls_tree::Tree;
use std::alloc::{AllocError, Global};

/// Loads a scheduler or admits a thread, in a scenario of so many commands, and answers. A box that a load takes
/// is taken out of the kit.
///
/// # Errors
/// Returns `AllocError` for want of memory, and then tree and kit are as before.
pub fn admit(
    alloc: Global,
    tree: &mut Tree,
    kit: &mut Kit,
    rules: &RuleBook,
    depth: u8,
    commands: u32,
    command: &Command,
) -> Result<Answer, AllocError>
    requires kind { IsAdmission command.now }
    requires command { IsCommand 2 command.now }
    requires depth { depth ≤ 6 }
    requires kit { IsGood (boxed seen) kit.old }
    requires commands { commands ≤ 65536 }
    requires stands { Stands seen tree.old (λ h. IsReached h × HasMarkRoom h) }
    ensures carried { IfOk result (λ answer. (h : Hierarchy) → IsTreeOf seen tree.old h → IsReached h →
        CarriesOut seen tree.old tree.new (moment h kit.old depth) commands command.now answer) }
    ensures boxes { IfOk result (λ answer. boxes_in kit.new ≡ boxes_after (boxes_in kit.old) command.now answer) }
    ensures formed { IfOk result (λ answer. IsWellFormed command.now answer) }
    ensures unchanged { OnErr result (IsAsBefore seen tree.old tree.new) }
    ensures same_kit { OnErr result (IsSameKit (boxed seen) kit.old kit.new) }
    ensures good { IsGood (boxed seen) kit.new }
    ensures horizon { tree.new.horizon ≡ tree.old.horizon }
{
    match command {
        Command::Thread { name, perch } => admit_thread(alloc, tree, rules, depth, name, perch),
        Command::Load {
            name,
            config,
            perches,
        } => load(
            alloc,
            tree,
            kit,
            rules,
            depth,
            commands,
            name,
            config,
            perches.items(),
        ),
        _ => unreachable!(),
    }
}
