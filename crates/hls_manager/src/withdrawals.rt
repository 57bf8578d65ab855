// Threads that end, and schedulers that are unloaded.
ghost use Rattle.std.specs.Prelude.{◌≡◌, ℕ, [], IfErr, OnOk};
ghost use Rattle.hls_scenario.specs.declared.scenario.Command.TheVariants.{End, Unload};
ghost use Rattle.hls_report_text.specs.declared.report.Answer.TheVariants.{Done, Refused};
ghost use Rattle.hls_scenario.specs.Grammar.{IsCommand};
ghost use Rattle.hls_chron.specs.Name.{IsName};
ghost use Rattle.hls_report_text.specs.WellFormed.{MayAnswer as IsWellFormed, IsRefusal};
ghost use Rattle.hls_legal.specs.Moment.{Moment};
ghost use Rattle.hls_machine.specs.Hierarchy.{Hierarchy};
ghost use Rattle.hls_legal.specs.Tells.{HasName};
ghost use Rattle.hls_tree.specs.Reads.{IsLoaded};
ghost use Rattle.hls_tree.specs.Trees.{IsTreeOf, Stands};
ghost use Rattle.hls_machine.specs.Legal.{IsReached};
ghost use Rattle.hls_manager.specs.Outcomes.{CarriesOut, HasMarkRoom, IsWithdrawal};

use crate::lookups::{find_scheduler, find_thread};
use hls_chron::{List, Name};
use hls_report_text::{Answer, Refusal};
use hls_scenario::Command;
use hls_tree::{NodeId, Tree};
use std::alloc::Global;

/// Ends a thread or unloads a scheduler, and answers. What it was made of is dropped. It takes no memory.
pub fn withdraw(alloc: Global, tree: &mut Tree, command: &Command) -> Answer
    requires kind { IsWithdrawal command.now }
    requires command { IsCommand 2 command.now }
    requires stands { Stands seen tree.old (λ h. IsReached h × HasMarkRoom h) }
    ensures carried { (m : Moment) (commands : ℕ) → IsTreeOf seen tree.old m.hierarchy →
        IsReached m.hierarchy → CarriesOut seen tree.old tree.new m commands command.now result }
    ensures formed { IsWellFormed command.now result }
    ensures horizon { tree.new.horizon ≡ tree.old.horizon }
{
    match take_away(tree, command) {
        Ok(()) => Answer::Done(List::of(Vec::new(alloc))),
        Err(refusal) => Answer::Refused(refusal),
    }
}

/// Takes away what a command names, or tells why not.
fn take_away(tree: &mut Tree, command: &Command) -> Result<(), Refusal>
    requires kind { IsWithdrawal command.now }
    requires command { IsCommand 2 command.now }
    requires stands { Stands seen tree.old (λ h. IsReached h × HasMarkRoom h) }
    ensures done { OnOk result ((m : Moment) (commands : ℕ) → IsTreeOf seen tree.old m.hierarchy →
        IsReached m.hierarchy → CarriesOut seen tree.old tree.new m commands command.now (Done [])) }
    ensures refused { IfErr result (λ refusal. (m : Moment) (commands : ℕ) → IsTreeOf seen tree.old m.hierarchy →
        IsReached m.hierarchy → CarriesOut seen tree.old tree.new m commands command.now (Refused refusal)) }
    ensures formed { IfErr result (λ refusal. IsRefusal refusal) }
    ensures horizon { tree.new.horizon ≡ tree.old.horizon }
{
    match command {
        Command::End { name } => end(tree, name),
        Command::Unload { name } => unload(tree, name),
        _ => unreachable!(),
    }
}

fn end(tree: &mut Tree, name: &Name) -> Result<(), Refusal>
    requires name { IsName name.now }
    requires stands { Stands seen tree.old (λ h. IsReached h × HasMarkRoom h) }
    ensures done { OnOk result ((m : Moment) (commands : ℕ) → IsTreeOf seen tree.old m.hierarchy →
        IsReached m.hierarchy → CarriesOut seen tree.old tree.new m commands (End name.now) (Done [])) }
    ensures refused { IfErr result (λ refusal. (m : Moment) (commands : ℕ) → IsTreeOf seen tree.old m.hierarchy →
        IsReached m.hierarchy → CarriesOut seen tree.old tree.new m commands (End name.now) (Refused refusal)) }
    ensures formed { IfErr result (λ refusal. IsRefusal refusal) }
    ensures horizon { tree.new.horizon ≡ tree.old.horizon }
{
    match find_thread(tree, name) {
        Ok(id) => {
            let _ = tree.detach(id);
            Ok(())
        }
        Err(refusal) => Err(refusal),
    }
}

fn unload(tree: &mut Tree, name: &Name) -> Result<(), Refusal>
    requires name { IsName name.now }
    requires stands { Stands seen tree.old (λ h. IsReached h × HasMarkRoom h) }
    ensures done { OnOk result ((m : Moment) (commands : ℕ) → IsTreeOf seen tree.old m.hierarchy →
        IsReached m.hierarchy → CarriesOut seen tree.old tree.new m commands (Unload name.now) (Done [])) }
    ensures refused { IfErr result (λ refusal. (m : Moment) (commands : ℕ) → IsTreeOf seen tree.old m.hierarchy →
        IsReached m.hierarchy → CarriesOut seen tree.old tree.new m commands (Unload name.now) (Refused refusal)) }
    ensures formed { IfErr result (λ refusal. IsRefusal refusal) }
    ensures horizon { tree.new.horizon ≡ tree.old.horizon }
{
    match find_scheduler(tree, name) {
        Ok(id) => unload_node(tree, name, id),
        Err(refusal) => Err(refusal),
    }
}

/// Unloads the scheduler of a name, where no seat on it is taken.
fn unload_node(tree: &mut Tree, name: &Name, id: NodeId) -> Result<(), Refusal>
    requires name { IsName name.now }
    requires stands { Stands seen tree.old (λ h. IsReached h × HasMarkRoom h) }
    requires named { (h : Hierarchy) → IsTreeOf seen tree.old h → HasName h id name.now × IsLoaded (h.nodes id) }
    ensures done { OnOk result ((m : Moment) (commands : ℕ) → IsTreeOf seen tree.old m.hierarchy →
        IsReached m.hierarchy → CarriesOut seen tree.old tree.new m commands (Unload name.now) (Done [])) }
    ensures refused { IfErr result (λ refusal. (m : Moment) (commands : ℕ) → IsTreeOf seen tree.old m.hierarchy →
        IsReached m.hierarchy → CarriesOut seen tree.old tree.new m commands (Unload name.now) (Refused refusal)) }
    ensures formed { IfErr result (λ refusal. IsRefusal refusal) }
    ensures horizon { tree.new.horizon ≡ tree.old.horizon }
{
    let seats = tree.slots_taken(id);
    if seats > 0 {
        return Err(Refusal::NotEmpty { name: *name, seats });
    }
    let _ = tree.detach(id);
    Ok(())
}
