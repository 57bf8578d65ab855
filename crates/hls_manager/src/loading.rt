// Schedulers that are loaded.
ghost use Rattle.std.specs.Prelude.{◌≡◌, ◌≤◌, length, IfOk, IfErr, IfSome, IsNone, OnErr};
ghost use Rattle.hls_chron.specs.Name.{IsName};
ghost use Rattle.hls_chron.specs.declared.plain.Config.{Config as Setting};
ghost use Rattle.hls_scenario.specs.declared.scenario.Command.TheVariants.{Load};
ghost use Rattle.hls_scenario.specs.Grammar.{IsCommand};
ghost use Rattle.hls_report_text.specs.WellFormed.{MayAnswer as IsWellFormed, IsRefusal};
ghost use Rattle.hls_sched.specs.GoodKit.{IsGood};
ghost use Rattle.hls_machine.specs.Hierarchy.{Hierarchy};
ghost use Rattle.hls_machine.specs.Lists.{IsListed};
ghost use Rattle.hls_legal.specs.Moment.{Moment};
ghost use Rattle.hls_legal.specs.Answers.{IsRefused};
ghost use Rattle.hls_legal.specs.Kit.{boxes_after};
ghost use Rattle.hls_sched.specs.Boxed.{boxed};
ghost use Rattle.hls_tree.specs.Kits.{IsSameKit};
ghost use Rattle.hls_tree.specs.Trees.{IsTreeOf, Stands, IsAsBefore, Any, Loads};
ghost use Rattle.hls_machine.specs.Legal.{IsReached};
ghost use Rattle.hls_manager.specs.Outcomes.{CarriesOut, HasMarkRoom, boxes_in, moment};
ghost use Rattle.hls_manager.specs.Inside.Ports.{AreAtParents, AreInRange, ArePerchesInRange};
ghost use Rattle.hls_manager.specs.Inside.Loads.{IsPlaced, AreTold, IsUntold};

use crate::derivations::derive;
use crate::ports::seats_at;
use crate::refusing::find_refusal;
use hls_chron::{Config, List, Name};
use hls_report_text::{Answer, Refusal, Seated};
use hls_rules::RuleBook;
use hls_scenario::Perch;
use hls_sched::{Kit, Scheduler};
use hls_tree::{Seat, Tree};
use std::alloc::{AllocError, Global};

/// Loads a scheduler on the seats that its perches ask for, and answers. What is done takes a box out of the kit.
///
/// # Errors
/// Returns `AllocError` for want of memory, and then tree and kit are as before.
pub(crate) fn load(
    alloc: Global,
    tree: &mut Tree,
    kit: &mut Kit,
    rules: &RuleBook,
    depth: u8,
    commands: u32,
    name: &Name,
    config: &Config,
    perches: &[Perch],
) -> Result<Answer, AllocError>
    requires command { IsCommand 2 (Load name.now config.now perches.now) }
    requires depth { depth ≤ 6 }
    requires kit { IsGood (boxed seen) kit.old }
    requires commands { commands ≤ 65536 }
    requires stands { Stands seen tree.old (λ h. IsReached h × HasMarkRoom h) }
    ensures carried { IfOk result (λ answer. (h : Hierarchy) → IsTreeOf seen tree.old h → IsReached h →
        CarriesOut seen tree.old tree.new (moment h kit.old depth) commands
        (Load name.now config.now perches.now) answer) }
    ensures boxes { IfOk result (λ answer. boxes_in kit.new
        ≡ boxes_after (boxes_in kit.old) (Load name.now config.now perches.now) answer) }
    ensures formed { IfOk result (λ answer. IsWellFormed (Load name.now config.now perches.now) answer) }
    ensures unchanged { OnErr result (IsAsBefore seen tree.old tree.new) }
    ensures same_kit { OnErr result (IsSameKit (boxed seen) kit.old kit.new) }
    ensures good { IsGood (boxed seen) kit.new }
    ensures horizon { tree.new.horizon ≡ tree.old.horizon }
{
    let seats = match places(alloc, tree, name, perches)? {
        Ok(seats) => seats,
        Err(refusal) => return Ok(Answer::Refused(refusal)),
    };
    let wanted = seats.as_slice();
    if let Some(refusal) = find_refusal(tree, kit, config, wanted) {
        return Ok(Answer::Refused(refusal));
    }
    let told = match derive_all(alloc, tree, rules, depth, name, wanted)? {
        Some(told) => told,
        None => return Ok(Answer::Refused(Refusal::NoDerivation { name: *name, depth })),
    };
    let _ = tree.attach(kit, *name, config, commands, wanted)?;
    Ok(Answer::Done(List::of(told)))
}

/// The seats that a load asks for, or why it is refused for its own name or the name of a place.
fn places(
    alloc: Global,
    tree: &Tree,
    name: &Name,
    perches: &[Perch],
) -> Result<Result<Vec<Seat>, Refusal>, AllocError>
    requires named { IsName name.now }
    requires range { ArePerchesInRange perches.now }
    requires stands { Stands seen tree.now Any }
    ensures placed { IfOk result (λ found. IfOk found (λ seats. (h : Hierarchy) → IsTreeOf seen tree.now h →
        IsListed h → IsPlaced h name.now perches.now seats.items)) }
    ensures refused { IfOk result (λ found. IfErr found (λ refusal. (m : Moment) (config : Setting) →
        IsTreeOf seen tree.now m.hierarchy → IsListed m.hierarchy →
        IsRefused m (Load name.now config perches.now) refusal)) }
    ensures formed { IfOk result (λ found. IfErr found (λ refusal. IsRefusal refusal)) }
{
    match tree.find(name) {
        Some(_) => Ok(Err(Refusal::NameTaken { name: *name })),
        None => seats_at(alloc, tree, perches),
    }
}

/// A derivation for each of the seats, told by the name of the child and the port, or that there is none for one.
///
/// # Errors
/// Returns `AllocError` for want of memory.
fn derive_all(
    alloc: Global,
    tree: &Tree,
    rules: &RuleBook,
    depth: u8,
    name: &Name,
    seats: &[Seat],
) -> Result<Option<Vec<Seated>>, AllocError>
    requires stands { Stands seen tree.now (λ h. IsReached h × AreAtParents h seats.now) }
    requires range { AreInRange seats.now }
    requires depth { depth ≤ 6 }
    requires few { length seats.now ≤ 4 }
    ensures told { IfOk result (λ found. IfSome found (λ told. (h : Hierarchy) → IsTreeOf seen tree.now h →
        IsReached h → AreTold h depth name.now seats.now (length seats.now) told.items)) }
    ensures none { IfOk result (λ found. IsNone found → (h : Hierarchy) → IsTreeOf seen tree.now h →
        IsReached h → IsUntold h depth name.now seats.now) }
{
    let mut told = Vec::with_capacity(alloc, seats.len())?;
    for (port, seat) in seats.iter().enumerate() {
        let derivation = match derive(alloc, tree, rules, depth, seat)? {
            Some(derivation) => derivation,
            None => return Ok(None),
        };
        told.push(Seated {
            name: *name,
            port: port as u8,
            derivation,
        })?;
    }
    Ok(Some(told))
}
