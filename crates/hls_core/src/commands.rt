// Commands.
ghost use Rattle.std.specs.Prelude.{◌≡◌, ◌≤◌, ℕ, [], None, if◌then◌else◌, IfOk, OnErr};
ghost use Rattle.hls_scenario.specs.Grammar.{IsCommand};
ghost use Rattle.hls_scenario.specs.declared.scenario.Command.{Command as CommandSeen};
ghost use Rattle.hls_scenario.specs.declared.scenario.Command.TheVariants.{Wake, Block};
ghost use Rattle.hls_report_text.specs.declared.report.Answer.TheVariants.{Done};
ghost use Rattle.hls_report_text.specs.WellFormed.{MayAnswer as IsWellFormed};
ghost use Rattle.hls_sched.specs.GoodKit.{IsGood};
ghost use Rattle.hls_machine.specs.Hierarchy.{Hierarchy};
ghost use Rattle.hls_machine.specs.Steps.{Step, after};
ghost use Rattle.hls_machine.specs.Legal.{Can, IsReached};
ghost use Rattle.hls_legal.specs.Tells.{Answers};
ghost use Rattle.hls_legal.specs.Moment.{Moment};
ghost use Rattle.hls_legal.specs.Kit.{boxes_after};
ghost use Rattle.hls_sched.specs.Boxed.{boxed};
ghost use Rattle.hls_tree.specs.Kits.{IsSameKit};
ghost use Rattle.hls_tree.specs.Trees.{IsTreeOf, IsReadyOf, IsAsBefore, Stands};
ghost use Rattle.hls_core_stays.specs.Tallies.{AreStays, HasSpare};
ghost use Rattle.hls_core_stays.specs.Turnovers.{stays_begun};
ghost use Rattle.hls_manager.specs.Outcomes as manager;
ghost use Rattle.hls_manager.specs.Outcomes.{HasMarkRoom, boxes_in, moment};
ghost use Rattle.hls_core.specs.Standing.{IsAt};
ghost use Rattle.hls_core.specs.Bursts.{begun_in};
ghost use Rattle.hls_core.specs.Inside.Outcomes.{IsOfSeats, CarriesOut, CarriesStays, MayCarry, Follows, MayFollow};
ghost use Rattle.hls_core.specs.Inside.Outcomes.{ends};

use crate::begun::Begun;
use crate::bursts::Bursts;
use hls_chron::{List, Name};
use hls_core_stays::{Stays, Turnover};
use hls_manager::{admit, find_thread, shift, withdraw};
use hls_report_text::Answer;
use hls_rules::RuleBook;
use hls_scenario::Command;
use hls_sched::{Kit, Scheduler};
use hls_tree::Tree;
use std::alloc::{AllocError, Global};

/// That a command was done and took no seats.
fn done(alloc: Global) -> Answer
    ensures { result ≡ Done [] }
{
    Answer::Done(List::of(Vec::new(alloc)))
}

/// Makes a thread ready, for a burst, for one from each release on, or until it is blocked. Its stay is carried along.
fn wake(
    alloc: Global,
    tree: &mut Tree,
    bursts: &mut Bursts,
    stays: &mut Stays,
    name: &Name,
    every: Option<u32>,
    burst: Option<u32>,
) -> Result<Answer, AllocError>
    requires stands { Stands seen tree.old (MayCarry seen tree.old bursts.old stays.old) }
    requires command { IsCommand 2 (Wake name.now every burst) }
    ensures carried { IfOk result (λ answer. (m : Moment) (commands : ℕ) → IsAt seen tree.old bursts.old m.hierarchy →
        CarriesOut seen tree.old tree.new bursts.new m commands (Wake name.now every burst) answer) }
    ensures stays { IfOk result (λ answer.
        CarriesStays seen tree.old tree.new bursts.old stays.old stays.new (Wake name.now every burst) answer) }
    ensures formed { IfOk result (λ answer. IsWellFormed (Wake name.now every burst) answer) }
    ensures unchanged { OnErr result ((h : Hierarchy) → IsAt seen tree.old bursts.old h →
        IsAt seen tree.new bursts.new h) }
    ensures kept_stays { OnErr result (stays.new ≡ stays.old) }
    ensures horizon { tree.new.horizon ≡ tree.old.horizon }
{
    match find_thread(tree, name) {
        Ok(id) => {
            let begun = Begun::of(every, burst, tree.now());
            bursts.set(id, begun)?;
            tree.set_ready(id, true);
            stays.follow(tree, Turnover::Rouses(id));
            Ok(done(alloc))
        }
        Err(refusal) => Ok(Answer::Refused(refusal)),
    }
}

/// Makes a thread not ready, and ends the releases of its wake. Its stay is carried along.
fn block(
    alloc: Global,
    tree: &mut Tree,
    bursts: &mut Bursts,
    stays: &mut Stays,
    name: &Name,
) -> Answer
    requires command { IsCommand 2 (Block name.now) }
    requires stands { Stands seen tree.old (MayCarry seen tree.old bursts.old stays.old) }
    ensures carried { (m : Moment) (commands : ℕ) → IsAt seen tree.old bursts.old m.hierarchy →
        CarriesOut seen tree.old tree.new bursts.new m commands (Block name.now) result }
    ensures stays { CarriesStays seen tree.old tree.new bursts.old stays.old stays.new (Block name.now) result }
    ensures formed { IsWellFormed (Block name.now) result }
    ensures horizon { tree.new.horizon ≡ tree.old.horizon }
{
    match find_thread(tree, name) {
        Ok(id) => {
            bursts.forget(id);
            tree.set_ready(id, false);
            stays.follow(tree, Turnover::Rouses(id));
            done(alloc)
        }
        Err(refusal) => Answer::Refused(refusal),
    }
}

/// Carries a command out that takes or leaves seats, in a scenario of so many, and answers it.
fn carry_out(
    alloc: Global,
    tree: &mut Tree,
    kit: &mut Kit,
    rules: &RuleBook,
    depth: u8,
    commands: u32,
    command: &Command,
) -> Result<Answer, AllocError>
    requires seats { IsOfSeats command.now }
    requires command { IsCommand 2 command.now }
    requires depth { depth ≤ 6 }
    requires kit { IsGood (boxed seen) kit.old }
    requires commands { commands ≤ 65536 }
    requires stands { Stands seen tree.old (λ h. IsReached h × HasMarkRoom h) }
    ensures carried { IfOk result (λ answer. (h : Hierarchy) → IsTreeOf seen tree.old h → IsReached h →
        manager.CarriesOut seen tree.old tree.new (moment h kit.old depth) commands command.now answer) }
    ensures boxes { IfOk result (λ answer. boxes_in kit.new ≡ boxes_after (boxes_in kit.old) command.now answer) }
    ensures formed { IfOk result (λ answer. IsWellFormed command.now answer) }
    ensures unchanged { OnErr result (IsAsBefore seen tree.old tree.new) }
    ensures same_kit { OnErr result (IsSameKit (boxed seen) kit.old kit.new) }
    ensures good { IsGood (boxed seen) kit.new }
    ensures horizon { tree.new.horizon ≡ tree.old.horizon }
{
    match command {
        Command::Load { .. } | Command::Thread { .. } => {
            admit(alloc, tree, kit, rules, depth, commands, command)
        }
        Command::Move { .. } => shift(alloc, tree, rules, depth, command),
        _ => Ok(withdraw(alloc, tree, command)),
    }
}

/// Forgets the burst of a thread that was ended, and ends the releases of its wake.
fn forget(bursts: &mut Bursts, turnover: &Turnover, answer: &Answer)
    ensures { (k : ℕ) → begun_in bursts.new k ≡ (if ends turnover.now answer.now k then None else
        begun_in bursts.old k) }
{
    if let Turnover::Ends(id) = turnover {
        if let Answer::Done(_) = answer {
            bursts.forget(*id);
        }
    }
}

/// Ends and begins stays, where a command was done.
fn follow(tree: &Tree, stays: &mut Stays, turnover: Turnover, answer: &Answer)
    requires may { MayFollow seen stays.old tree.now turnover answer.now }
    requires room { HasSpare stays.old (stays_begun turnover) }
    ensures { (h : Hierarchy) (command : CommandSeen) (step : Step) →
        Follows seen stays.old tree.now turnover answer.now h command step → AreStays stays.new (after h step) }
{
    match answer {
        Answer::Done(_) => stays.follow(tree, turnover),
        Answer::Refused(_) => {}
    }
}

/// Carries a command out, in a scenario of so many, and answers it. The stays of threads are carried along.
///
/// # Errors
/// Returns `AllocError` for want of memory, and then nothing has changed.
pub fn carry_along(
    alloc: Global,
    tree: &mut Tree,
    kit: &mut Kit,
    bursts: &mut Bursts,
    stays: &mut Stays,
    rules: &RuleBook,
    depth: u8,
    commands: u32,
    command: &Command,
) -> Result<Answer, AllocError>
    requires command { IsCommand 2 command.now }
    requires depth { depth ≤ 6 }
    requires kit { IsGood (boxed seen) kit.old }
    requires commands { commands ≤ 65536 }
    requires stands { Stands seen tree.old (λ h. MayCarry seen tree.old bursts.old stays.old h) }
    ensures carried { IfOk result (λ answer. (h : Hierarchy) → IsAt seen tree.old bursts.old h →
        CarriesOut seen tree.old tree.new bursts.new (moment h kit.old depth) commands command.now answer) }
    ensures stays { IfOk result (λ answer. (h : Hierarchy) (step : Step) →
        MayCarry seen tree.old bursts.old stays.old h → Answers h command.now answer step → Can h step →
        IsTreeOf seen tree.new (after h step) → IsReadyOf seen tree.new (after h step) →
        AreStays stays.new (after h step)) }
    ensures boxes { IfOk result (λ answer. boxes_in kit.new ≡ boxes_after (boxes_in kit.old) command.now answer) }
    ensures formed { IfOk result (λ answer. IsWellFormed command.now answer) }
    ensures unchanged { OnErr result ((h : Hierarchy) → IsAt seen tree.old bursts.old h →
        IsAt seen tree.new bursts.new h) }
    ensures kept_stays { OnErr result ((h : Hierarchy) → AreStays stays.old h → AreStays stays.new h) }
    ensures same_kit { OnErr result (IsSameKit (boxed seen) kit.old kit.new) }
    ensures good { IsGood (boxed seen) kit.new }
    ensures horizon { tree.new.horizon ≡ tree.old.horizon }
{
    match command {
        Command::Wake { name, every, burst } => {
            wake(alloc, tree, bursts, stays, name, *every, *burst)
        }
        Command::Block { name } => Ok(block(alloc, tree, bursts, stays, name)),
        _ => {
            let turnover = Turnover::of(alloc, tree, command)?;
            stays.reserve(&turnover)?;
            let answer = carry_out(alloc, tree, kit, rules, depth, commands, command)?;
            forget(bursts, &turnover, &answer);
            follow(tree, stays, turnover, &answer);
            Ok(answer)
        }
    }
}
