// Threads that are admitted.
ghost use Rattle.std.specs.Prelude.{◌≡◌, ◌≤◌, ℕ, None, [], ◌∷◌, IfOk, IfErr, OnOk, OnErr};
ghost use Rattle.hls_scenario.specs.declared.scenario.Spot.TheVariants.{Under};
ghost use Rattle.hls_scenario.specs.declared.scenario.Command.TheVariants.{Thread};
ghost use Rattle.hls_scenario.specs.Grammar.{IsCommand};
ghost use Rattle.hls_report_text.specs.declared.report.Answer.TheVariants.{Done};
ghost use Rattle.hls_report_text.specs.WellFormed.{MayAnswer as IsWellFormed, IsRefusal};
ghost use Rattle.hls_machine.specs.Hierarchy.{Hierarchy};
ghost use Rattle.hls_machine.specs.Lists.{IsListed};
ghost use Rattle.hls_legal.specs.Moment.{Moment, node_of};
ghost use Rattle.hls_legal.specs.Answers.{IsRefused};
ghost use Rattle.hls_tree.specs.Offers.{MayAdmit};
ghost use Rattle.hls_tree.specs.Trees.{IsTreeOf, Stands, IsAsBefore, Any, Admits};
ghost use Rattle.hls_manager.specs.Offers.{IsOffered};
ghost use Rattle.hls_machine.specs.Legal.{IsReached};
ghost use Rattle.hls_manager.specs.Outcomes.{CarriesOut, HasMarkRoom};

use crate::derivations::derive;
use crate::lookups::{fault_refusal, find_scheduler};
use hls_chron::{List, Name, Terms};
use hls_derive::Derivation;
use hls_report_text::{Answer, Refusal, Seated};
use hls_rules::RuleBook;
use hls_scenario::{Perch, Spot};
use hls_sched::Scheduler;
use hls_tree::{Seat, Tree};
use std::alloc::{AllocError, Global};

/// How many threads there may be.
const MOST_THREADS: u32 = 256;

/// Admits a thread on the seat that its perch asks for, and answers.
///
/// # Errors
/// Returns `AllocError` for want of memory, and then the tree is as before.
pub(crate) fn admit_thread(
    alloc: Global,
    tree: &mut Tree,
    rules: &RuleBook,
    depth: u8,
    name: &Name,
    perch: &Perch,
) -> Result<Answer, AllocError>
    requires command { IsCommand 2 (Thread name.now perch.now) }
    requires depth { depth ≤ 6 }
    requires stands { Stands seen tree.old (λ h. IsReached h × HasMarkRoom h) }
    ensures carried { IfOk result (λ answer. (m : Moment) (commands : ℕ) → m.depth ≡ depth →
        IsTreeOf seen tree.old m.hierarchy → IsReached m.hierarchy →
        CarriesOut seen tree.old tree.new m commands (Thread name.now perch.now) answer) }
    ensures formed { IfOk result (λ answer. IsWellFormed (Thread name.now perch.now) answer) }
    ensures unchanged { OnErr result (IsAsBefore seen tree.old tree.new) }
    ensures horizon { tree.new.horizon ≡ tree.old.horizon }
{
    let seat = match offer(tree, name, perch) {
        Ok(seat) => seat,
        Err(refusal) => return Ok(Answer::Refused(refusal)),
    };
    match derive(alloc, tree, rules, depth, &seat)? {
        Some(derivation) => take_seat(alloc, tree, name, seat, derivation),
        None => Ok(Answer::Refused(Refusal::NoDerivation { name: *name, depth })),
    }
}

/// The seat that a thread is offered, of which a derivation is still to be looked for, or why there is none.
pub(crate) fn offer(tree: &Tree, name: &Name, perch: &Perch) -> Result<Seat, Refusal>
    requires command { IsCommand 2 (Thread name.now perch.now) }
    requires stands { Stands seen tree.now Any }
    ensures offered { IfOk result (λ seat. (h : Hierarchy) → IsTreeOf seen tree.now h → IsListed h →
        IsOffered h name.now perch.now seat) }
    ensures refused { IfErr result (λ refusal. (m : Moment) → IsTreeOf seen tree.now m.hierarchy →
        IsListed m.hierarchy → IsRefused m (Thread name.now perch.now) refusal) }
    ensures formed { IfErr result (λ refusal. IsRefusal refusal) }
{
    match tree.find(name) {
        Some(_) => Err(Refusal::NameTaken { name: *name }),
        None => match &perch.spot {
            Spot::Cpu => Err(Refusal::WrongSort { name: None }),
            Spot::Under { sched, terms } => offer_under(tree, name, perch, sched, terms),
        },
    }
}

/// The seat on the scheduler of a name, for a thread whose own name is free.
fn offer_under(
    tree: &Tree,
    name: &Name,
    perch: &Perch,
    sched: &Name,
    terms: &Terms,
) -> Result<Seat, Refusal>
    requires command { IsCommand 2 (Thread name.now perch.now) }
    requires stands { Stands seen tree.now Any }
    requires free { (h : Hierarchy) → IsTreeOf seen tree.now h → node_of h name.now ≡ None }
    requires place { perch.now.spot ≡ Under sched.now terms.now }
    ensures offered { IfOk result (λ seat. (h : Hierarchy) → IsTreeOf seen tree.now h → IsListed h →
        IsOffered h name.now perch.now seat) }
    ensures refused { IfErr result (λ refusal. (m : Moment) → IsTreeOf seen tree.now m.hierarchy →
        IsListed m.hierarchy → IsRefused m (Thread name.now perch.now) refusal) }
    ensures formed { IfErr result (λ refusal. IsRefusal refusal) }
{
    let parent = match find_scheduler(tree, sched) {
        Ok(id) => id,
        Err(refusal) => return Err(refusal),
    };
    if tree.threads() >= MOST_THREADS {
        return Err(Refusal::TooManyThreads { most: MOST_THREADS });
    }
    match tree.fits(Some(parent), terms) {
        Some(fault) => Err(fault_refusal(sched, fault)),
        None => Ok(Seat {
            parent: Some(parent),
            terms: *terms,
            kept: perch.want,
        }),
    }
}

/// Admits a thread on a seat that it may take, and tells the seat.
fn take_seat(
    alloc: Global,
    tree: &mut Tree,
    name: &Name,
    seat: Seat,
    derivation: Derivation,
) -> Result<Answer, AllocError>
    requires { Stands seen tree.old (λ h. MayAdmit h name.now seat) }
    ensures told { IfOk result (λ answer. answer ≡
        Done ((record { name = name.now; port = 0; derivation = derivation }) ∷ [])) }
    ensures admitted { OnOk result ((h : Hierarchy) → IsTreeOf seen tree.old h →
        (id : ℕ) × Admits seen tree.old tree.new h id name.now seat) }
    ensures unchanged { OnErr result (IsAsBefore seen tree.old tree.new) }
    ensures horizon { tree.new.horizon ≡ tree.old.horizon }
{
    let answer = done_with(alloc, name, derivation)?;
    let _ = tree.attach_thread(*name, seat)?;
    Ok(answer)
}

/// That a thread has its seat, by this derivation.
pub(crate) fn done_with(
    alloc: Global,
    name: &Name,
    derivation: Derivation,
) -> Result<Answer, AllocError>
    ensures { IfOk result (λ answer. answer ≡
        Done ((record { name = name.now; port = 0; derivation = derivation }) ∷ [])) }
{
    let mut seats = Vec::with_capacity(alloc, 1)?;
    seats.push(Seated {
        name: *name,
        port: 0,
        derivation,
    })?;
    Ok(Answer::Done(List::of(seats)))
}
