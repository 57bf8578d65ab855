// The seats that a load asks for, one for each of its ports, and why its places are refused.
ghost use Rattle.std.specs.Prelude.{◌≡◌, None, Some, length, List, IfOk, IfErr, IfSome, IsNone};
ghost use Rattle.hls_chron.specs.Ranges.{TermsInRange};
ghost use Rattle.hls_scenario.specs.Grammar.{IsPerch};
ghost use Rattle.hls_scenario.specs.declared.scenario.Perch.{Perch as Asked};
ghost use Rattle.hls_report_text.specs.WellFormed.{IsRefusal};
ghost use Rattle.hls_machine.specs.Hierarchy.{Hierarchy};
ghost use Rattle.hls_machine.specs.Lists.{IsListed};
ghost use Rattle.hls_legal.specs.Answers.{number as number_of};
ghost use Rattle.hls_tree.specs.Reads.{IsParent};
ghost use Rattle.hls_tree.specs.Trees.{IsTreeOf, Stands, Any};
ghost use Rattle.hls_manager.specs.Inside.Least.{IsLeastRefusal, IsLeastOf, lesser as lesser_of};
ghost use Rattle.hls_manager.specs.Inside.Ports.{IsWanted, AreWanted, IsPut, AreAtParents};
ghost use Rattle.hls_manager.specs.Inside.Ports.{ArePerchesInRange, AreInRange};
ghost use Rattle.hls_manager.specs.Inside.Ports.{RefusesName, IsNameRefused, IsPortRefused, IsSpotAnswer};

use crate::lookups::{fault_refusal, find_scheduler};
use hls_chron::Terms;
use hls_report_text::Refusal;
use hls_scenario::{Perch, Spot};
use hls_sched::Scheduler;
use hls_tree::{Seat, Tree};
use std::alloc::{AllocError, Global};

/// The number of a refusal.
pub(crate) fn number(refusal: &Refusal) -> u32
    ensures { result ≡ number_of refusal.now }
{
    match refusal {
        Refusal::NameTaken { .. } => 10,
        Refusal::NoSuchName { .. } => 11,
        Refusal::WrongSort { .. } => 12,
        Refusal::TooManyNodes { .. } => 13,
        Refusal::TooManyThreads { .. } => 14,
        Refusal::NotEmpty { .. } => 15,
        Refusal::TermsUnfit { .. } => 16,
        Refusal::PriorityTaken { .. } => 17,
        Refusal::SeatsFull { .. } => 18,
        Refusal::Cycle { .. } => 19,
        Refusal::TooDeep { .. } => 20,
        Refusal::TooManyShares { .. } => 21,
        Refusal::KitEmpty { .. } => 22,
        Refusal::NoRoom { .. } => 23,
        Refusal::NoDerivation { .. } => 24,
    }
}

/// Of two refusals the one of the lesser number; the first where they have one number.
fn lesser(first: Option<Refusal>, second: Refusal) -> Refusal
    ensures { result ≡ lesser_of first second }
{
    match first {
        Some(first) => {
            if number(&first) <= number(&second) {
                first
            } else {
                second
            }
        }
        None => second,
    }
}

/// Puts the seat that a perch asks for behind these, or tells why the name of its place is none of a scheduler.
///
/// # Errors
/// Returns `AllocError` for want of memory.
fn put_seat(
    tree: &Tree,
    perch: &Perch,
    seats: &mut Vec<Seat>,
) -> Result<Option<Refusal>, AllocError>
    requires { Stands seen tree.now Any }
    ensures put { IfOk result (λ refused. IsNone refused → (h : Hierarchy) → IsTreeOf seen tree.now h →
        IsPut h perch.now seats.old.items seats.new.items) }
    ensures refused { IfOk result (λ refused. IfSome refused (λ refusal. (h : Hierarchy) →
        IsTreeOf seen tree.now h → IsListed h → RefusesName h perch.now.spot refusal)) }
    ensures formed { IfOk result (λ refused. IfSome refused (λ refusal. IsPerch perch.now → IsRefusal refusal)) }
{
    match &perch.spot {
        Spot::Cpu => {
            seats.push(Seat {
                parent: None,
                terms: Terms::Cpu,
                kept: perch.want,
            })?;
            Ok(None)
        }
        Spot::Under { sched, terms } => match find_scheduler(tree, sched) {
            Ok(id) => {
                seats.push(Seat {
                    parent: Some(id),
                    terms: *terms,
                    kept: perch.want,
                })?;
                Ok(None)
            }
            Err(refusal) => Ok(Some(refusal)),
        },
    }
}

/// The seats that a load asks for; or why it is refused for the name of a place: the refusal of least number, at
/// the first port that has it.
///
/// # Errors
/// Returns `AllocError` for want of memory.
pub(crate) fn seats_at(
    alloc: Global,
    tree: &Tree,
    perches: &[Perch],
) -> Result<Result<Vec<Seat>, Refusal>, AllocError>
    requires stands { Stands seen tree.now Any }
    requires range { ArePerchesInRange perches.now }
    ensures seats { IfOk result (λ found. IfOk found (λ seats. (h : Hierarchy) → IsTreeOf seen tree.now h →
        IsListed h → AreWanted h perches.now (length perches.now) seats.items)) }
    ensures refused { IfOk result (λ found. IfErr found (λ refusal. (h : Hierarchy) → IsTreeOf seen tree.now h →
        IsListed h → IsLeastOf (IsNameRefused h perches.now) (length perches.now) refusal)) }
    ensures formed { IfOk result (λ found. IfErr found (λ refusal. IsRefusal refusal)) }
{
    let mut seats = Vec::new(alloc);
    let mut least = None;
    for perch in perches {
        if let Some(refusal) = put_seat(tree, perch, &mut seats)? {
            least = Some(lesser(least, refusal));
        }
    }
    match least {
        Some(refusal) => Ok(Err(refusal)),
        None => Ok(Ok(seats)),
    }
}

/// Why a seat cannot be taken at present, by the refusal of least number.
fn fault_at(tree: &Tree, seat: &Seat) -> Option<Refusal>
    requires parent { Stands seen tree.now (λ h. IsParent h seat.now.parent) }
    requires range { TermsInRange seat.now.terms }
    ensures answer { (h : Hierarchy) (perch : Asked) → IsTreeOf seen tree.now h → IsListed h →
        IsWanted h perch seat.now → IsSpotAnswer h perch.spot result }
    ensures formed { IfSome result (λ refusal. (h : Hierarchy) (perch : Asked) → IsTreeOf seen tree.now h →
        IsWanted h perch seat.now → IsPerch perch → IsRefusal refusal) }
{
    let Some(fault) = tree.fits(seat.parent, &seat.terms) else {
        return None;
    };
    match seat.parent {
        None => Some(Refusal::SeatsFull {
            name: None,
            seats: 1,
        }),
        Some(id) => {
            let sched = tree.name(id);
            Some(fault_refusal(sched, fault))
        }
    }
}

/// Why one of the seats cannot be taken at present: the refusal of least number, at the first port that has it.
pub(crate) fn least_fault(tree: &Tree, seats: &[Seat]) -> Option<Refusal>
    requires parents { Stands seen tree.now (λ h. AreAtParents h seats.now) }
    requires range { AreInRange seats.now }
    ensures answer { (h : Hierarchy) (perches : List Asked) → IsTreeOf seen tree.now h → IsListed h →
        AreWanted h perches (length perches) seats.now →
        IsLeastRefusal (IsPortRefused h perches) (length perches) result }
    ensures formed { (h : Hierarchy) (perches : List Asked) → IsTreeOf seen tree.now h →
        AreWanted h perches (length perches) seats.now → ArePerchesInRange perches →
        IfSome result (λ refusal. IsRefusal refusal) }
{
    let mut least = None;
    for seat in seats {
        if let Some(refusal) = fault_at(tree, seat) {
            least = Some(lesser(least, refusal));
        }
    }
    least
}
