// Why a node may not take another seat.
ghost use Rattle.std.specs.Prelude.{◌≡◌, None, IfSome, IsNone};
ghost use Rattle.hls_scenario.specs.declared.scenario.Command.TheVariants.{Move};
ghost use Rattle.hls_scenario.specs.Grammar.{IsSpot};
ghost use Rattle.hls_chron.specs.Name.{IsName};
ghost use Rattle.hls_chron.specs.Ranges.{TermsInRange};
ghost use Rattle.hls_report_text.specs.WellFormed.{IsRefusal};
ghost use Rattle.hls_machine.specs.Hierarchy.{Hierarchy};
ghost use Rattle.hls_legal.specs.Moment.{Moment, spot_name};
ghost use Rattle.hls_legal.specs.Answers.{IsRefused};
ghost use Rattle.hls_tree.specs.Offers.{MovesTo, IsNoCycle};
ghost use Rattle.hls_tree.specs.Reads.{IsLoaded, IsSeatAnswer, MayAskAbout};
ghost use Rattle.hls_tree.specs.Trees.{IsTreeOf, Stands};
ghost use Rattle.hls_manager.specs.Inside.Shifts.{IsAtSpot, IsAimed, IsLoop, IsMisplaced, IsPlaced, spot_refusal};
ghost use Rattle.hls_machine.specs.Legal.{IsReached};

use crate::lookups::fault_refusal;
use hls_chron::{LEVELS, Name, SHARES};
use hls_kinds::SeatFault;
use hls_report_text::Refusal;
use hls_scenario::{Perch, Spot};
use hls_sched::Scheduler;
use hls_tree::{NodeId, Seat, Sort, Tree};

/// Why the seat that is wanted cannot be taken, the want of a derivation aside.
pub(crate) fn hindrance(
    tree: &Tree,
    name: &Name,
    perch: &Perch,
    id: NodeId,
    seat: &Seat,
) -> Option<Refusal>
    requires stands { Stands seen tree.now IsReached }
    requires aimed { (h : Hierarchy) → IsTreeOf seen tree.now h → IsAimed h name.now perch.now id seat.now }
    requires terms { TermsInRange seat.now.terms }
    ensures some { IfSome result (λ refusal. (m : Moment) → IsTreeOf seen tree.now m.hierarchy →
        IsReached m.hierarchy → IsRefused m (Move name.now perch.now) refusal) }
    ensures none { IsNone result → (h : Hierarchy) → IsTreeOf seen tree.now h → IsReached h →
        IsSeatAnswer h seat.now.parent seat.now.terms None × IsPlaced h id seat.now.parent }
    ensures formed { IfSome result (λ refusal. IsSpot perch.now.spot → IsRefusal refusal) }
{
    let wrong = misplaced(tree, &perch.spot, id, seat);
    match tree.fits(seat.parent, &seat.terms) {
        None => wrong,
        Some(fault) => match fault {
            SeatFault::NoRoom { free, asked } => match wrong {
                Some(refusal) => Some(refusal),
                None => Some(Refusal::NoRoom { free, asked }),
            },
            _ => Some(refusal_of(&perch.spot, fault)),
        },
    }
}

/// The refusal that a fault of a seat at a place comes to.
fn refusal_of(spot: &Spot, fault: SeatFault) -> Refusal
    ensures is { result ≡ spot_refusal spot.now fault }
    ensures formed { IsSpot spot.now → IsRefusal result }
{
    match spot {
        Spot::Cpu => Refusal::SeatsFull {
            name: None,
            seats: 1,
        },
        Spot::Under { sched, .. } => fault_refusal(sched, fault),
    }
}

/// Why the place is none for the node: it is the node or below it, or schedulers would be too deep, or on one path too
/// many fair queueing ones. For a thread it is none of these.
fn misplaced(tree: &Tree, spot: &Spot, id: NodeId, seat: &Seat) -> Option<Refusal>
    requires stands { Stands seen tree.now IsReached }
    requires place { (h : Hierarchy) → IsTreeOf seen tree.now h →
        MovesTo seat.now.parent (h.nodes id) × IsAtSpot h seat.now.parent spot.now }
    ensures some { IfSome result (λ refusal. (h : Hierarchy) → IsTreeOf seen tree.now h → IsReached h →
        IsLoaded (h.nodes id) × IsMisplaced h id seat.now.parent spot.now refusal) }
    ensures none { IsNone result → (h : Hierarchy) → IsTreeOf seen tree.now h → IsReached h →
        IsPlaced h id seat.now.parent }
    ensures formed { IfSome result (λ refusal. IsSpot spot.now → IsRefusal refusal) }
{
    match tree.sort(id) {
        Sort::Thread => None,
        Sort::Sched(_) => match ring(tree, spot, id, seat.parent) {
            Some(name) => Some(Refusal::Cycle { name }),
            None => overloaded(tree, id, seat),
        },
    }
}

/// The name of the place, where it is the node or below it.
fn ring(tree: &Tree, spot: &Spot, id: NodeId, parent: Option<NodeId>) -> Option<Name>
    requires stands { Stands seen tree.now IsReached }
    requires place { (h : Hierarchy) → IsTreeOf seen tree.now h →
        MovesTo parent (h.nodes id) × IsAtSpot h parent spot.now }
    ensures some { IfSome result (λ name. (h : Hierarchy) → IsTreeOf seen tree.now h →
        (spot_name spot.now ≡ Some name) × IsLoop h id parent) }
    ensures none { IsNone result → (h : Hierarchy) → IsTreeOf seen tree.now h → IsNoCycle h id parent }
    ensures formed { IfSome result (λ name. IsSpot spot.now → IsName name) }
{
    match parent {
        None => None,
        Some(place) => match spot {
            Spot::Cpu => None,
            Spot::Under { sched, .. } => {
                if tree.below(id, place) {
                    return Some(*sched);
                }
                None
            }
        },
    }
}

/// Whether schedulers would be too deep, or on one path too many fair queueing ones, if a scheduler sat elsewhere.
fn overloaded(tree: &Tree, id: NodeId, seat: &Seat) -> Option<Refusal>
    requires stands { Stands seen tree.now (λ h. MayAskAbout h id seat.now.parent) }
    requires acyclic { (h : Hierarchy) → IsTreeOf seen tree.now h → IsNoCycle h id seat.now.parent }
    ensures some { IfSome result (λ refusal. (h : Hierarchy) (spot : Spot) → IsTreeOf seen tree.now h →
        IsReached h → IsMisplaced h id seat.now.parent spot refusal) }
    ensures none { IsNone result → (h : Hierarchy) → IsTreeOf seen tree.now h → IsReached h →
        IsPlaced h id seat.now.parent }
    ensures formed { IfSome result (λ refusal. IsRefusal refusal) }
{
    let level = tree.level_after(id, seat.parent);
    if level > LEVELS {
        return Some(Refusal::TooDeep { level });
    }
    let count = tree.shares_after(id, seat.parent);
    if count > SHARES {
        return Some(Refusal::TooManyShares { count });
    }
    None
}
