// Derivations for a node that is to take another seat.
ghost use Rattle.std.specs.Prelude.{◌≡◌, ◌≤◌, ◌∷◌, Some, IfOk};
ghost use Rattle.hls_chron.specs.Ranges.{TermsInRange};
ghost use Rattle.hls_guarantee.specs.Limits.{IsNarrow};
ghost use Rattle.hls_machine.specs.Hierarchy.{Hierarchy};
ghost use Rattle.hls_legal.specs.Dues.{dues_on};
ghost use Rattle.hls_tree.specs.Offers.{MovesTo};
ghost use Rattle.hls_tree.specs.Reads.{IsParent};
ghost use Rattle.hls_tree.specs.Trees.{IsTreeOf, Stands};
ghost use Rattle.hls_manager.specs.Inside.Told.{told_first};
ghost use Rattle.hls_manager.specs.Rederived.{AreRederived};
ghost use Rattle.hls_manager.specs.Seats.{due_for};
ghost use Rattle.hls_machine.specs.Legal.{IsReached};

use crate::derivations::derive;
use crate::rederiving::{Rederived, rederive};
use hls_chron::{List, Name};
use hls_report_text::Seated;
use hls_rules::RuleBook;
use hls_sched::Scheduler;
use hls_tree::{NodeId, Seat, Sort, Tree};
use std::alloc::{AllocError, Global};

/// Derivations for the seat that is wanted of a node of this name, and for the seats on it, or whose seat is the first
/// that has none.
pub(crate) fn settle(
    alloc: Global,
    tree: &Tree,
    rules: &RuleBook,
    depth: u8,
    name: &Name,
    id: NodeId,
    seat: &Seat,
) -> Result<Rederived, AllocError>
    requires stands { Stands seen tree.now (λ h. IsReached h × IsParent h seat.now.parent
        × MovesTo seat.now.parent (h.nodes id)) }
    requires terms { TermsInRange seat.now.terms }
    requires kept { IsNarrow seat.now.kept }
    requires depth { depth ≤ 6 }
    ensures { IfOk result (λ told. (h : Hierarchy) → IsTreeOf seen tree.now h → IsReached h →
        AreRederived depth (due_for h name.now 0 seat.now ∷ dues_on h seat.now.kept (Some id)) told) }
{
    match derive(alloc, tree, rules, depth, seat) {
        Ok(Some(derivation)) => match settle_on(alloc, tree, rules, depth, id, seat) {
            Ok(told) => {
                let first = Seated {
                    name: *name,
                    port: 0,
                    derivation,
                };
                with_first(first, told)
            }
            Err(error) => Err(error),
        },
        Ok(None) => Ok(Rederived::Lacks { name: *name }),
        Err(error) => Err(error),
    }
}

/// Derivations for the seats on a node that is to have another seat. There are none on a thread.
fn settle_on(
    alloc: Global,
    tree: &Tree,
    rules: &RuleBook,
    depth: u8,
    id: NodeId,
    seat: &Seat,
) -> Result<Rederived, AllocError>
    requires stands { Stands seen tree.now (λ h. IsReached h × MovesTo seat.now.parent (h.nodes id)) }
    requires kept { IsNarrow seat.now.kept }
    requires depth { depth ≤ 6 }
    ensures { IfOk result (λ told. (h : Hierarchy) → IsTreeOf seen tree.now h → IsReached h →
        AreRederived depth (dues_on h seat.now.kept (Some id)) told) }
{
    match tree.sort(id) {
        Sort::Thread => Ok(Rederived::All(List::of(Vec::with_capacity(alloc, 1)?))),
        Sort::Sched(_) => rederive(alloc, tree, rules, depth, id, &seat.kept),
    }
}

/// What is told with one seat more before the others.
fn with_first(first: Seated, told: Rederived) -> Result<Rederived, AllocError>
    ensures { IfOk result (λ more. more ≡ told_first first told) }
{
    match told {
        Rederived::All(seats) => {
            let mut told = seats.into_items();
            match told.insert(0, first) {
                Ok(()) => Ok(Rederived::All(List::of(told))),
                Err(_) => Err(AllocError),
            }
        }
        Rederived::Lacks { name } => Ok(Rederived::Lacks { name }),
    }
}
