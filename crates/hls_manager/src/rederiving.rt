// Derivations of the seats on a scheduler that has another guarantee.
ghost use Rattle.std.specs.Prelude.{◌≡◌, ◌≤◌, ℕ, IfOk, IfSome, IsNone, Some, slice_get};
ghost use Rattle.hls_guarantee.specs.Limits.{IsNarrow};
ghost use Rattle.hls_machine.specs.Hierarchy.{Hierarchy};
ghost use Rattle.hls_legal.specs.Dues.{Derives, IsUnderivable, dues_on};
ghost use Rattle.hls_tree.specs.Reads.{taken_on};
ghost use Rattle.hls_tree.specs.Trees.{IsTreeOf, Stands};
ghost use Rattle.hls_manager.specs.Inside.Holders.{due_held};
ghost use Rattle.hls_machine.specs.Legal.{IsReached};
ghost use Rattle.hls_manager.specs.Rederived.{AreRederived, IsLone};

use hls_chron::{List, Name};
use hls_derive::{Derivation, Place};
use hls_guarantee::Guarantee;
use hls_report_text::Seated;
use hls_rules::RuleBook;
use hls_sched::Scheduler;
use hls_search::search;
use hls_tree::{NodeId, Tree};
use std::alloc::{AllocError, Global};

/// What is found for the seats on a scheduler.
#[derive(Debug, Drop)]
pub enum Rederived {
    /// Each has a derivation; they are told in the order in which they were taken.
    All(List<Seated>),
    /// The seat of this child is the first that has none.
    Lacks { name: Name },
}

/// Derivations of at most so many conversions for the seats on a scheduler that is no join, each at its present
/// terms to what is kept for it, from what the scheduler is to have.
///
/// # Errors
/// Returns `AllocError` for want of memory.
pub fn rederive(
    alloc: Global,
    tree: &Tree,
    rules: &RuleBook,
    depth: u8,
    id: NodeId,
    have: &Guarantee,
) -> Result<Rederived, AllocError>
    requires stands { Stands seen tree.now (λ h. IsReached h × IsLone (h.nodes id)) }
    requires have { IsNarrow have.now }
    requires depth { depth ≤ 6 }
    ensures { IfOk result (λ told. (h : Hierarchy) → IsTreeOf seen tree.now h → IsReached h →
        AreRederived depth (dues_on h have.now (Some id)) told) }
{
    let children = tree.children(alloc, id)?;
    // A place more, for the seat of a moved node itself, which comes first.
    let mut seats = Vec::with_capacity(alloc, children.len() + 1)?;
    for child in &children {
        let name = *tree.name(child.node);
        match rederive_one(alloc, tree, rules, depth, id, have, child.node, child.port) {
            Ok(Some(derivation)) => seats.push(Seated {
                name,
                port: child.port,
                derivation,
            })?,
            Ok(None) => return Ok(Rederived::Lacks { name }),
            Err(error) => return Err(error),
        }
    }
    Ok(Rederived::All(List::of(seats)))
}

/// A derivation for the seat that a port of a child holds on a scheduler.
fn rederive_one(
    alloc: Global,
    tree: &Tree,
    rules: &RuleBook,
    depth: u8,
    id: NodeId,
    have: &Guarantee,
    child: NodeId,
    port: u8,
) -> Result<Option<Derivation>, AllocError>
    requires stands { Stands seen tree.now (λ h. IsReached h × IsLone (h.nodes id)
        × (at : ℕ) × (slice_get (taken_on h id) at ≡ Some (record { node = child; port = port }))) }
    requires have { IsNarrow have.now }
    requires depth { depth ≤ 6 }
    ensures found { IfOk result (λ found. IfSome found (λ d. (h : Hierarchy) → IsTreeOf seen tree.now h →
        Derives depth (due_held h id have.now (record { node = child; port = port })) d)) }
    ensures none { IfOk result (λ found. IsNone found → (h : Hierarchy) → IsTreeOf seen tree.now h →
        IsUnderivable depth (due_held h id have.now (record { node = child; port = port }))) }
{
    let place = Place {
        config: tree.config(id),
        terms: tree.terms(child, port),
    };
    let kept = tree.kept(child, port);
    search(alloc, rules, &place, &[*have], &kept, depth)
}
