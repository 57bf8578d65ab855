// Derivations for seats that are wanted.
ghost use Rattle.std.specs.Prelude.{◌≡◌, ◌≤◌, ℕ, IfOk, IfSome, IsNone};
ghost use Rattle.hls_text.specs.Lines.{Text};
ghost use Rattle.hls_chron.specs.Ranges.{TermsInRange};
ghost use Rattle.hls_guarantee.specs.Limits.{IsNarrow};
ghost use Rattle.hls_machine.specs.Hierarchy.{Hierarchy, haves_of};
ghost use Rattle.hls_legal.specs.Dues.{Derives, IsUnderivable};
ghost use Rattle.hls_tree.specs.Reads.{IsLoaded, IsParent};
ghost use Rattle.hls_tree.specs.Trees.{IsTreeOf, Stands};
ghost use Rattle.hls_machine.specs.Legal.{IsReached};
ghost use Rattle.hls_manager.specs.Seats.{config_at, haves_at, due_for};

use hls_chron::Config;
use hls_derive::{Derivation, Place};
use hls_guarantee::Guarantee;
use hls_rules::RuleBook;
use hls_sched::Scheduler;
use hls_search::search;
use hls_tree::{NodeId, Seat, Tree};
use std::alloc::{AllocError, Global};

/// The configuration of a scheduler or, where there is none, of the processor.
fn config_at(tree: &Tree, parent: Option<NodeId>) -> Config
    requires { Stands seen tree.now (λ h. IsParent h parent) }
    ensures { (h : Hierarchy) → IsTreeOf seen tree.now h → result ≡ config_at h parent }
{
    match parent {
        Some(id) => tree.config(id),
        None => Config::Cpu,
    }
}

/// What the ports of a scheduler are guaranteed, in their order.
///
/// # Errors
/// Returns `AllocError` for want of memory.
pub fn haves_of(alloc: Global, tree: &Tree, id: NodeId) -> Result<Vec<Guarantee>, AllocError>
    requires { Stands seen tree.now (λ h. IsLoaded (h.nodes id)) }
    ensures { IfOk result (λ haves. (h : Hierarchy) → IsTreeOf seen tree.now h →
        haves.items ≡ haves_of (h.nodes id)) }
{
    let mut haves = Vec::new(alloc);
    for port in 0..tree.config(id).ports() {
        haves.push(tree.kept(id, port))?;
    }
    Ok(haves)
}

/// What the ports of a scheduler are guaranteed or, where there is none, the processor.
fn haves_at(
    alloc: Global,
    tree: &Tree,
    parent: Option<NodeId>,
) -> Result<Vec<Guarantee>, AllocError>
    requires { Stands seen tree.now (λ h. IsParent h parent) }
    ensures { IfOk result (λ haves. (h : Hierarchy) → IsTreeOf seen tree.now h →
        haves.items ≡ haves_at h parent) }
{
    match parent {
        Some(id) => haves_of(alloc, tree, id),
        None => {
            let mut haves = Vec::new(alloc);
            haves.push(Guarantee::All)?;
            Ok(haves)
        }
    }
}

/// A derivation of at most so many conversions for a seat that is wanted, or that there is none.
///
/// # Errors
/// Returns `AllocError` for want of memory.
pub(crate) fn derive(
    alloc: Global,
    tree: &Tree,
    rules: &RuleBook,
    depth: u8,
    seat: &Seat,
) -> Result<Option<Derivation>, AllocError>
    requires stands { Stands seen tree.now (λ h. IsReached h × IsParent h seat.now.parent) }
    requires terms { TermsInRange seat.now.terms }
    requires kept { IsNarrow seat.now.kept }
    requires depth { depth ≤ 6 }
    ensures found { IfOk result (λ found. IfSome found (λ d. (h : Hierarchy) → IsTreeOf seen tree.now h →
        IsReached h → (name : Text) (port : ℕ) → Derives depth (due_for h name port seat.now) d)) }
    ensures none { IfOk result (λ found. IsNone found → (h : Hierarchy) → IsTreeOf seen tree.now h →
        IsReached h → (name : Text) (port : ℕ) → IsUnderivable depth (due_for h name port seat.now)) }
{
    let haves = haves_at(alloc, tree, seat.parent)?;
    let place = Place {
        config: config_at(tree, seat.parent),
        terms: seat.terms,
    };
    search(alloc, rules, &place, &haves, &seat.kept, depth)
}
