// The priorities that no seat of a scheduler has.
ghost use Rattle.std.specs.Prelude.{◌≡◌, ◌≤◌, ◌<◌, ℕ, true, false, IfOk};
ghost use Rattle.hls_chron.specs.declared.plain.Config.TheVariants.{Fp};
ghost use Rattle.hls_chron.specs.Ranges.{most_slots};
ghost use Rattle.hls_chron.specs.Seats.{HasPriority};
ghost use Rattle.hls_machine.specs.Hierarchy.{Hierarchy, config_of, book_of};
ghost use Rattle.hls_tree.specs.Reads.{IsLoaded};
ghost use Rattle.hls_tree.specs.Trees.{IsTreeOf, Stands};
ghost use Rattle.hls_offer.specs.Left.{AreFreeSpans};
ghost use Rattle.hls_offer.specs.Inside.Faults.{is_of_priority};

use hls_chron::{SLOTS, Terms};
use hls_offer_text::Span;
use hls_sched::{Scheduler, SeatFault};
use hls_tree::{NodeId, Tree};
use std::alloc::{AllocError, Global};

/// How many priorities there are: one for each slot.
const PRIORITIES: u32 = SLOTS;

/// Whether a seat of a scheduler has a priority.
fn is_taken(tree: &Tree, id: NodeId, priority: u32) -> bool
    requires stands { Stands seen tree.now (λ h. IsLoaded (h.nodes id)) }
    requires fixed { (h : Hierarchy) → IsTreeOf seen tree.now h → config_of (h.nodes id) ≡ Fp }
    requires within { priority < most_slots }
    ensures taken { result ≡ true → (h : Hierarchy) → IsTreeOf seen tree.now h →
        HasPriority (book_of (h.nodes id)) priority }
    ensures free { result ≡ false → (h : Hierarchy) → IsTreeOf seen tree.now h →
        ¬ HasPriority (book_of (h.nodes id)) priority }
{
    is_of_priority(tree.fits(Some(id), &Terms::Prio(priority)))
}

/// Whether a seat cannot be taken since another has its priority.
fn is_of_priority(fault: Option<SeatFault>) -> bool
    ensures { result ≡ is_of_priority fault }
{
    matches!(fault, Some(SeatFault::PriorityTaken { .. }))
}

/// The first priority from one on that no seat has, or else how many there are.
fn next_free(tree: &Tree, id: NodeId, from: u32) -> u32
    requires stands { Stands seen tree.now (λ h. IsLoaded (h.nodes id)) }
    requires fixed { (h : Hierarchy) → IsTreeOf seen tree.now h → config_of (h.nodes id) ≡ Fp }
    requires within { from ≤ most_slots }
    ensures behind { from ≤ result }
    ensures within { result ≤ most_slots }
    ensures before { (h : Hierarchy) (p : ℕ) → IsTreeOf seen tree.now h → from ≤ p → p < result →
        HasPriority (book_of (h.nodes id)) p }
    ensures here { result < most_slots → (h : Hierarchy) → IsTreeOf seen tree.now h →
        ¬ HasPriority (book_of (h.nodes id)) result }
{
    for priority in from..PRIORITIES {
        if !is_taken(tree, id, priority) {
            return priority;
        }
    }
    PRIORITIES
}

/// The first priority from one on that a seat has, or else how many there are.
fn next_taken(tree: &Tree, id: NodeId, from: u32) -> u32
    requires stands { Stands seen tree.now (λ h. IsLoaded (h.nodes id)) }
    requires fixed { (h : Hierarchy) → IsTreeOf seen tree.now h → config_of (h.nodes id) ≡ Fp }
    requires within { from ≤ most_slots }
    ensures behind { from ≤ result }
    ensures within { result ≤ most_slots }
    ensures before { (h : Hierarchy) (p : ℕ) → IsTreeOf seen tree.now h → from ≤ p → p < result →
        ¬ HasPriority (book_of (h.nodes id)) p }
    ensures here { result < most_slots → (h : Hierarchy) → IsTreeOf seen tree.now h →
        HasPriority (book_of (h.nodes id)) result }
{
    for priority in from..PRIORITIES {
        if is_taken(tree, id, priority) {
            return priority;
        }
    }
    PRIORITIES
}

/// The priorities that no seat of a fixed priority scheduler has, in spans.
///
/// # Errors
/// Returns `AllocError` for want of memory.
pub fn free_spans(alloc: Global, tree: &Tree, id: NodeId) -> Result<Vec<Span>, AllocError>
    requires stands { Stands seen tree.now (λ h. IsLoaded (h.nodes id)) }
    requires fixed { (h : Hierarchy) → IsTreeOf seen tree.now h → config_of (h.nodes id) ≡ Fp }
    ensures { IfOk result (λ spans. (h : Hierarchy) → IsTreeOf seen tree.now h →
        AreFreeSpans (book_of (h.nodes id)) 0 most_slots spans.items) }
{
    let mut spans = Vec::new(alloc);
    let mut first = next_free(tree, id, 0);
    while first < PRIORITIES {
        let end = next_taken(tree, id, first);
        spans.push(Span {
            first,
            last: end - 1,
        })?;
        first = next_free(tree, id, end);
    }
    Ok(spans)
}
