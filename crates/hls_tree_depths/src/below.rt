// Which nodes are below a scheduler.
ghost use Rattle.std.specs.Prelude.{◌≡◌, ◌≢◌, ◌<◌, ◌≤◌, ℕ, true, false, length, map, AllPairs};
ghost use Rattle.hls_machine.specs.Hierarchy.{Hierarchy};
ghost use Rattle.hls_machine.specs.Legal.{scheduler_at};
ghost use Rattle.hls_machine.specs.Readings.{IsUnder};
ghost use Rattle.hls_tree_nodes.specs.Shown.{seats_in};
ghost use Rattle.hls_sched.specs.Boxed.{boxed};
ghost use Rattle.hls_tree_nodes.specs.Views.{shown_at, place_view, seat_view};
ghost use Rattle.hls_tree_depths.specs.Inside.Sums.{sum_under, greatest_over};
ghost use Rattle.hls_tree_depths.specs.Paths.{AreNodesOf};
ghost use Rattle.hls_tree_depths.specs.Subtrees.{IsSubtree, sum_at};

use crate::question::{Counted, Question};
use crate::rounds::sums;
use crate::sum::{Sums, greatest_over, place_of_first, sum_near};
use hls_sched::Scheduler;
use hls_tree_nodes::{NodeId, Nodes, Place, TakenSeat};

/// The schedulers that are a node or below it. It is asked about over the nodes that it was found in.
#[derive(Clone, Copy)]
pub struct Subtree {
    upper: NodeId,
    /// More than 0 for the schedulers of the subtree.
    sums: Sums,
}

/// Whether a seat at this place is on a scheduler whose sum is more than 0.
fn is_over_one(schedulers: &[NodeId], sums: &Sums, place: Place, near: &mut usize) -> bool
    requires few { length schedulers.now ≤ 64 }
    requires apart { AllPairs (λ (k c : ℕ). k ≢ c) schedulers.now }
    ensures yes { result ≡ true →
        0 < sum_under (sum_at schedulers.now sums.now) (scheduler_at (place_view place)) }
    ensures no { result ≡ false →
        sum_under (sum_at schedulers.now sums.now) (scheduler_at (place_view place)) ≡ 0 }
{
    match place {
        Place::Processor => false,
        Place::At { scheduler, .. } => sum_near(schedulers, sums, near, scheduler) > 0,
    }
}

/// Whether one of these seats is on a scheduler whose sum is more than 0.
fn is_over(schedulers: &[NodeId], sums: &Sums, seats: &[TakenSeat], near: &mut usize) -> bool
    requires few { length schedulers.now ≤ 64 }
    requires apart { AllPairs (λ (k c : ℕ). k ≢ c) schedulers.now }
    ensures yes { result ≡ true →
        0 < greatest_over (sum_at schedulers.now sums.now) (map seat_view seats.now) }
    ensures no { result ≡ false →
        greatest_over (sum_at schedulers.now sums.now) (map seat_view seats.now) ≡ 0 }
{
    match seats {
        [seat] => is_over_one(schedulers, sums, seat.place, near),
        _ => {
            *near = place_of_first(schedulers, *near, seats);
            greatest_over(schedulers, sums, *near, seats) > 0
        }
    }
}

/// Whether a node sits on a scheduler whose sum is more than 0.
fn sits_in(nodes: &Nodes, schedulers: &[NodeId], sums: &Sums, key: usize, near: &mut usize) -> bool
    requires few { length schedulers.now ≤ 64 }
    requires apart { AllPairs (λ (k c : ℕ). k ≢ c) schedulers.now }
    ensures yes { result ≡ true → 0 < greatest_over (sum_at schedulers.now sums.now)
        (seats_in (shown_at (boxed seen) nodes.now key)) }
    ensures no { result ≡ false → greatest_over (sum_at schedulers.now sums.now)
        (seats_in (shown_at (boxed seen) nodes.now key)) ≡ 0 }
{
    match nodes.slab.get(key) {
        Some(node) => is_over(schedulers, sums, &node.seats, near),
        None => false,
    }
}

impl Subtree {
    /// The schedulers that are a node or below it.
    pub fn of(nodes: &Nodes, schedulers: &[NodeId], upper: NodeId) -> Subtree
        requires few { length schedulers.now ≤ 64 }
        requires apart { AllPairs (λ (k c : ℕ). k ≢ c) schedulers.now }
        ensures { (h : Hierarchy) → AreNodesOf (shown_at (boxed seen) nodes.now) schedulers.now h →
            IsSubtree h upper result }
    {
        let question = Question {
            counted: Counted::Only(upper.key()),
            moved: None,
        };
        Subtree {
            upper,
            sums: sums(nodes, schedulers, &question),
        }
    }

    /// Whether a node is that of the subtree or below it. Those that sit on the same scheduler are quicker to tell
    /// one after another: the place at which the last one's was found is kept between the calls, and is first 0.
    pub fn has_near(
        &self,
        nodes: &Nodes,
        schedulers: &[NodeId],
        lower: NodeId,
        near: &mut usize,
    ) -> bool
        requires few { length schedulers.now ≤ 64 }
        requires apart { AllPairs (λ (k c : ℕ). k ≢ c) schedulers.now }
        ensures yes { result ≡ true → (h : Hierarchy) (upper : ℕ) →
            AreNodesOf (shown_at (boxed seen) nodes.now) schedulers.now h →
            IsSubtree h upper self.now → IsUnder h upper lower }
        ensures no { result ≡ false → (h : Hierarchy) (upper : ℕ) →
            AreNodesOf (shown_at (boxed seen) nodes.now) schedulers.now h →
            IsSubtree h upper self.now → ¬ IsUnder h upper lower }
    {
        if lower.key() == self.upper.key() {
            return true;
        }
        sits_in(nodes, schedulers, &self.sums, lower.key(), near)
    }
}
