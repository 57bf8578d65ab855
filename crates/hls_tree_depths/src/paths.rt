// The greatest sums of paths.
ghost use Rattle.std.specs.Prelude.{◌≡◌, ◌≢◌, ◌≤◌, ℕ, true, length, AllPairs};
ghost use Rattle.hls_machine.specs.Hierarchy.{Hierarchy};
ghost use Rattle.hls_machine.specs.Steps.{is_scheduler};
ghost use Rattle.hls_sched.specs.Boxed.{boxed};
ghost use Rattle.hls_tree_nodes.specs.Views.{shown_at};
ghost use Rattle.hls_tree_depths.specs.Inside.Sums.{counts_in};
ghost use Rattle.hls_tree_depths.specs.Paths.{AreNodesOf, IsPathSum, IsGreatestSum, MaySitAt, SitsAt, one_each};
ghost use Rattle.hls_tree_depths.specs.Paths.{fair_each};

use crate::question::{Counted, Moved, Question};
use crate::rounds::sums;
use crate::sum::{greatest_of, sum_of};
use hls_sched::Scheduler;
use hls_tree_nodes::{NodeId, Nodes};

/// The key of a parent.
fn key_of(parent: Option<NodeId>) -> Option<usize>
    ensures { result ≡ parent }
{
    match parent {
        Some(id) => Some(id.key()),
        None => None,
    }
}

/// The most fair queueing schedulers on a path to a scheduler, itself included.
pub fn shares(nodes: &Nodes, schedulers: &[NodeId], id: NodeId) -> u32
    requires few { length schedulers.now ≤ 64 }
    requires apart { AllPairs (λ (k c : ℕ). k ≢ c) schedulers.now }
    ensures { (h : Hierarchy) → AreNodesOf (shown_at (boxed seen) nodes.now) schedulers.now h →
        is_scheduler (h.nodes id) ≡ true → IsPathSum h (fair_each h) id result }
{
    let question = Question {
        counted: Counted::FairQueues,
        moved: None,
    };
    let sums = sums(nodes, schedulers, &question);
    u32::from(sum_of(schedulers, &sums, 0, id.key()))
}

/// The greatest sum of counts on a path, if this scheduler sat at that parent in place of its present
/// one.
fn greatest_after(
    nodes: &Nodes,
    schedulers: &[NodeId],
    counted: Counted,
    id: NodeId,
    parent: Option<NodeId>,
) -> u8
    requires few { length schedulers.now ≤ 64 }
    requires apart { AllPairs (λ (k c : ℕ). k ≢ c) schedulers.now }
    ensures { (h later : Hierarchy) → AreNodesOf (shown_at (boxed seen) nodes.now) schedulers.now h →
        MaySitAt h id parent → SitsAt h later id parent →
        IsGreatestSum later (counts_in counted (shown_at (boxed seen) nodes.now)) result }
{
    let question = Question {
        counted,
        moved: Some(Moved {
            key: id.key(),
            parent: key_of(parent),
        }),
    };
    greatest_of(&sums(nodes, schedulers, &question), schedulers.len())
}

/// The greatest level of a scheduler, if this one sat at that parent in place of its present one.
pub fn level_after(nodes: &Nodes, schedulers: &[NodeId], id: NodeId, parent: Option<NodeId>) -> u32
    requires few { length schedulers.now ≤ 64 }
    requires apart { AllPairs (λ (k c : ℕ). k ≢ c) schedulers.now }
    ensures { (h later : Hierarchy) → AreNodesOf (shown_at (boxed seen) nodes.now) schedulers.now h →
        MaySitAt h id parent → SitsAt h later id parent → IsGreatestSum later one_each result }
{
    u32::from(greatest_after(nodes, schedulers, Counted::Each, id, parent))
}

/// The most fair queueing schedulers on a path, if this one sat at that parent in place of its
/// present one.
pub fn shares_after(nodes: &Nodes, schedulers: &[NodeId], id: NodeId, parent: Option<NodeId>) -> u32
    requires few { length schedulers.now ≤ 64 }
    requires apart { AllPairs (λ (k c : ℕ). k ≢ c) schedulers.now }
    ensures { (h later : Hierarchy) → AreNodesOf (shown_at (boxed seen) nodes.now) schedulers.now h →
        MaySitAt h id parent → SitsAt h later id parent → IsGreatestSum later (fair_each later) result }
{
    u32::from(greatest_after(nodes, schedulers, Counted::FairQueues, id, parent))
}
