// All sums, by rounds over the list of schedulers.
ghost use Rattle.std.specs.Prelude.{◌≡◌, ◌≢◌, ◌<◌, ◌≤◌, ◌+◌, ℕ, false, length, set, slice_index, AllPairs};
ghost use Rattle.hls_tree_nodes.specs.Shown.{seats_in};
ghost use Rattle.hls_sched.specs.Boxed.{boxed};
ghost use Rattle.hls_tree_nodes.specs.Views.{shown_at};
ghost use Rattle.hls_tree_depths.specs.Inside.Sums.{greatest_over, greatest_in, next_in, IsSettled};
ghost use Rattle.hls_tree_depths.specs.Inside.Sums.{IsSettledTo, IsLocal, AreSums};
ghost use Rattle.hls_tree_depths.specs.Subtrees.{sum_at};

use crate::question::{Moved, Question, count_of};
use crate::sum::{Sums, greatest_over, sum_under};
use hls_sched::Scheduler;
use hls_tree_nodes::{NodeId, Nodes};

/// How many rounds lead to all sums at most: one for each level up to 8 and, after these, for each level
/// of those below a scheduler that is thought to sit elsewhere.
const ROUNDS: u8 = 18;

/// The greatest sum of those that a node sits on.
fn sum_seated(nodes: &Nodes, schedulers: &[NodeId], sums: &Sums, key: usize) -> u8
    requires few { length schedulers.now ≤ 64 }
    requires apart { AllPairs (λ (k c : ℕ). k ≢ c) schedulers.now }
    ensures { result ≡ greatest_over (sum_at schedulers.now sums.now)
        (seats_in (shown_at (boxed seen) nodes.now key)) }
{
    match nodes.slab.get(key) {
        Some(node) => greatest_over(schedulers, sums, 0, &node.seats),
        None => 0,
    }
}

/// The greatest sum of those that a node is thought to sit on.
fn sum_moved(
    nodes: &Nodes,
    schedulers: &[NodeId],
    moved: &Option<Moved>,
    sums: &Sums,
    key: usize,
) -> u8
    requires few { length schedulers.now ≤ 64 }
    requires apart { AllPairs (λ (k c : ℕ). k ≢ c) schedulers.now }
    ensures { result ≡ greatest_in moved.now (shown_at (boxed seen) nodes.now)
        (sum_at schedulers.now sums.now) key }
{
    match moved {
        Some(moved) => {
            if key == moved.key {
                sum_under(schedulers, sums, 0, moved.parent)
            } else {
                sum_seated(nodes, schedulers, sums, key)
            }
        }
        None => sum_seated(nodes, schedulers, sums, key),
    }
}

/// What the sum of a node is, by those that it sits on. Sums stay far below the greatest of their type.
fn next_sum(
    nodes: &Nodes,
    schedulers: &[NodeId],
    question: &Question,
    sums: &Sums,
    key: usize,
) -> u8
    requires few { length schedulers.now ≤ 64 }
    requires apart { AllPairs (λ (k c : ℕ). k ≢ c) schedulers.now }
    ensures { result ≡ next_in question.now (shown_at (boxed seen) nodes.now)
        (sum_at schedulers.now sums.now) key }
{
    let count = count_of(nodes, &question.counted, key);
    count.saturating_add(sum_moved(nodes, schedulers, &question.moved, sums, key))
}

/// Sets the sum of a scheduler by those that it sits on, and returns whether it has changed.
fn raise(
    nodes: &Nodes,
    schedulers: &[NodeId],
    question: &Question,
    at: usize,
    sums: &mut Sums,
) -> bool
    requires few { length schedulers.now ≤ 64 }
    requires apart { AllPairs (λ (k c : ℕ). k ≢ c) schedulers.now }
    requires within { at < length schedulers.now }
    ensures raised { sums.new ≡ set sums.old at (next_in question.now (shown_at (boxed seen) nodes.now)
        (sum_at schedulers.now sums.old) (slice_index schedulers.now at)) }
    ensures same { result ≡ false → sums.new ≡ sums.old }
{
    let sum = next_sum(nodes, schedulers, question, sums, schedulers[at].key());
    if sum == sums[at] {
        return false;
    }
    sums[at] = sum;
    true
}

/// Sets each sum once, and returns whether one has changed.
fn raise_all(nodes: &Nodes, schedulers: &[NodeId], question: &Question, sums: &mut Sums) -> bool
    requires few { length schedulers.now ≤ 64 }
    requires apart { AllPairs (λ (k c : ℕ). k ≢ c) schedulers.now }
    ensures higher { (rank : ℕ → ℕ) (now : ℕ) →
        IsLocal (next_in question.now (shown_at (boxed seen) nodes.now)) schedulers.now rank →
        IsSettledTo (next_in question.now (shown_at (boxed seen) nodes.now)) schedulers.now rank
        now 0 sums.old →
        IsSettledTo (next_in question.now (shown_at (boxed seen) nodes.now)) schedulers.now rank
        (now + 1) 0 sums.new }
    ensures done { result ≡ false → IsSettled (next_in question.now (shown_at (boxed seen) nodes.now))
        schedulers.now sums.new }
{
    let mut changed = false;
    for at in 0..schedulers.len() {
        if raise(nodes, schedulers, question, at, sums) {
            changed = true;
        }
    }
    changed
}

/// All sums. Rounds are made until one changes none of them, which is mostly the second or third.
pub(crate) fn sums(nodes: &Nodes, schedulers: &[NodeId], question: &Question) -> Sums
    requires few { length schedulers.now ≤ 64 }
    requires apart { AllPairs (λ (k c : ℕ). k ≢ c) schedulers.now }
    ensures { AreSums question.now (shown_at (boxed seen) nodes.now) schedulers.now result }
{
    let mut sums = [0u8; 64];
    for _round in 0..ROUNDS {
        if !raise_all(nodes, schedulers, question, &mut sums) {
            return sums;
        }
    }
    sums
}
