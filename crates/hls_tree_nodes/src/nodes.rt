// Nodes, of which some are behind.
ghost use Rattle.std.specs.Prelude.{◌≡◌, ◌≢◌, ℕ, None, true, false};
ghost use Rattle.slab.specs.Slab.{get};
ghost use Rattle.hls_tree_nodes.specs.Shown.{PostedIn, asks_in, level_in};
ghost use Rattle.hls_tree_nodes.specs.Views.{shown_at, stored_at};
ghost use Rattle.hls_tree_nodes.specs.Behind.{behind_at, late, LagsIn};
ghost use Rattle.hls_tree_nodes.specs.Late.{IsLate, StaysLate};
ghost use Rattle.hls_tree_nodes.specs.TreeOf.{IsRoll};

use crate::known::with_bit;
use crate::{Node, NodeId, Role};
use slab::Slab;
use std::alloc::Global;

/// Nodes, of which some schedulers may be behind: their boxes have not had the last ticks, which change nothing of them
/// but their books. Contracts see each as if it had had them.
#[derive(Drop)]
pub struct Nodes {
    pub slab: Slab<Node>,
    /// Whether any may be behind.
    pub behind: bool,
    /// How many ticks have passed since any may be.
    pub tick: u32,
    /// Which of the first 64 places of the list have a scheduler that is behind, a bit each.
    pub quiet: u64,
}

impl Nodes {
    /// No node.
    pub fn new(alloc: Global) -> Nodes
        ensures nodes { (k : ℕ) → shown_at seen result k ≡ None }
        ensures late { IsLate seen result }
        ensures flat { result.behind ≡ false }
    {
        Nodes {
            slab: Slab::new(alloc),
            behind: false,
            tick: 0,
            quiet: 0,
        }
    }
}

/// Whether a node asks.
pub fn asks_at(nodes: &Nodes, key: usize) -> bool
    requires posted { PostedIn (shown_at seen nodes.now key) }
    requires late { IsLate seen nodes.now }
    ensures { result ≡ asks_in (shown_at seen nodes.now key) }
{
    match nodes.slab.get(key) {
        Some(node) => node.role.asks(),
        None => false,
    }
}

/// The level of a node.
pub fn stored_level(slab: &Slab<Node>, key: usize) -> u8
    ensures { result ≡ level_in (stored_at seen slab.now key) }
{
    match slab.get(key) {
        Some(node) => node.level,
        None => 0,
    }
}

/// The level of a node.
pub fn level_at(nodes: &Nodes, key: usize) -> u8
    ensures { result ≡ level_in (shown_at seen nodes.now key) }
{
    stored_level(&nodes.slab, key)
}

/// Lets a node catch up, if it is behind, and tells its place in the list.
fn catch_up(slab: &mut Slab<Node>, key: usize, tick: u32) -> Option<u8>
    requires lags { LagsIn tick (stored_at seen slab.old key) }
    ensures here { stored_at seen slab.new key ≡ late true tick (stored_at seen slab.old key) }
    ensures place { result ≡ behind_at (stored_at seen slab.old key) }
    ensures others { (k : ℕ) → k ≢ key → get slab.new k ≡ get slab.old k }
{
    match slab.get_mut(key) {
        Some(node) => match &mut node.role {
            Role::Sched(station) => station.catch_up(tick),
            Role::Thread { .. } => None,
        },
        None => None,
    }
}

/// Lets a node catch up, if it is behind.
pub fn rouse(nodes: &mut Nodes, key: usize)
    requires late { IsLate seen nodes.old }
    ensures same { (k : ℕ) → shown_at seen nodes.new k ≡ shown_at seen nodes.old k }
    ensures late { StaysLate seen nodes.old nodes.new }
    ensures stored { stored_at seen nodes.new.slab key ≡ shown_at seen nodes.new key }
    ensures others { (k : ℕ) → k ≢ key → get nodes.new.slab k ≡ get nodes.old.slab k }
{
    if !nodes.behind {
        return;
    }
    if let Some(at) = catch_up(&mut nodes.slab, key, nodes.tick) {
        nodes.quiet = with_bit(nodes.quiet, u32::from(at), false);
    }
}

/// Lets each scheduler catch up that is behind; none may be from here on.
pub fn flush(nodes: &mut Nodes, schedulers: &[NodeId])
    requires roll { IsRoll (shown_at seen nodes.old) schedulers.now }
    requires late { IsLate seen nodes.old }
    ensures same { (k : ℕ) → shown_at seen nodes.new k ≡ shown_at seen nodes.old k }
    ensures flat { nodes.new.behind ≡ false }
    ensures late { IsLate seen nodes.new }
    ensures tick { nodes.new.tick ≡ nodes.old.tick }
{
    for id in schedulers {
        rouse(nodes, id.key());
    }
    nodes.behind = false;
    nodes.quiet = 0;
}
