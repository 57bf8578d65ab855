// What is asked about the paths to schedulers, and what counts there.
ghost use Rattle.std.specs.Prelude.{◌≡◌};
ghost use Rattle.hls_chron.specs.Kinds.{fair_queue};
ghost use Rattle.hls_sched.specs.Boxed.{boxed};
ghost use Rattle.hls_tree_nodes.specs.Views.{shown_at};
ghost use Rattle.hls_tree_depths.specs.Inside.Sums.{fair_in, count_in};

use hls_sched::Scheduler;
use hls_tree_nodes::{Nodes, Role};

/// Which schedulers count on a path.
#[derive(Clone, Copy)]
pub(crate) enum Counted {
    Each,
    FairQueues,
    Only(usize),
}

/// A scheduler, and the parent that it is thought to have; where there is none, it sits at the processor.
#[derive(Clone, Copy)]
pub(crate) struct Moved {
    pub(crate) key: usize,
    pub(crate) parent: Option<usize>,
}

/// What is asked about the paths.
#[derive(Clone, Copy)]
pub(crate) struct Question {
    pub(crate) counted: Counted,
    pub(crate) moved: Option<Moved>,
}

/// 1 where a node is a fair queueing scheduler, and else 0.
fn fair_queue_at(nodes: &Nodes, key: usize) -> u8
    ensures { result ≡ fair_in (shown_at (boxed seen) nodes.now key) }
{
    match nodes.slab.get(key) {
        Some(node) => match &node.role {
            Role::Sched(station) => station.config.fair_queues(),
            Role::Thread { .. } => 0,
        },
        None => 0,
    }
}

/// What a node counts.
pub(crate) fn count_of(nodes: &Nodes, counted: &Counted, key: usize) -> u8
    ensures { result ≡ count_in counted.now key (shown_at (boxed seen) nodes.now key) }
{
    match counted {
        Counted::Each => 1,
        Counted::FairQueues => fair_queue_at(nodes, key),
        Counted::Only(other) => { if key == *other { 1 } else { 0 } }
    }
}
