// Nodes: schedulers and threads, and their seats.
ghost use Rattle.std.specs.Prelude.{◌≡◌};
ghost use Rattle.hls_machine.specs.Steps.{is_processor};
ghost use Rattle.hls_tree_nodes.specs.Shown.{PostedWhat, asks_what, is_thread_what};
ghost use Rattle.hls_tree_nodes.specs.Views.{place_view, same_place, what_of, IsBody};

use crate::Station;
use hls_chron::{Name, Terms};
use hls_guarantee::Guarantee;
use hls_sched::Scheduler;

/// The processor, or a slot of a scheduler.
#[derive(Clone, Copy, Debug, PartialEq, Eq)]
pub enum Place {
    Processor,
    At { scheduler: usize, slot: u32 },
}

/// Where one sits, on which terms, and what is guaranteed there.
#[derive(Clone, Copy, Debug)]
pub struct TakenSeat {
    pub place: Place,
    pub terms: Terms,
    pub kept: Guarantee,
}

/// What a node is: a scheduler, or a thread and whether it is ready.
#[derive(Drop)]
pub enum Role {
    Sched(Station),
    Thread { ready: bool },
}

/// What a node was made of.
#[derive(Drop)]
pub enum Body {
    Sched(Box<dyn Scheduler>),
    Thread,
}

impl Role {
    /// Whether it is a thread.
    pub fn is_thread(&self) -> bool
        ensures { result ≡ is_thread_what (what_of seen self.now) }
    {
        match self {
            Role::Sched(_) => false,
            Role::Thread { .. } => true,
        }
    }

    /// Whether it asks.
    pub fn asks(&self) -> bool
        requires posted { PostedWhat (what_of seen self.now) }
        ensures { result ≡ asks_what (what_of seen self.now) }
    {
        match self {
            Role::Sched(station) => station.asks(),
            Role::Thread { ready } => *ready,
        }
    }

    /// What it was made of.
    pub fn into_body(self) -> Body
        ensures { IsBody seen result (what_of seen self) }
    {
        match self {
            Role::Sched(station) => Body::Sched(station.unit),
            Role::Thread { .. } => Body::Thread,
        }
    }
}

/// A scheduler or a thread, with a seat for each of its ports. Its level is one above the greatest of
/// those that it sits on, and 1 where it sits at the processor alone.
#[derive(Drop)]
pub struct Node {
    pub name: Name,
    pub level: u8,
    pub seats: Vec<TakenSeat>,
    pub role: Role,
}

/// Whether two places are the same.
pub fn same_place(one: Place, other: Place) -> bool
    ensures { result ≡ same_place (place_view one) (place_view other) }
{
    match (one, other) {
        (Place::Processor, Place::Processor) => true,
        (
            Place::At { scheduler, slot },
            Place::At {
                scheduler: other_scheduler,
                slot: other_slot,
            },
        ) => scheduler == other_scheduler && slot == other_slot,
        _ => false,
    }
}

/// Whether a place is the processor.
pub fn is_processor(place: Place) -> bool
    ensures { result ≡ is_processor (place_view place) }
{
    match place {
        Place::Processor => true,
        Place::At { .. } => false,
    }
}
