// Which stays a command ends and begins.
ghost use Rattle.std.specs.Prelude.{◌≡◌, ◌≢◌, ◌<◌, ◌^◌, IfOk, length};
ghost use Rattle.hls_machine.specs.Hierarchy.{Hierarchy};
ghost use Rattle.hls_tree.specs.Trees.{IsTreeOf, Stands, Any};
ghost use Rattle.hls_core_stays.specs.Turnovers.{AreBelow, IsMoved, IsRoused, IsTurnover, stays_begun};

use hls_chron::Name;
use hls_scenario::Command;
use hls_tree::{NodeId, Sort, Tree};
use std::alloc::{AllocError, Global};

/// Which stays a command ends and begins, once it is carried out.
#[derive(Debug, Drop)]
pub enum Turnover {
    /// None.
    Nothing,
    /// The thread that is admitted begins a stay.
    Begins,
    /// The stay of a thread ends.
    Ends(NodeId),
    /// The stay of a thread that is moved ends, and another begins.
    Reseats(NodeId),
    /// The stays of these threads, which are below a scheduler that is moved, end, and others of theirs begin.
    Renews(Vec<NodeId>),
    /// None, but a thread may be ready that was not, or not any more.
    Rouses(NodeId),
}

/// The threads that are a node or below it, in the order of their admissions.
fn threads_below(alloc: Global, tree: &Tree, id: NodeId) -> Result<Vec<NodeId>, AllocError>
    requires { Stands seen tree.now (λ h. h.nodes id ≢ None) }
    ensures { IfOk result (λ threads. (h : Hierarchy) → IsTreeOf seen tree.now h → AreBelow h id threads.items) }
{
    let subtree = tree.subtree(id);
    let mut near = 0;
    let mut threads = Vec::new(alloc);
    for at in 0..tree.threads() {
        let thread = tree.thread(at);
        if !tree.is_in_near(&subtree, thread, &mut near) {
            continue;
        }
        threads.push(thread)?;
    }
    Ok(threads)
}

/// That a node of this name is moved, where there is one.
fn moves(alloc: Global, tree: &Tree, name: &Name) -> Result<Turnover, AllocError>
    requires { Stands seen tree.now Any }
    ensures { IfOk result (λ turnover. (h : Hierarchy) → IsTreeOf seen tree.now h → IsMoved h name.now turnover) }
{
    let Some(id) = tree.find(name) else {
        return Ok(Turnover::Nothing);
    };
    match tree.sort(id) {
        // nobody sits on a thread
        Sort::Thread => Ok(Turnover::Reseats(id)),
        Sort::Sched(_) => Ok(Turnover::Renews(threads_below(alloc, tree, id)?)),
    }
}

/// That a thread of this name is woken or blocked, where there is one.
fn rouses(tree: &Tree, name: &Name) -> Turnover
    ensures { (h : Hierarchy) → IsTreeOf seen tree.now h → IsRoused h name.now result }
{
    match tree.find(name) {
        Some(id) => Turnover::Rouses(id),
        None => Turnover::Nothing,
    }
}

impl Turnover {
    /// Which stays a command will end and begin, before it is carried out.
    ///
    /// # Errors
    /// Returns `AllocError` for want of memory.
    pub fn of(alloc: Global, tree: &Tree, command: &Command) -> Result<Turnover, AllocError>
        requires { Stands seen tree.now Any }
        ensures { IfOk result (λ turnover. (h : Hierarchy) → IsTreeOf seen tree.now h →
            IsTurnover h command.now turnover) }
    {
        match command {
            Command::Thread { .. } => Ok(Turnover::Begins),
            Command::End { name } => match tree.find(name) {
                Some(id) => Ok(Turnover::Ends(id)),
                None => Ok(Turnover::Nothing),
            },
            Command::Move { name, .. } => moves(alloc, tree, name),
            Command::Wake { name, .. } => Ok(rouses(tree, name)),
            Command::Block { name } => Ok(rouses(tree, name)),
            _ => Ok(Turnover::Nothing),
        }
    }

    /// How many stays begin.
    pub(crate) fn begun(&self) -> usize
        ensures { result ≡ stays_begun self.now }
    {
        match self {
            Turnover::Nothing => 0,
            Turnover::Begins => 1,
            Turnover::Ends(_) => 0,
            Turnover::Reseats(_) => 1,
            Turnover::Renews(threads) => threads.len(),
            Turnover::Rouses(_) => 0,
        }
    }
}
