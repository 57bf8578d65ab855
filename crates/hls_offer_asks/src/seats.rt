// The scheduler of a name.
ghost use Rattle.std.specs.Prelude.{IfSome, IsNone};
ghost use Rattle.hls_machine.specs.Hierarchy.{Hierarchy};
ghost use Rattle.hls_machine.specs.Lists.{IsListed};
ghost use Rattle.hls_legal.specs.Tells.{HasName};
ghost use Rattle.hls_legal.specs.Moment.{NamesScheduler};
ghost use Rattle.hls_tree.specs.Reads.{IsLoaded};
ghost use Rattle.hls_tree.specs.Trees.{Any, IsTreeOf, Stands};

use hls_chron::Name;
use hls_sched::Scheduler;
use hls_tree::{NodeId, Sort, Tree};

/// The loaded scheduler of a name, if there is one.
pub fn scheduler_of(tree: &Tree, name: &Name) -> Option<NodeId>
    requires { Stands seen tree.now Any }
    ensures found { IfSome result (λ id. (h : Hierarchy) → IsTreeOf seen tree.now h →
        HasName h id name.now × IsLoaded (h.nodes id)) }
    ensures none { IsNone result → (h : Hierarchy) → IsTreeOf seen tree.now h → IsListed h →
        ¬ NamesScheduler h name.now }
{
    let Some(id) = tree.find(name) else {
        return None;
    };
    match tree.sort(id) {
        Sort::Sched(_) => Some(id),
        Sort::Thread => None,
    }
}
