// The way of a grant, by the names of its nodes.
ghost use Rattle.std.specs.Prelude.{◌≡◌, ◌≤◌, length};
ghost use Rattle.hls_machine.specs.Hierarchy.{Hierarchy};
ghost use Rattle.hls_tree.specs.Trees.{IsTreeOf, Stands, HasPassed, route_of};
ghost use Rattle.hls_core.specs.Inside.Ways.{IsRoute, IsRouteOrIdle, HasNames, TellsRoute};

use hls_core_journal::Journal;
use hls_report_text::Path;
use hls_tree::{NodeId, Tree};

/// The path of these nodes.
fn path_of(tree: &Tree, journal: &Journal, ids: &[NodeId]) -> Path
    requires stands { Stands seen tree.now (λ h. IsRoute h journal.now ids.now) }
    requires short { length ids.now ≤ 9 }
    requires few { length journal.now.names.keys ≤ 65536 }
    ensures { (h : Hierarchy) → IsTreeOf seen tree.now h → HasNames h journal.now ids.now result }
{
    let mut path = Path {
        len: 0,
        names: [0; 9],
    };
    for i in 0..ids.len() {
        let id = ids[i];
        let name = tree.name(id);
        journal.extend(&mut path, name, id.key());
    }
    path
}

/// The path of the present grant; `None` where nobody is granted.
pub fn way_of(tree: &Tree, journal: &Journal) -> Option<Path>
    requires passed { HasPassed tree.now }
    requires stands { Stands seen tree.now (λ h. IsRouteOrIdle h journal.now (route_of tree.now)) }
    requires few { length journal.now.names.keys ≤ 65536 }
    ensures { (h : Hierarchy) → IsTreeOf seen tree.now h → TellsRoute h journal.now (route_of tree.now) result }
{
    match tree.current() {
        None => None,
        Some(_) => {
            let (ids, len) = tree.path_of();
            Some(path_of(tree, journal, &ids[..usize::from(len)]))
        }
    }
}
