// Threads that have something new to tell.
ghost use Rattle.std.specs.Prelude.{◌≡◌, ◌<◌, ◌≤◌, ◌↔◌, ◌++◌, ◌∷◌, [], ℕ, List, length, IsTrue, Some, None};
ghost use Rattle.hls_tree_nodes.specs.TreeOf.{IsNew};

use hls_tree_nodes::NodeId;
use std::marker::Model;

/// Threads whose readiness may have changed since they told what they ask: at most 64. Contracts see
/// their list.
#[derive(Debug, Drop)]
pub struct Changed {
    len: u8,
    nodes: [NodeId; 64],
}

impl Model for Changed {
    ghost use Rattle.std.specs.Prelude.{ℕ, List, take, ◌≤◌};

    ghost Value = { List ℕ };

    ghost view = { λ changed. take changed.len changed.nodes };

    ghost invariant = { λ changed. changed.len ≤ 64 };
}

impl Changed {
    /// No thread.
    pub fn new() -> Changed
        ensures { result ≡ [] }
    {
        Changed {
            len: 0,
            nodes: [NodeId::of(0); 64],
        }
    }

    /// Whether there is room for one more.
    pub fn has_room(&self) -> bool
        ensures { IsTrue result ↔ (length self.now < 64) }
    {
        self.threads().len() < 64
    }

    /// One thread more.
    pub fn push(&mut self, id: NodeId)
        requires { length self.old < 64 }
        ensures { self.new ≡ self.old ++ id ∷ [] }
    {
        self.nodes[self.len as usize] = id;
        self.len += 1;
    }

    /// Forgets them all.
    pub fn clear(&mut self)
        ensures { self.new ≡ [] }
    {
        self.len = 0;
    }

    /// The threads.
    pub fn threads(&self) -> &[NodeId]
        ensures { result.now ≡ self.now }
    {
        &self.nodes[..self.len as usize]
    }
}

/// Notes that a thread has something new to tell; where there is no room for it, any node may have.
pub fn note_changed(changed: &mut Option<Changed>, id: NodeId)
    ensures kept { (c : ℕ) → IsNew changed.old c → IsNew changed.new c }
    ensures noted { IsNew changed.new id }
    ensures listed { (l : List ℕ) → changed.old ≡ Some l → length l < 64 → changed.new ≡ Some (l ++ id ∷ []) }
    ensures full { (l : List ℕ) → changed.old ≡ Some l → 64 ≤ length l → changed.new ≡ None }
{
    match changed {
        Some(list) if list.has_room() => list.push(id),
        _ => *changed = None,
    }
}

/// Notes that nothing is new to tell.
pub fn note_told(changed: &mut Option<Changed>)
    ensures { changed.new ≡ Some [] }
{
    match changed {
        Some(list) => list.clear(),
        None => *changed = Some(Changed::new()),
    }
}
