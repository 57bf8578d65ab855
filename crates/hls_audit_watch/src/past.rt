// The ticks so far. They stand in proofs alone, and take no memory.
ghost use Rattle.std.specs.Prelude.{◌≡◌, Bool, List, [], ◌∷◌, ◌++◌};
ghost use Rattle.std.specs.Borrow.{ftrue};

use std::marker::Model;

/// Whether each tick so far was served.
#[derive(Drop)]
pub(crate) struct Past {
    pub(crate) ghost list: { List Bool },
}

impl Model for Past {
    ghost also_owns = { λ _. ftrue };
}

impl Past {
    /// No tick.
    pub(crate) fn none() -> Past
        ensures { result.list ≡ [] }
    {
        Past {}
    }

    /// One tick more.
    pub(crate) fn and(&self, _served: &bool) -> Past
        ensures { result.list ≡ self.now.list ++ _served.now ∷ [] }
    {
        Past {}
    }
}
