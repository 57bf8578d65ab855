// Items of a list by their names.
ghost use Rattle.std.specs.Prelude.{◌≡◌, ◌+◌, ◌<◌, IfOk, OnOk, length};
ghost use Rattle.hls_audit_threads.specs.Inside.Chains.{first_of, next_of, AreChains, AreChainsFrom};

use hls_audit_stays::Places;
use hls_chron::Name;
use std::alloc::{AllocError, Global};

/// Of a list in which each item has a name or none: where a name comes first, and where the name of each item comes
/// next.
#[derive(Drop)]
pub(crate) struct Chains {
    pub(crate) first: Places,
    pub(crate) next: Vec<Option<usize>>,
}

impl Chains {
    /// The chains of a list.
    ///
    /// # Errors
    /// Returns `AllocError` for want of memory.
    pub(crate) fn of(alloc: Global, keys: &[Option<Name>]) -> Result<Chains, AllocError>
        ensures { IfOk result (AreChains keys.now) }
    {
        let mut chains = Chains::unlinked(alloc, keys)?;
        let count = keys.len();
        for step in 0..count {
            chains.link(keys, count - 1 - step)?;
        }
        Ok(chains)
    }

    fn unlinked(alloc: Global, keys: &[Option<Name>]) -> Result<Chains, AllocError>
        ensures { IfOk result (λ chains. AreChainsFrom keys.now chains (length keys.now)) }
    {
        let mut next = Vec::new(alloc);
        next.resize(keys.len(), None)?;
        Ok(Chains {
            first: Places::new(alloc),
            next,
        })
    }

    /// Links an item with those behind it.
    fn link(&mut self, keys: &[Option<Name>], at: usize) -> Result<(), AllocError>
        requires within { at < length keys.now }
        requires linked { AreChainsFrom keys.now self.old (at + 1) }
        ensures { OnOk result (AreChainsFrom keys.now self.new at) }
    {
        match keys[at] {
            None => Ok(()),
            Some(name) => {
                self.next[at] = self.first.find(&name);
                self.first.set(&name, at)
            }
        }
    }

    /// Where a name comes first.
    pub(crate) fn first(&self, name: &Name) -> Option<usize>
        ensures { result ≡ first_of self.now name.now }
    {
        self.first.find(name)
    }

    /// Where the name of an item comes next.
    pub(crate) fn next(&self, place: usize) -> Option<usize>
        ensures { result ≡ next_of self.now place }
    {
        match self.next.get(place) {
            Some(next) => *next,
            None => None,
        }
    }
}
